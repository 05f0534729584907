// What a message lacks once its fresh names are written, judged before anything is.
ghost use Rattle.std.specs.Prelude.{◌≡◌, false, ◌||◌, slice_index_or};
ghost use Rattle.scripts.specs.Composing.{IsTerm, NamesTerms, view};
ghost use Rattle.terms.specs.Listed.{listed};
ghost use Rattle.terms.specs.Tree.{tree};
ghost use Rattle.effects.specs.Sending.{FreshMarked, LacksFresh, MatesKnown, NamesMarked, is_mate_of, marked_trees};

use scripts::Script;
use terms::{Marks, TermId, TermNode, Terms};

// Whether a record is the mate of a marked number.
fn is_mate_of(marks: &Marks<512>, node: TermNode) -> bool
    ensures { result ≡ is_mate_of marks.now node }
{
    match node {
        TermNode::Mate(key) => marks.contains(key),
        TermNode::Name(_, _) | TermNode::Built(_, _, _) => false,
    }
}

// Whether a term comes with the fresh names: one of them, or the mate of one.
fn comes_fresh(fresh: &Marks<512>, term: TermId, node: TermNode) -> bool
    ensures { result ≡ (slice_index_or fresh.now term false || is_mate_of fresh.now node) }
{
    fresh.contains(term) || is_mate_of(fresh, node)
}

// Marks what comes with the fresh names too.
fn mark_fresh(terms: &Terms<512>, fresh: &Marks<512>, marks: &mut Marks<512>)
    ensures { FreshMarked (listed terms.now) fresh.now marks.old marks.new }
{
    for (term, node) in terms.nodes().iter().enumerate() {
        if comes_fresh(fresh, term, *node) {
            marks.insert(term);
        }
    }
}

// The first name or mate for want of which the message cannot be composed after its fresh names.
pub(crate) fn lacking(
    script: &Script,
    terms: &Terms<512>,
    fresh: &Marks<512>,
    message: TermId,
) -> Option<TermId>
    ensures { let ts = listed terms.now in IsTerm ts message → NamesTerms ts script.now → NamesMarked ts fresh.now → MatesKnown ts fresh.now → LacksFresh ts (view ts script.now) (marked_trees ts fresh.now) (tree ts message) result }
{
    let mut marks = script.held();
    mark_fresh(terms, fresh, &mut marks);
    terms.first_missing(&marks, message)
}

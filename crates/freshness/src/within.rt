// What stands within marked terms.
ghost use Rattle.std.specs.Prelude.{◌<◌, ◌||◌, length, ◌==◌};
ghost use Rattle.terms.specs.Node.{node_at};
ghost use Rattle.terms.specs.Listed.{listed};
ghost use Rattle.freshness.specs.Marks.{Marked};
ghost use Rattle.freshness.specs.Occurring.{is_part, Occurring};

use terms::{Marks, TermId, TermNode, Terms};

// Marks the parts of a record.
fn mark_parts(node: TermNode, marks: &mut Marks<512>)
    ensures { Marked (λ t. is_part t node) marks.old marks.new }
{
    match node {
        TermNode::Name(_, _) => {}
        TermNode::Built(_, a, b) => {
            marks.insert(a);
            marks.insert(b);
        }
        TermNode::Mate(key) => marks.insert(key),
    }
}

// Marks a term and its parts.
fn mark_whole(terms: &Terms<512>, term: TermId, marks: &mut Marks<512>)
    requires { term < length (listed terms.now) }
    ensures { Marked (λ t. (term == t) || is_part t (node_at (listed terms.now) term)) marks.old marks.new }
{
    marks.insert(term);
    if let Some(node) = terms.get(term) {
        mark_parts(node, marks);
    }
}

// Marks what stands within the marked terms, at any depth, and these too: one pass from the highest number down.
pub fn occurring(terms: &Terms<512>, marks: &Marks<512>) -> Marks<512>
    ensures { Occurring (listed terms.now) marks.now result }
{
    let mut occurring = Marks::none();
    // by number: a term marks its parts, which come later in the loop
    for term in (0..terms.len()).rev() {
        if marks.contains(term) || occurring.contains(term) {
            mark_whole(terms, term, &mut occurring);
        }
    }
    occurring
}

// The names that are fresh in a message.
ghost use Rattle.std.specs.Prelude.{◌≡◌, not, ◌&&◌};
ghost use Rattle.terms.specs.Listed.{listed};
ghost use Rattle.freshness.specs.Fresh.{can_be_fresh, FreshAmong, FreshNames};
ghost use Rattle.freshness.specs.Marks.{Only};

use crate::within::occurring;
use terms::{Kind, Marks, TermId, TermNode, Terms};

// Whether a record is a name of a kind that can be fresh.
fn can_be_fresh(node: TermNode) -> bool
    ensures { result ≡ can_be_fresh node }
{
    matches!(
        node,
        TermNode::Name(Kind::Number | Kind::Shared | Kind::Public, _)
    )
}

// A name is fresh if it stands within the message and within nothing shown.
fn is_fresh(node: TermNode, sent: bool, used: bool) -> bool
    ensures { result ≡ (can_be_fresh node && (sent && not used)) }
{
    can_be_fresh(node) && sent && !used
}

// Marks one term alone.
fn only(term: TermId) -> Marks<512>
    ensures { Only term result }
{
    let mut marks = Marks::none();
    marks.insert(term);
    marks
}

// The fresh names, from what stands within the message and what is used.
fn fresh_among(terms: &Terms<512>, sent: &Marks<512>, used: &Marks<512>) -> Marks<512>
    ensures { FreshAmong (listed terms.now) sent.now used.now result }
{
    let mut fresh = Marks::none();
    for (term, node) in terms.nodes().iter().enumerate() {
        if is_fresh(*node, sent.contains(term), used.contains(term)) {
            fresh.insert(term);
        }
    }
    fresh
}

// The names of numbers, shared keys and public keys that stand within the message and within no shown term.
pub fn fresh_names(terms: &Terms<512>, shown: &Marks<512>, message: TermId) -> Marks<512>
    ensures { FreshNames (listed terms.now) shown.now message result }
{
    let sent = occurring(terms, &only(message));
    let used = occurring(terms, shown);
    fresh_among(terms, &sent, &used)
}

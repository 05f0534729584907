// What can be composed from held terms, and what is missing.
ghost use Rattle.std.specs.Prelude.{◌≡◌, ℕ, ◌<◌, ◌≤◌, false, length, if◌then◌else◌, Decides, slice_index_or};
ghost use Rattle.terms.specs.Held.{ComposableId, JudgedBelow, Misses, Lacking};
ghost use Rattle.terms.specs.Listed.{listed};

use crate::marks::Marks;
use crate::node::{TermId, TermNode};
use crate::table::Terms;

// Where to look on for what is missing in a two-part term: in its left part, unless that is composable.
fn lacking_part<const N: usize>(judged: &Marks<N>, a: TermId, b: TermId) -> TermId
    ensures { result ≡ (if slice_index_or judged.now a false then b else a) }
{
    if judged.contains(a) { b } else { a }
}

impl<const N: usize> Terms<N> {
    // Whether a number is composable, from the judgement of all lower numbers.
    fn judge(&self, held: &Marks<N>, judged: &Marks<N>, id: TermId) -> bool
        requires known { id < length (listed self.now) }
        requires lower { JudgedBelow (listed self.now) held.now judged.now id }
        ensures { Decides result (ComposableId (listed self.now) held.now id) }
    {
        held.contains(id)
            || match self.nodes.as_slice()[id] {
                TermNode::Built(_, a, b) => judged.contains(a) && judged.contains(b),
                TermNode::Name(_, _) | TermNode::Mate(_) => false,
            }
    }

    // Which numbers are composable from the held ones: one pass from the lowest number up.
    pub fn composable(&self, held: &Marks<N>) -> Marks<N>
        ensures judged { JudgedBelow (listed self.now) held.now result (length (listed self.now)) }
        ensures rest { (i : ℕ) → length (listed self.now) ≤ i → slice_index_or result i false ≡ false }
        ensures size { length result ≡ N }
    {
        let mut judged = Marks::none();
        // by number: a judgement reads those of lower numbers, which are written already
        for id in 0..self.len() {
            if self.judge(held, &judged, id) {
                judged.insert(id);
            }
        }
        judged
    }

    // The first name or mate for want of which a term is not composable, down one path.
    pub fn first_missing(&self, held: &Marks<N>, id: TermId) -> Option<TermId>
        ensures first { Misses (listed self.now) held.now id result }
        ensures lacking { Lacking (listed self.now) held.now id result }
    {
        if id >= self.len() {
            return None;
        }
        let judged = self.composable(held);
        if judged.contains(id) {
            return None;
        }
        let mut lacking = id;
        while let TermNode::Built(_, a, b) = self.nodes.as_slice()[lacking] {
            lacking = lacking_part(&judged, a, b);
        }
        Some(lacking)
    }
}

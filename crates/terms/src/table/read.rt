// The blank table, and what reading one answers.
ghost use Rattle.std.specs.Prelude.{◌≡◌, ◌<◌, ◌≤◌, [], length, IfSome};
ghost use Rattle.deduction.specs.Term.{Formed};
ghost use Rattle.terms.specs.Tree.{tree, tree_of};
ghost use Rattle.terms.specs.Outcome.{Reads, FoundFirst, Found, FoundTree};
ghost use Rattle.terms.specs.Listed.{listed};

use crate::node::{Kind, TermId, TermNode};
use crate::table::Terms;
use bounded::BoundedVec;

impl<const N: usize> Terms<N> {
    // A table with no terms.
    pub fn blank() -> Terms<N>
        ensures { listed result ≡ [] }
    {
        Terms {
            nodes: BoundedVec::new(TermNode::Name(Kind::Party, 0)),
        }
    }

    // How many terms there are.
    pub fn len(&self) -> usize
        ensures is { result ≡ length (listed self.now) }
        ensures few { result ≤ N }
    {
        self.nodes.len()
    }

    // The record at a place of the list.
    #[tactic(auto, using(crate::proofs::Listed::got))]
    fn record(&self, id: TermId) -> Option<TermNode>
        ensures reads { Reads (listed self.now) id result }
        ensures stands { IfSome result (λ node. tree (listed self.now) id ≡ tree_of node (tree (listed self.now))) }
        ensures formed { id < length (listed self.now) → Formed (tree (listed self.now) id) }
    {
        self.nodes.get(id)
    }

    // The record of a number, if it is the number of a term; the number stands for the tree that it makes of the trees of its parts.
    pub fn get(&self, id: TermId) -> Option<TermNode>
        ensures reads { Reads (listed self.now) id result }
        ensures stands { IfSome result (λ node. tree (listed self.now) id ≡ tree_of node (tree (listed self.now))) }
        ensures formed { id < length (listed self.now) → Formed (tree (listed self.now) id) }
    {
        self.record(id)
    }

    // The records in the order of their numbers.
    pub fn nodes(&self) -> &[TermNode]
        ensures { result.now ≡ listed self.now }
    {
        self.nodes.as_slice()
    }

    // The first place of a record.
    fn position(&self, node: TermNode) -> Option<TermId>
        ensures { FoundFirst (listed self.now) node result }
    {
        self.nodes().iter().position(|other| *other == node)
    }

    // The number of a record, if it has one.
    pub fn find(&self, node: TermNode) -> Option<TermId>
        ensures found { Found (listed self.now) node result }
        ensures stands { FoundTree (listed self.now) node result }
    {
        self.position(node)
    }
}

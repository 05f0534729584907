// The table itself; the calls stand in the modules below it.
ghost use Rattle.bounded.specs.Items.{items};
ghost use Rattle.terms.specs.Node.{Lower, Fitting, Once};

use crate::node::TermNode;
use bounded::BoundedVec;

mod compose;
mod insert;
mod mates;
mod read;

// The terms in the order of their numbers. Parts have lower numbers and are of the right kinds, and no term stands twice.
#[derive(Clone, Copy)]
pub struct Terms<const N: usize> {
    nodes: BoundedVec<TermNode, N>,
    ghost lower: { Lower (items nodes) },
    ghost fitting: { Fitting (items nodes) },
    ghost once: { Once (items nodes) },
}

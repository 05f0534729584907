// Terms as numbers, in fixed memory: `Terms<N>` has room for N terms.
// A term's number is its place in the order of first appearance, from 0. Its parts have lower numbers, they are of the
// kinds that its form asks for, and no term stands twice. So each number stands for one well-formed term of the symbolic
// model, different numbers for different terms, and it does so for good: a table only grows, and a refused call leaves it
// as it was. Composability is judged for all numbers in one pass, from the lowest up, so shared parts cost nothing. Sets of
// terms are `Marks<N>`.
// Every public function is total, and its contract says the whole outcome.

#![tactic(auto)]

pub mod marks;
pub mod node;
pub mod table;
pub mod theorems;

pub use marks::Marks;
pub use node::{Form, Kind, TermError, TermId, TermNode, UnknownForm, UnknownKind};
pub use table::Terms;

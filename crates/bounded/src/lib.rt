// A list in fixed memory: at most N items, in the order in which they were put in.
//
// It allocates nothing and is copied as a whole. A contract sees the list of its items; what stands in the unused places is
// never shown.

#![tactic(auto)]

mod list;

pub use list::{BoundedVec, Full};

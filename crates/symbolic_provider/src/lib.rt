// A provider whose values are terms, in fixed memory: at most 1,024 of them, each with the number under which it was first made.
//
// Every making adds at most its own term: a term that is held is answered with the handle that it has. Every call takes any
// numbers and answers a handle, Wrong or Full; its contract says the whole outcome, and a refusal leaves the provider equal to
// what it was. The calls are shown to keep the laws of a provider, with trees as values.

#![tactic(auto)]

mod store;

pub use store::SymbolicProvider;

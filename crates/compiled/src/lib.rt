// Compiling a list of calls and running what came of it, in one call that carries both laws whole.
//
// The calls are made on a blanked protocol, their answers are written into a lent list, and the protocol is run on a provider. What the
// contract speaks of is the lent calls with the lent answers: nothing is assumed of either.

#![tactic(auto)]

mod calls;
mod compile;

pub use calls::perform_all;
pub use compile::compile_and_run;

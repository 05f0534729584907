// A protocol in fixed memory: at most 512 terms, the listener and seven parties with a script each, 64 steps.
//
// Its calls name and build terms, give agents initial knowledge, add steps, and ask what an agent can build. Each answers and does
// exactly what the rules say, and a refused call alters nothing. A step is refused as unmakeable exactly when its sender cannot
// build the message, and whether an agent can build a term is answered exactly: this holds after every list of calls.

#![tactic(auto)]

mod call;
mod protocol;
mod refusal;
mod step;

pub use call::{Answer, Call, Reply};
pub use protocol::Protocol;
pub use refusal::Refusal;
pub use step::{Agent, LISTENER, Step};

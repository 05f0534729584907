// Runs of whole protocols on a provider.
//
// A run loads every term, starts every party, and then plays every granted step: its sender's part, and its receiver's, which is
// handed the sender's name and the message. What is done is exactly what the protocol's scripts and steps say. On every provider,
// whatever calls led to the protocol, each message sent stands for the value of the step's message; with enough memory nothing but
// Full stops the run, where the making that is asked for does not fit; unstopped, it plays all granted steps and does all comparisons.

#![tactic(auto)]

mod fault;
mod memory;
mod playing;
mod task;

pub use fault::{Played, RunFault};
pub use memory::base_of;
pub use playing::run;

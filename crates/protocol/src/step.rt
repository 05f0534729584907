// Agents and granted steps.
use terms::TermId;

// Who has a script: the listener, or one of the parties 1 to 7.
pub type Agent = usize;

// The listener, who hears every message.
pub const LISTENER: Agent = 0;

// A granted step, and how long the scripts of its sender, its receiver and the listener are after it.
#[derive(Clone, Copy, PartialEq, Eq, Debug)]
pub struct Step {
    pub sender: Agent,
    pub receiver: Agent,
    pub message: TermId,
    pub sent: usize,
    pub received: usize,
    pub heard: usize,
}

// The names of a step's sender and receiver, and the sender's slot that holds the receiver's name.
#[derive(Clone, Copy)]
pub struct Delivery {
    pub from: TermId,
    pub to: TermId,
    pub address: usize,
}

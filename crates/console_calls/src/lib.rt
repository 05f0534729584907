// The console's calls, and how a line writes them.
//
// A line is words parted by single spaces, with numbers in decimal of at most five digits and up to 65535. Reading a line answers
// exactly the call that its words write, and none where they write no call.

#![tactic(auto)]

mod call;
mod number;
mod read;
mod words;

pub use call::{Act, Call, Turn};
pub use read::read_call;

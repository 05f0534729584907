// Scripts in fixed memory, and the code that writes them.
//
// A script has at most 512 instructions, numbered from 0, each with a slot for its result and the term that the slot holds, if it
// holds one. What is written is exactly what the rules say; a script that would be longer is refused.

#![tactic(auto)]

pub mod instruction;
mod script;

pub use instruction::{Instruction, Line, ScriptError, Slot};
pub use script::Script;

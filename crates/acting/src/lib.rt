// Carrying out scripts on a provider.
//
// A script's instructions are done one after the other, each on the handles in the slots before it, and the handle that comes of it
// is put into its own slot; before that the provider is asked for every term's value, in number order. What is done is exactly what
// the instructions say, on every provider and for every script. For fitting scripts every slot then stands for the value of its
// term, and nothing but Full stops them, where the making that is asked for does not fit.

#![tactic(auto)]

mod carrying;
mod halt;
mod instruction;
mod loading;
mod refusal;

pub use carrying::carry_out;
pub use halt::Halt;
pub use instruction::Part;
pub use loading::load;
pub use refusal::SessionRefusal;

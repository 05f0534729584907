// Reading a table and running it, in one call: what is run is what the text says.

#![tactic(auto)]

mod fault;
mod running;

pub use fault::TableRunFault;
pub use running::read_and_run;

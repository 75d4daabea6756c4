// Commands, read from their texts and written as them.
#![tactic(auto)]

mod command;
mod laws;
mod reader;
mod writer;

pub use command::Command;
pub use laws::commands_read_back;

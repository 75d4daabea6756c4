// The header of a message: its 16 bytes read and written, refusals 7 to 9.
#![tactic(auto)]

mod header;
mod laws;

pub use header::Header;
pub use laws::{reads_what_was_written, writes_what_was_read};

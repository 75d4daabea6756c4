// Responses to commands: their texts read and written.
#![tactic(auto)]

mod laws;
mod reader;
mod response;
mod writer;

pub use laws::responses_read_back;
pub use response::{Outcome, PlacedResponse, Places, Response};

// The words of commands and of responses.
#![tactic(auto)]

mod laws;
mod status;
mod word;

pub use laws::words_told;
pub use status::{Status, Tells};
pub use word::{UnknownWord, Word};

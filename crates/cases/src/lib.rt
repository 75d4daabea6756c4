// What the programs that answer cases have in common: a case is a line of words, and a word is a name, a number or bytes.
#![tactic(auto)]

mod fault;
mod hex;
mod lines;
mod word;

pub use fault::Fault;
pub use hex::Hex;
pub use lines::{Answer, answer_lines};
pub use word::{array, bytes, number};

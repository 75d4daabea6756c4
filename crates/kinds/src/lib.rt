// Kinds of messages, their codes, the checks of type and number, and the refusals of a message.
#![tactic(auto)]

mod check;
mod kind;
mod laws;
mod refusal;

pub use check::{check_kind, check_number};
pub use kind::{End, Kind, UnknownKind, trailer};
pub use laws::codes_tell_kinds;
pub use refusal::MessageRefusal;

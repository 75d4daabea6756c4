// The causes for which a command is refused.
#![tactic(auto)]

mod cause;
mod laws;

pub use cause::{Cause, UnknownCause, UnknownWords};
pub use laws::causes_told;

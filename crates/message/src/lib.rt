// Messages under any seal: written, and received past refusals 3 and 7 to 12.
#![tactic(auto)]

mod laws;
mod receiving;
mod seal;
mod taking;
mod writing;

pub use laws::lengths;
pub use receiving::Received;
pub use seal::{Seal, Unopened};
pub use taking::Awaited;
pub use writing::{Outgoing, log_in_trailer};

// The two seals: closed (AES-256-GCM) and open (HMAC-SHA-256).
#![tactic(auto)]

mod closed;
mod open;

pub use closed::ClosedSeal;
pub use open::OpenSeal;

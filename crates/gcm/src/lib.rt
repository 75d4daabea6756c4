// AES-256-GCM (SP 800-38D) with an IV of 12 bytes and a tag of 12 bytes, in place.
#![tactic(auto)]

mod blocks;
mod cipher;
mod hash;
mod laws;
mod refusal;

pub use cipher::Gcm;
pub use laws::{decrypts_what_was_encrypted, lengths_kept};
pub use refusal::{Undecrypted, WrongTag};

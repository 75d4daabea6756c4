// Stores, by their meaning: the reading half and the writing half, their faults, and the order of keys.
#![tactic(auto)]

mod fault;
mod key;
mod laws;
mod pending;
mod traits;

pub use fault::{Lower, StoreFault, from_below, raised_level};
pub use key::{check_key, is_below};
pub use laws::entries_as_a_map;
pub use pending::Pending;
pub use traits::{ReadStore, Store};

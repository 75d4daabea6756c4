// A file in fragments: the rule for their sizes, and how far a file has come.
#![tactic(auto)]

mod laws;
mod progress;
mod refusal;
mod rule;

pub use laws::{one_way_to_cut, sizes_worked, whole_as_announced};
pub use progress::Progress;
pub use refusal::FragmentRefusal;
pub use rule::{Fragment, due, fits};

// What every layer does with plain bytes: compares them without an early exit, and shows a digest as text.
#![tactic(auto)]

mod compare;
mod text;

pub use compare::equal;
pub use text::hexadecimal;

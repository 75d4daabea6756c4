// Texts in fields: cut at byte 10 and read field by field, and written from fields.
#![tactic(auto)]

mod field;
mod laws;
mod reader;
mod refusal;
mod writer;

pub use field::{Field, Fields, Place};
pub use laws::{cut_and_joined, fields_stand};
pub use refusal::{TextRefusal, WrongField};
pub use writer::{WriteText, write_fields};

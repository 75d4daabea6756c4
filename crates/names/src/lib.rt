// Names of files and directories, and names of users.
#![tactic(auto)]

ghost use Rattle.std.specs.Prelude.{◌≡◌};
ghost use Rattle.names.specs.Names.{name, user};

mod laws;
mod letters;

pub use laws::{names_told, names_worked, users_are_names, users_told};
use letters::is_plain_up_to;

// Whether the bytes are a name: 1 to 32 letters, and not "." or "..".
pub fn is_name(bytes: &[u8]) -> bool
    ensures { result ≡ name bytes.now }
{
    is_plain_up_to::<32>(bytes)
}

// Whether the bytes are a user: 1 to 16 letters, and not "." or "..".
pub fn is_user(bytes: &[u8]) -> bool
    ensures { result ≡ user bytes.now }
{
    is_plain_up_to::<16>(bytes)
}

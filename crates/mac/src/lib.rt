// HMAC-SHA-256 (RFC 2104), and PBKDF2 (RFC 8018) over it.
#![tactic(auto)]

ghost use Rattle.std.specs.Prelude.{◌≡◌};
ghost use Rattle.mac.specs.Hmac.{hmac};
ghost use Rattle.mac.specs.Parts.{joined};

mod code;
mod key;
mod password;

pub use code::Hmac;
pub use password::pbkdf2;

// The code of a message in parts.
pub fn hmac_parts(key: &[u8], parts: &[&[u8]]) -> [u8; 32]
    ensures { result ≡ hmac key.now (joined parts.now) }
{
    let mut mac = Hmac::new(key);
    mac.take_all(parts);
    mac.finish()
}

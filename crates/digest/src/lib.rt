// SHA-256 (FIPS 180-4), in one go or piece by piece.
#![tactic(auto)]

ghost use Rattle.std.specs.Prelude.{◌≡◌};
ghost use Rattle.digest.specs.Sha256.{sha256};

mod block;
mod hasher;
mod words;

pub use hasher::Hasher;

// The digest of a whole message.
pub fn sha256(message: &[u8]) -> [u8; 32]
    ensures { result ≡ sha256 message.now }
{
    let mut hasher = Hasher::new();
    hasher.update(message);
    hasher.finish()
}

// Texts with a number among their fields: functions that name one lifetime, since no array is proved of fields that live for several.
ghost use Rattle.std.specs.Prelude.{◌≡◌, [], ◌∷◌, length};
ghost use Rattle.fields.specs.Takes.{writing, buffer_after};

use fields::{TextRefusal, write_fields};

// Stamp, user and password, each followed by byte 10.
pub(crate) fn write_credentials<'a>(
    stamp: &'a [u8],
    user: &'a [u8],
    password: &'a [u8],
    formed: bool,
    out: &mut [u8],
) -> Result<usize, TextRefusal>
    ensures answer { result ≡ writing (stamp.now ∷ user.now ∷ password.now ∷ [] ∷ []) formed (length out.old) }
    ensures output { out.new ≡ buffer_after (stamp.now ∷ user.now ∷ password.now ∷ [] ∷ []) formed out.old }
{
    write_fields(&[stamp, user, password, b""], formed, out)
}

// Digest and size.
pub(crate) fn write_receipt<'a>(
    digest: &'a [u8],
    size: &'a [u8],
    formed: bool,
    out: &mut [u8],
) -> Result<usize, TextRefusal>
    ensures answer { result ≡ writing (digest.now ∷ size.now ∷ []) formed (length out.old) }
    ensures output { out.new ≡ buffer_after (digest.now ∷ size.now ∷ []) formed out.old }
{
    write_fields(&[digest, size], formed, out)
}

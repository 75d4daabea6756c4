// The bytes of a name.
ghost use Rattle.std.specs.Prelude.{◌≡◌};
ghost use Rattle.names.specs.Names.{letter, letters, plain, plain_up_to};

fn is_letter(b: u8) -> bool
    ensures { result ≡ letter b }
{
    matches!(b, b'A'..=b'Z' | b'a'..=b'z' | b'0'..=b'9' | b'-' | b'.' | b'_')
}

#[tactic(auto, unfolding(crate::specs::Names::letters))]
fn all_letters(bytes: &[u8]) -> bool
    ensures { result ≡ letters bytes.now }
{
    bytes.iter().all(|b| is_letter(*b))
}

// Whether every byte is a letter, and the bytes are not "." or "..".
#[tactic(auto, using(crate::proofs::Spelling::same_dot, crate::proofs::Spelling::same_dots))]
fn is_plain(bytes: &[u8]) -> bool
    ensures { result ≡ plain bytes.now }
{
    all_letters(bytes) && !matches!(bytes, b"." | b"..")
}

// Whether the bytes are 1 to MOST letters, and not "." or "..".
pub(crate) fn is_plain_up_to<const MOST: usize>(bytes: &[u8]) -> bool
    ensures { result ≡ plain_up_to MOST bytes.now }
{
    (1..=MOST).contains(&bytes.len()) && is_plain(bytes)
}

// The 64 letters and their numbers.
ghost use Rattle.std.specs.Prelude.{◌≡◌, ◌<◌, IfSome};
ghost use Rattle.base64_text.specs.Base64.{letter, value};

pub(crate) fn letter_of(n: u8) -> u8
    requires { n < 64 }
    ensures { result ≡ letter n }
{
    match n {
        0..=25 => b'A' + n,
        26..=51 => b'a' + (n - 26),
        52..=61 => b'0' + (n - 52),
        62 => b'+',
        _ => b'/',
    }
}

pub(crate) fn value_of(c: u8) -> Option<u8>
    ensures value { result ≡ value c }
    ensures small { IfSome result (λ n. n < 64) }
{
    match c {
        b'A'..=b'Z' => Some(c - b'A'),
        b'a'..=b'z' => Some(c - b'a' + 26),
        b'0'..=b'9' => Some(c - b'0' + 52),
        b'+' => Some(62),
        b'/' => Some(63),
        _ => None,
    }
}

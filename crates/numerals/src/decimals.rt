// A decimal read digit by digit.
ghost use Rattle.std.specs.Prelude.{◌≡◌, ◌+◌, ◌≤◌, IfSome};
ghost use Rattle.numerals.specs.Decimals.{plain, decimal_of};

// Some character, and no leading zero except in "0" itself.
fn is_plain(text: &[u8]) -> bool
    ensures { result ≡ plain text.now }
{
    match text {
        [] => false,
        [_] => true,
        [first, ..] => *first != b'0',
    }
}

// The decimal that a text is, where it is at most `largest`.
pub(crate) fn read_up_to(text: &[u8], largest: u64) -> Option<u64>
    ensures value { result ≡ decimal_of (largest + 1) text.now }
    ensures within { IfSome result (λ n. n ≤ largest) }
{
    if !is_plain(text) {
        return None;
    }
    let mut n = 0u64;
    for c in text {
        if !c.is_ascii_digit() {
            return None;
        }
        let next = u128::from(n) * 10 + u128::from(*c - b'0');
        if next > u128::from(largest) {
            return None;
        }
        n = next as u64;
    }
    Some(n)
}

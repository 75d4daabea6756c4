// Numbers and digests as text: hexadecimal digests read, decimals read and written.
#![tactic(auto)]

ghost use Rattle.std.specs.Prelude.{◌≡◌, ◌+◌, ◌<◌, ◌≤◌, length, take, IfSome, decimal};
ghost use Rattle.numerals.specs.Decimals.{decimal_as};
ghost use Rattle.numerals.specs.Digests.{digit_of};
ghost use Rattle.octets.specs.Fronts.{at_front};

mod decimals;
mod hexadecimal;
mod laws;
mod unsigned;
mod writing;

use decimals::read_up_to;
pub use hexadecimal::digest;
pub use laws::{decimals_read_back, digests_read_back, numerals_worked};
pub use unsigned::Unsigned;
pub use writing::Decimal;
use writing::put;

// What a lower-case hexadecimal digit stands for.
pub fn digit(c: char) -> Option<u8>
    ensures value { result ≡ digit_of c }
    ensures small { IfSome result (λ d. d < 16) }
{
    match c {
        '0'..='9' => Some(c as u8 - b'0'),
        'a'..='f' => Some(c as u8 - b'a' + 10),
        _ => None,
    }
}

// The decimal that a text is, without a leading zero, where the type has it: at a type of numbers below k, `decimal_of k` of the text.
pub fn decimal<N: Unsigned>(text: &[u8]) -> Option<N>
    ensures { result ≡ decimal_as N.of (N.LARGEST + 1) text.now }
{
    N::of(read_up_to(text, N::LARGEST)?)
}

// Writes a number at the front of `out`, whose rest stays, and answers how many digits it has: a buffer and its length, since nothing here
// allocates; `Decimal` holds both. Over a private function that calls itself, so that an edit here changes one call.
pub fn write_decimal(n: u64, out: &mut [u8; 20]) -> usize
    ensures value { result ≡ length (decimal n) }
    ensures after { out.new ≡ at_front (decimal n) out.old }
    ensures front { take result out.new ≡ decimal n }
    ensures bound { result ≤ 20 }
{
    put(n, out)
}

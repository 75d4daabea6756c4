// A decimal written digit by digit.
ghost use Rattle.std.specs.Prelude.{◌≡◌, ◌+◌, ◌%◌, ◌≤◌, List, length, take, decimal, ℕ};
ghost use Rattle.octets.specs.Fronts.{at_front};

use crate::write_decimal;
use std::marker::Model;

// A number's digits.
#[derive(Drop)]
pub struct Decimal {
    digits: [u8; 20],
    count: usize,
}

impl Model for Decimal {
    ghost Value = { List ℕ };

    ghost view = { λ d. take d.count d.digits };

    ghost invariant = { λ d. d.count ≤ 20 };
}

impl Decimal {
    pub fn new(n: u64) -> Decimal
        ensures { result ≡ decimal n }
    {
        let mut digits = [0; 20];
        let count = write_decimal(n, &mut digits);
        Decimal { digits, count }
    }

    pub fn as_bytes(&self) -> &[u8]
        ensures { result.now ≡ self.now }
    {
        &self.digits[..self.count]
    }
}

// The character of a number's last digit.
fn last_digit(n: u64) -> u8
    ensures { result ≡ 48 + n % 10 }
{
    b'0' + (n % 10) as u8
}

// The digits before the last one first, then the last one.
// Under `write_decimal`, since it calls itself; the buffer and its length beside it, since nothing allocates.
pub(crate) fn put(n: u64, out: &mut [u8; 20]) -> usize
    ensures value { result ≡ length (decimal n) }
    ensures after { out.new ≡ at_front (decimal n) out.old }
    ensures front { take result out.new ≡ decimal n }
    ensures bound { result ≤ 20 }
{
    if n < 10 {
        out[0] = last_digit(n);
        return 1;
    }
    let at = put(n / 10, out);
    out[at] = last_digit(n);
    at + 1
}

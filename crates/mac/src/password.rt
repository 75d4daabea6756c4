// A key derived from a password.
ghost use Rattle.std.specs.Prelude.{◌≡◌};
ghost use Rattle.mac.specs.Pbkdf2.{xors, pbkdf2};

use crate::code::Hmac;

fn xor_into(sum: &mut [u8; 32], by: &[u8; 32])
    ensures { sum.new ≡ xors sum.old by.now }
{
    // by the index of the other list, since of a zip that writes the library says the length alone
    for (i, byte) in by.iter().enumerate() {
        sum[i] ^= *byte;
    }
}

// The key of 32 bytes derived from a password in that many rounds; 0 rounds count as 1.
pub fn pbkdf2(password: &[u8], salt: &[u8], rounds: u32) -> [u8; 32]
    ensures { result ≡ pbkdf2 password.now salt.now rounds }
{
    let keyed = Hmac::new(password);
    let mut first = keyed;
    first.update(salt);
    first.update(&[0, 0, 0, 1]);
    let mut last = first.finish();
    let mut sum = last;
    // the round has a name, which the proof counts by
    for _round in 1..rounds {
        let mut next = keyed;
        next.update(&last);
        last = next.finish();
        xor_into(&mut sum, &last);
    }
    sum
}

// The S-box of AES (FIPS 197) as a table, and its rule at every entry.
#![tactic(auto)]

ghost use Rattle.std.specs.Prelude.{◌≡◌};
ghost use Rattle.sbox.specs.Substitution.{sub_byte, inverse, Inverse};

mod table;

use table::SBOX;

// The substitution of a byte. Its rule: the inverse in GF(2^8), which is one, and then the affine map.
pub fn sub_byte(b: u8) -> u8
    ensures value { result ≡ sub_byte b }
    ensures inverse { Inverse b (inverse b) }
{
    SBOX[b as usize]
}

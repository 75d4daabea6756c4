// Multiplication by a fixed block in GF(2^128) (SP 800-38D, section 6.3), by 32 rows of 16 products.
#![tactic(auto)]

ghost use Rattle.std.specs.Prelude.{◌≡◌};
ghost use Rattle.ghash.specs.Field.{product};
ghost use Rattle.ghash.specs.Table.{Products};

mod rows;

use rows::products;

// The products of a block h with each nibble at each of its 32 places, a row for each place: 8 KiB.
#[derive(Drop)]
pub struct Multiplier {
    h: u128,
    rows: [[u128; 16]; 32],
    ghost holds: { Products h rows },
}

impl Multiplier {
    pub fn new(h: u128) -> Multiplier
        ensures { result.h ≡ h }
    {
        let rows = products(h);
        Multiplier { h, rows }
    }

    // The product of y and h: the sum of the products of each nibble of y, the lowest first, whose place is the last.
    pub fn times(&self, y: u128) -> u128
        ensures { result ≡ product y self.now.h }
    {
        let mut z = 0u128;
        let mut rest = y;
        for row in self.rows.iter().rev() {
            z ^= row[(rest & 15) as usize];
            rest >>= 4;
        }
        z
    }
}

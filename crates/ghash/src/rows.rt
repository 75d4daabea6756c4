// The products of a block with each nibble at each place.
ghost use Rattle.std.specs.Prelude.{◌≡◌};
ghost use Rattle.ghash.specs.Field.{halve, halves, pick, partial};
ghost use Rattle.ghash.specs.Table.{IsRow, Products};

use std::array;

fn halve_block(v: u128) -> u128
    ensures { result ≡ halve v }
{
    if v % 2 == 0 {
        v / 2
    } else {
        (v / 2) ^ (225 << 120)
    }
}

fn pick_block(b: usize, v: u128) -> u128
    ensures { result ≡ pick b v }
{
    if b == 0 { 0 } else { v }
}

// The sum of v and its next three over the bits of n that are set.
fn nibble_product(n: usize, v: u128) -> u128
    ensures { result ≡ partial 4 n v }
{
    let v1 = halve_block(v);
    let v2 = halve_block(v1);
    let v3 = halve_block(v2);
    pick_block(n / 8 % 2, v)
        ^ (pick_block(n / 4 % 2, v1) ^ (pick_block(n / 2 % 2, v2) ^ pick_block(n % 2, v3)))
}

fn four_on(v: u128) -> u128
    ensures { result ≡ halves 4 v }
{
    halve_block(halve_block(halve_block(halve_block(v))))
}

// The products of v with each nibble.
fn row(v: u128) -> [u128; 16]
    ensures { IsRow v result }
{
    array::from_fn(|n| nibble_product(n, v))
}

pub(crate) fn products(h: u128) -> [[u128; 16]; 32]
    ensures { Products h result }
{
    let mut rows = [[0u128; 16]; 32];
    let mut v = h;
    for place in rows.iter_mut() {
        *place = row(v);
        v = four_on(v);
    }
    rows
}

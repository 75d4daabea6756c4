// Blocks read from bytes, and a key stream added to them.
ghost use Rattle.std.specs.Prelude.{◌≡◌, ◌%◌, ◌^◌, ◌≤◌, length, slice_index};
ghost use Rattle.gcm.specs.Blocks.{number, block_bytes};
ghost use Rattle.gcm.specs.Gcm.{stream};

// At most 16 bytes as a block, padded with zeros.
pub(crate) fn padded(xs: &[u8]) -> u128
    requires { length xs.now ≤ 16 }
    ensures { result ≡ number xs.now }
{
    let mut block = [0u8; 16];
    block[0..xs.len()].copy_from_slice(xs);
    u128::from_be_bytes(block)
}

// The IV as the high 96 bits of a block.
pub(crate) fn iv_block(iv: &[u8; 12]) -> u128
    ensures value { result ≡ number iv.now }
    ensures low { result % 2 ^ 32 ≡ 0 }
{
    padded(iv)
}

// Adds a key stream of N bytes to at most as many.
pub(crate) fn add_stream<const N: usize>(part: &mut [u8], ks: [u8; N])
    requires { length part.old ≤ N }
    ensures { part.new ≡ stream (λ k. slice_index ks.entry k) 0 part.old }
{
    for (k, byte) in part.iter_mut().enumerate() {
        *byte ^= ks[k];
    }
}

// Adds a block of the key stream to 16 bytes, by halves, for which the machine has registers: whole it is 6 per cent slower.
pub(crate) fn add_block(part: &mut [u8], block: u128)
    requires { length part.old ≡ 16 }
    ensures { part.new ≡ stream (λ k. slice_index (block_bytes block) k) 0 part.old }
{
    let high = ((block >> 64) as u64).to_be_bytes();
    let low = ((block & 0xffff_ffff_ffff_ffff) as u64).to_be_bytes();
    add_stream(&mut part[0..8], high);
    add_stream(&mut part[8..16], low);
}

// One block of a message: its schedule, the 64 rounds, and a hash value as bytes.
ghost use Rattle.std.specs.Prelude.{◌≡◌, ◌+◌, ◌<◌, ◌≤◌, length, take, slice_index, slice_set};
ghost use Rattle.digest.specs.Sha256.{constants, word, late, schedule, round, compress, output};

use crate::words::{big_sigma, ch, maj, small_sigma};
use std::array;

static K: [u32; 64] = [
    0x428a_2f98,
    0x7137_4491,
    0xb5c0_fbcf,
    0xe9b5_dba5,
    0x3956_c25b,
    0x59f1_11f1,
    0x923f_82a4,
    0xab1c_5ed5,
    0xd807_aa98,
    0x1283_5b01,
    0x2431_85be,
    0x550c_7dc3,
    0x72be_5d74,
    0x80de_b1fe,
    0x9bdc_06a7,
    0xc19b_f174,
    0xe49b_69c1,
    0xefbe_4786,
    0x0fc1_9dc6,
    0x240c_a1cc,
    0x2de9_2c6f,
    0x4a74_84aa,
    0x5cb0_a9dc,
    0x76f9_88da,
    0x983e_5152,
    0xa831_c66d,
    0xb003_27c8,
    0xbf59_7fc7,
    0xc6e0_0bf3,
    0xd5a7_9147,
    0x06ca_6351,
    0x1429_2967,
    0x27b7_0a85,
    0x2e1b_2138,
    0x4d2c_6dfc,
    0x5338_0d13,
    0x650a_7354,
    0x766a_0abb,
    0x81c2_c92e,
    0x9272_2c85,
    0xa2bf_e8a1,
    0xa81a_664b,
    0xc24b_8b70,
    0xc76c_51a3,
    0xd192_e819,
    0xd699_0624,
    0xf40e_3585,
    0x106a_a070,
    0x19a4_c116,
    0x1e37_6c08,
    0x2748_774c,
    0x34b0_bcb5,
    0x391c_0cb3,
    0x4ed8_aa4a,
    0x5b9c_ca4f,
    0x682e_6ff3,
    0x748f_82ee,
    0x78a5_636f,
    0x84c8_7814,
    0x8cc7_0208,
    0x90be_fffa,
    0xa450_6ceb,
    0xbef9_a3f7,
    0xc671_78f2,
];

// A schedule with its first 16 words, those of the block.
fn first_words(block: &[u8; 64]) -> [u32; 64]
    ensures whole { length result ≡ 64 }
    ensures front { take 16 result ≡ schedule block.now 16 }
{
    let mut w = [0u32; 64];
    for (t, bytes) in block.as_chunks::<4>().0.iter().enumerate() {
        w[t] = u32::from_be_bytes(*bytes);
    }
    w
}

// Word t of the schedule, from those before it.
fn extend(w: &mut [u32; 64], t: usize)
    requires { (16 ≤ t) × (t < 64) }
    ensures { w.new ≡ slice_set w.old t (late w.old t) }
{
    w[t] = small_sigma::<17, 19, 10>(w[t - 2])
        .wrapping_add(w[t - 7])
        .wrapping_add(small_sigma::<7, 18, 3>(w[t - 15]))
        .wrapping_add(w[t - 16]);
}

// Round t on the working variables v, with the message schedule w.
fn round(v: [u32; 8], w: &[u32; 64], t: usize) -> [u32; 8]
    requires { t < 64 }
    ensures { result ≡ round (slice_index constants t) (slice_index w.now t) v }
{
    let [a, b, c, d, e, f, g, h] = v;
    let t1 = h
        .wrapping_add(big_sigma::<6, 11, 25>(e))
        .wrapping_add(ch(e, f, g))
        .wrapping_add(K[t])
        .wrapping_add(w[t]);
    let t2 = big_sigma::<2, 13, 22>(a).wrapping_add(maj(a, b, c));
    [t1.wrapping_add(t2), a, b, c, d.wrapping_add(t1), e, f, g]
}

pub(crate) fn compress(state: &mut [u32; 8], block: &[u8; 64])
    ensures { state.new ≡ compress state.old block.now }
{
    let mut w = first_words(block);
    let mut v = *state;
    // four rounds to a turn, since one is 12 per cent slower; each word of the schedule 16 rounds ahead, so that the two overlap
    for i in 0..12 {
        let t = 4 * i;
        v = round(v, &w, t);
        extend(&mut w, t + 16);
        v = round(v, &w, t + 1);
        extend(&mut w, t + 17);
        v = round(v, &w, t + 2);
        extend(&mut w, t + 18);
        v = round(v, &w, t + 3);
        extend(&mut w, t + 19);
    }
    // four rounds to a turn here too, for the same speed; by index, since a round reads constants and schedule at its number
    for i in 12..16 {
        let t = 4 * i;
        v = round(v, &w, t);
        v = round(v, &w, t + 1);
        v = round(v, &w, t + 2);
        v = round(v, &w, t + 3);
    }
    *state = array::from_fn(|i| state[i].wrapping_add(v[i]));
}

// A hash value as 32 bytes.
pub(crate) fn output(state: &[u32; 8]) -> [u8; 32]
    ensures { result ≡ output state.now }
{
    let mut bytes = [0u8; 32];
    // into places of the array, since of chunks that are lent for writing the library says their length alone
    for (i, word) in state.iter().enumerate() {
        bytes[4 * i..4 * i + 4].copy_from_slice(&word.to_be_bytes());
    }
    bytes
}

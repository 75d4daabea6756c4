// The expansion of a key of 32 bytes into 60 words.
ghost use Rattle.std.specs.Prelude.{◌≡◌, ◌<◌};
ghost use Rattle.aes.specs.Words.{schedule, temp, sub_word, rot_word};

use sbox::sub_byte;

fn sub_word(w: u32) -> u32
    ensures { result ≡ sub_word w }
{
    let [a, b, c, d] = w.to_be_bytes();
    u32::from_be_bytes([sub_byte(a), sub_byte(b), sub_byte(c), sub_byte(d)])
}

fn rot_word(w: u32) -> u32
    ensures { result ≡ rot_word w }
{
    let [a, b, c, d] = w.to_be_bytes();
    u32::from_be_bytes([b, c, d, a])
}

// What is added to the word eight places back, where t is the word before.
fn carried(i: usize, t: u32) -> u32
    requires { i < 60 }
    ensures { result ≡ temp i t }
{
    if i % 8 == 0 {
        sub_word(rot_word(t)) ^ (1u32 << (23 + i / 8))
    } else if i % 8 == 4 {
        sub_word(t)
    } else {
        t
    }
}

pub(crate) fn expanded(key: &[u8; 32]) -> [u32; 60]
    ensures { result ≡ schedule key.now }
{
    let mut words = [0u32; 60];
    for (i, bytes) in key.as_chunks::<4>().0.iter().enumerate() {
        words[i] = u32::from_be_bytes(*bytes);
    }
    // by index, since a word comes of two that stand before it in the same array
    for j in 8..60 {
        words[j] = words[j - 8] ^ carried(j, words[j - 1]);
    }
    words
}

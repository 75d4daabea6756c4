// A block between two rounds.
ghost use Rattle.std.specs.Prelude.{◌≡◌, [], ◌∷◌, bit_xor};
ghost use Rattle.aes.specs.Cipher.{add_round_key, last_round, load, mix_column, mix_columns, rounds, shift_rows, shifted, store, sub_bytes};
ghost use Rattle.aes.specs.Words.{byte0, byte1, byte2, byte3, sub_word};

use crate::mixed::mixed;
use sbox::sub_byte;

// Its four columns, by name: each column of a round takes from all four in turn, which no index says more plainly.
#[derive(Clone, Copy)]
pub struct State {
    c0: u32,
    c1: u32,
    c2: u32,
    c3: u32,
}

// The bytes of a column whose rows moved: one of each of four columns.
fn shifted(a: u32, b: u32, c: u32, d: u32) -> [u8; 4]
    ensures { result ≡ byte0 a ∷ byte1 b ∷ byte2 c ∷ byte3 d ∷ [] }
{
    let [p, _, _, _] = a.to_be_bytes();
    let [_, q, _, _] = b.to_be_bytes();
    let [_, _, r, _] = c.to_be_bytes();
    let [_, _, _, s] = d.to_be_bytes();
    [p, q, r, s]
}

// One column of a round: the mixed bytes, each turned to its row, and the round key.
fn column(a: u32, b: u32, c: u32, d: u32, k: u32) -> u32
    ensures { result ≡ bit_xor (mix_column (shifted (sub_word a) (sub_word b) (sub_word c) (sub_word d))) k }
{
    let [p, q, r, s] = shifted(a, b, c, d);
    mixed(p) ^ mixed(q).rotate_right(8) ^ mixed(r).rotate_right(16) ^ mixed(s).rotate_right(24) ^ k
}

// One column of the last round, which does not mix.
fn last_column(a: u32, b: u32, c: u32, d: u32, k: u32) -> u32
    ensures { result ≡ bit_xor (shifted (sub_word a) (sub_word b) (sub_word c) (sub_word d)) k }
{
    let [p, q, r, s] = shifted(a, b, c, d);
    u32::from_be_bytes([sub_byte(p), sub_byte(q), sub_byte(r), sub_byte(s)]) ^ k
}

// A round that mixes, with its own round key.
fn one_round(key: &[u32; 4], s: State) -> State
    ensures { result ≡ add_round_key key.now 0 (mix_columns (shift_rows (sub_bytes s))) }
{
    State {
        c0: column(s.c0, s.c1, s.c2, s.c3, key[0]),
        c1: column(s.c1, s.c2, s.c3, s.c0, key[1]),
        c2: column(s.c2, s.c3, s.c0, s.c1, key[2]),
        c3: column(s.c3, s.c0, s.c1, s.c2, key[3]),
    }
}

// The block as a state, with the first round key.
pub(crate) fn begun(words: &[u32; 60], block: u128) -> State
    ensures { result ≡ add_round_key words.now 0 (load block) }
{
    State {
        c0: (block >> 96) as u32 ^ words[0],
        c1: ((block >> 64) & 0xffff_ffff) as u32 ^ words[1],
        c2: ((block >> 32) & 0xffff_ffff) as u32 ^ words[2],
        c3: (block & 0xffff_ffff) as u32 ^ words[3],
    }
}

// The 13 rounds that mix.
pub(crate) fn mixing_rounds(words: &[u32; 60], s: State) -> State
    ensures { result ≡ rounds words.now 13 s }
{
    let (keys, _) = words.as_chunks::<4>();
    keys[1..14].iter().fold(s, |t, key| one_round(key, t))
}

// Not one function with the rounds that mix: a column as a parameter would need its contract said there once more.
pub(crate) fn last_round(words: &[u32; 60], s: State) -> State
    ensures { result ≡ last_round words.now s }
{
    State {
        c0: last_column(s.c0, s.c1, s.c2, s.c3, words[56]),
        c1: last_column(s.c1, s.c2, s.c3, s.c0, words[57]),
        c2: last_column(s.c2, s.c3, s.c0, s.c1, words[58]),
        c3: last_column(s.c3, s.c0, s.c1, s.c2, words[59]),
    }
}

// The state as a block.
pub(crate) fn joined(s: State) -> u128
    ensures { result ≡ store s }
{
    (s.c0 as u128) << 96 | (s.c1 as u128) << 64 | (s.c2 as u128) << 32 | s.c3 as u128
}

// What a word of a line says.
ghost use Rattle.std.specs.Prelude.{◌≡◌, ◌⊎◌, IfOk, IfErr, Ok, Err};
ghost use Rattle.cases.specs.Hex.{digit, pair, decoded, worded, exactly};
ghost use Rattle.cases.specs.declared.fault.Fault.TheVariants.{Memory, Number};
ghost use Rattle.std.specs.Str.Parse.{ParsesUnsigned};

use crate::fault::Fault;
use std::alloc::Global;

// Not the one of `numerals`, whose `digit` takes a character: the crate of all case programs would stand on one of texts for three lines.
fn digit(b: u8) -> Option<u8>
    ensures { result ≡ digit b }
{
    match b {
        b'0'..=b'9' => Some(b - b'0'),
        b'a'..=b'f' => Some(b - b'a' + 10),
        _ => None,
    }
}

fn byte(high: u8, low: u8) -> Result<u8, Fault>
    ensures { result ≡ pair high low }
{
    let high = digit(high).ok_or(Fault::Digit(high))?;
    let low = digit(low).ok_or(Fault::Digit(low))?;
    Ok(16 * high + low)
}

fn decoded(heap: Global, digits: &[u8]) -> Result<Vec<u8>, Fault>
    ensures bytes { IfOk result (λ v. decoded digits.now ≡ Ok v.items) }
    ensures fault { IfErr result (λ e. (e ≡ Memory) ⊎ (decoded digits.now ≡ Err e)) }
{
    let mut out = Vec::new(heap);
    for pair in digits.chunks(2) {
        let [high, low] = pair else {
            return Err(Fault::Odd);
        };
        out.push(byte(*high, *low)?)?;
    }
    Ok(out)
}

// Bytes in lower-case hexadecimal, the empty string as `-`.
pub fn bytes(heap: Global, word: &str) -> Result<Vec<u8>, Fault>
    ensures bytes { IfOk result (λ v. worded word.now ≡ Ok v.items) }
    ensures fault { IfErr result (λ e. (e ≡ Memory) ⊎ (worded word.now ≡ Err e)) }
{
    match word.as_bytes() {
        [] => Err(Fault::Empty),
        b"-" => Ok(Vec::new(heap)),
        digits => decoded(heap, digits),
    }
}

// Exactly N bytes.
pub fn array<const N: usize>(heap: Global, word: &str) -> Result<[u8; N], Fault>
    ensures bytes { IfOk result (λ a. exactly N (worded word.now) ≡ Ok a) }
    ensures fault { IfErr result (λ e. (e ≡ Memory) ⊎ (exactly N (worded word.now) ≡ Err e)) }
{
    <[u8; N]>::try_from(bytes(heap, word)?.as_slice()).or(Err(Fault::Length(N)))
}

// A decimal number, which a plus may begin.
pub fn number(word: &str) -> Result<u32, Fault>
    ensures value { ParsesUnsigned 32 10 word.now result }
    ensures fault { IfErr result (λ e. e ≡ Number) }
{
    word.parse().map_err(|_| Fault::Number)
}

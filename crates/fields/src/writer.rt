// A text written from its fields.
ghost use Rattle.std.specs.Prelude.{◌≡◌, ℕ, ◌+◌, ◌≤◌, Bool, leb, List, ◌∷◌, ◌++◌, length, take, drop, if◌then◌else◌, Some, None};
ghost use Rattle.octets.specs.Fronts.{at_front};
ghost use Rattle.fields.specs.Cuts.{joined, unbroken, all_unbroken};
ghost use Rattle.fields.specs.Takes.{lists, writing, buffer_after};

use crate::refusal::TextRefusal;

fn is_unbroken(field: &[u8]) -> bool
    ensures { result ≡ unbroken field.now }
{
    !field.contains(&10)
}

fn all_unbroken(fields: &[&[u8]]) -> bool
    ensures { result ≡ all_unbroken (lists fields.now) }
{
    fields.iter().all(|field| is_unbroken(field))
}

// The length of the text, where it is not over `most`.
fn joined_length(fields: &[&[u8]], most: usize) -> Option<usize>
    ensures { result ≡ (if leb (length (joined (lists fields.now))) most then Some (length (joined (lists fields.now))) else None) }
{
    let [first, rest @ ..] = fields else {
        return Some(0);
    };
    let mut left = most.checked_sub(first.len())?;
    for field in rest {
        left = left.checked_sub(field.len())?.checked_sub(1)?;
    }
    Some(most - left)
}

// Byte 10 and then a field, from a place on; answers where it ends.
fn lead(field: &[u8], at: usize, out: &mut [u8]) -> usize
    requires { at + 1 + length field.now ≤ length out.old }
    ensures value { result ≡ at + 1 + length field.now }
    ensures output { out.new ≡ take at out.old ++ (10 ∷ (field.now ++ drop (at + 1 + length field.now) out.old)) }
{
    let start = at + 1;
    let end = start + field.len();
    out[at] = 10;
    out[start..end].copy_from_slice(field);
    end
}

// The text at the front of the output, which has room for it.
fn lay(fields: &[&[u8]], out: &mut [u8])
    requires { length (joined (lists fields.now)) ≤ length out.old }
    ensures { out.new ≡ at_front (joined (lists fields.now)) out.old }
{
    let [first, rest @ ..] = fields else {
        return;
    };
    let mut at = first.len();
    out[..at].copy_from_slice(first);
    for field in rest {
        at = lead(field, at, out);
    }
}

// Writes a text of these fields at the front of the output, and answers its length. Refusals 3 and 5 leave the output untouched;
// `formed` tells whether the fields are well-formed: a truth and no refusal yet, since the room is judged before it.
// Part of its callers, which know how many fields there are.
#[inline(always)]
pub fn write_fields(fields: &[&[u8]], formed: bool, out: &mut [u8]) -> Result<usize, TextRefusal>
    ensures answer { result ≡ writing (lists fields.now) formed (length out.old) }
    ensures output { out.new ≡ buffer_after (lists fields.now) formed out.old }
{
    let size = joined_length(fields, out.len()).ok_or(TextRefusal::Buffer)?;
    if !(formed && all_unbroken(fields) && size <= 4096) {
        return Err(TextRefusal::Form);
    }
    lay(fields, out);
    Ok(size)
}

// What has a text.
pub trait WriteText {
    // The fields of its text, and whether they are well-formed.
    ghost fields: { Self → List (List ℕ) };

    ghost formed: { Self → Bool };

    // Writes its text at the front of the output, and answers its length: refusals 3 and 5 leave the output untouched.
    fn write(&self, out: &mut [u8]) -> Result<usize, TextRefusal>
        ensures answer { result ≡ writing (fields self.now) (formed self.now) (length out.old) }
        ensures output { out.new ≡ buffer_after (fields self.now) (formed self.now) out.old };
}

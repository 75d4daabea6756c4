// Equality by the differences of all bytes, gathered in one.
ghost use Rattle.std.specs.Prelude.{◌≡◌, Decides};
ghost use Rattle.octets.specs.Equality.{same};

// Whether two lists of bytes are equal. Where they are equally long every byte of both is read, whatever they hold.
pub fn equal(a: &[u8], b: &[u8]) -> bool
    ensures value { result ≡ same a.now b.now }
    ensures law { Decides result (a.now ≡ b.now) }
{
    if a.len() != b.len() {
        return false;
    }
    a.iter()
        .zip(b)
        .fold(0, |difference, (x, y)| difference | (x ^ y))
        == 0
}

// The header of a message, taken apart and put together.
ghost use Rattle.std.specs.Prelude.{◌≡◌};
ghost use Rattle.headers.specs.Headers.{headed, header_bytes, length_fits};

use kinds::{Kind, MessageRefusal};

#[derive(Clone, Copy, PartialEq, Eq, Debug)]
pub struct Header {
    // a number and no kind: a code of no kind passes here, and fails at the type check
    pub code: u16,
    pub length: u16,
    pub number: u16,
    pub random: [u8; 6],
}

// 28 to 4,124 bytes, a log-in request, which is told by its code alone, at least 135, and as many as the field says.
fn length_fits(size: usize, code: u16, told: u16) -> bool
    ensures { result ≡ length_fits size code told }
{
    (28..=4124).contains(&size)
        && told as usize == size
        && (code != Kind::LogIn.code() || size >= 135)
}

impl Header {
    // A message's header: refusals 7, 8, 9.
    pub fn read(message: &[u8]) -> Result<Header, MessageRefusal>
        ensures { result ≡ headed message.now }
    {
        let size = message.len();
        let [
            v0,
            v1,
            t0,
            t1,
            l0,
            l1,
            n0,
            n1,
            r0,
            r1,
            r2,
            r3,
            r4,
            r5,
            z0,
            z1,
            _rest @ ..,
        ] = message
        else {
            return Err(MessageRefusal::Length);
        };
        let code = u16::from_be_bytes([*t0, *t1]);
        let told = u16::from_be_bytes([*l0, *l1]);
        let number = u16::from_be_bytes([*n0, *n1]);
        if !length_fits(size, code, told) {
            return Err(MessageRefusal::Length);
        }
        if *v0 != 1 || *v1 != 1 {
            return Err(MessageRefusal::Version);
        }
        if *z0 != 0 || *z1 != 0 {
            return Err(MessageRefusal::Reserved);
        }
        Ok(Header {
            code,
            length: told,
            number,
            random: [*r0, *r1, *r2, *r3, *r4, *r5],
        })
    }

    // Its 16 bytes.
    pub fn write(&self) -> [u8; 16]
        ensures { result ≡ header_bytes self.now }
    {
        let [t0, t1] = self.code.to_be_bytes();
        let [l0, l1] = self.length.to_be_bytes();
        let [n0, n1] = self.number.to_be_bytes();
        let [r0, r1, r2, r3, r4, r5] = self.random;
        [1, 1, t0, t1, l0, l1, n0, n1, r0, r1, r2, r3, r4, r5, 0, 0]
    }
}

// Why a message is not written or not accepted.
ghost use Rattle.std.specs.Prelude.{◌≡◌};
ghost use Rattle.kinds.specs.Refusals.{number};

// By the numbers under which both ends give them.
#[derive(Clone, Copy, PartialEq, Eq, Debug)]
pub enum MessageRefusal {
    // a lent buffer is too small
    Buffer = 3,
    // the payload does not fit one message
    Payload = 5,
    // the length is out of bounds, or not as the field says
    Length = 7,
    Version = 8,
    // bytes 14 and 15 are not zero
    Reserved = 9,
    // the type is not expected now
    Unexpected = 10,
    // the number is not acceptable
    Number = 11,
    // the seal does not open
    Unopened = 12,
}

impl MessageRefusal {
    // The number under which both ends give this refusal.
    pub fn number(&self) -> u8
        ensures { result ≡ number self.now }
    {
        *self as u8
    }
}

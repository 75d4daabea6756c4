// The law of a message's length.
ghost use Rattle.message.specs.Lengths.{LengthOfAMessage, LengthsWorked};

// A message is as long as header, payload, tag and what follows; "ready" makes 33 bytes, 93 make 121.
pub fn lengths()
    ensures law { LengthOfAMessage }
    ensures worked { LengthsWorked }
{}

// The law of the codes.
ghost use Rattle.kinds.specs.Kinds.{CodesTellKinds};

// Each kind's code is of that kind, and a code that is of a kind is that kind's.
pub fn codes_tell_kinds()
    ensures { CodesTellKinds }
{}

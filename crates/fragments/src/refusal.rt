// Why a fragment is refused.
ghost use Rattle.std.specs.Prelude.{◌≡◌};
ghost use Rattle.fragments.specs.Refusals.{number};

// Each has the number under which both ends give it.
#[derive(Clone, Copy, PartialEq, Eq, Debug)]
pub enum FragmentRefusal {
    // its size breaks the rule
    SizeRule = 18,
    // with this last fragment, the file's digest is not the announced one
    Digest = 19,
}

impl FragmentRefusal {
    // Its number.
    pub fn number(&self) -> u8
        ensures { result ≡ number self.now }
    {
        *self as u8
    }
}

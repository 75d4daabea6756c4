// What is written is read back, and nothing else is read.
ghost use Rattle.numerals.specs.Laws.{DecimalsReadBack, DigestsReadBack, Worked};

// Decimals are read as they are written, and no other text is read.
pub fn decimals_read_back()
    ensures { DecimalsReadBack }
{}

// Digests are read as they are shown, and no other text is read.
pub fn digests_read_back()
    ensures { DigestsReadBack }
{}

// Worked values.
pub fn numerals_worked()
    ensures { Worked }
{}

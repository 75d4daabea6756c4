// The law of the causes.
ghost use Rattle.causes.specs.Causes.{NumbersTellCauses, WordsTellCauses, WordsUnbroken};

// A cause's number and its words are of that cause alone, and no words hold byte 10.
pub fn causes_told()
    ensures numbers { NumbersTellCauses }
    ensures words { WordsTellCauses }
    ensures unbroken { WordsUnbroken }
{}

// The law of the words.
ghost use Rattle.words.specs.Words.{WordsTold};

// A word's text is read as that word, and a field that is read as a word is its text.
pub fn words_told()
    ensures { WordsTold }
{}

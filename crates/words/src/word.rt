// The words of the seven commands.
ghost use Rattle.std.specs.Prelude.{◌≡◌};
ghost use Rattle.words.specs.Words.{word_text, word_of, word_read};

use octets::equal;

#[derive(Clone, Copy, PartialEq, Eq, Debug)]
pub enum Word {
    Pwd,
    Lst,
    Chd,
    Mkd,
    Del,
    Upl,
    Dnl,
}

// A field that is no word.
#[derive(Clone, Copy, PartialEq, Eq, Debug)]
pub struct UnknownWord;

impl Word {
    const ALL: [Word; 7] = [
        Word::Pwd,
        Word::Lst,
        Word::Chd,
        Word::Mkd,
        Word::Del,
        Word::Upl,
        Word::Dnl,
    ];

    // Its three characters, as the bytes of a field, since nothing is printed here.
    pub fn text(self) -> &'static [u8]
        ensures { result.now ≡ word_text self }
    {
        match self {
            Word::Pwd => b"pwd",
            Word::Lst => b"lst",
            Word::Chd => b"chd",
            Word::Mkd => b"mkd",
            Word::Del => b"del",
            Word::Upl => b"upl",
            Word::Dnl => b"dnl",
        }
    }
}

// The word whose text a field is: by the chain that finds a cause too, which is shorter than a trait that both could share.
fn word_of(field: &[u8]) -> Option<Word>
    ensures { result ≡ word_of field.now }
{
    Word::ALL
        .iter()
        .copied()
        .find(|word| equal(field, word.text()))
}

// The word that a field is.
impl TryFrom<&[u8]> for Word {
    type Error = UnknownWord;

    ghost try_from_gives = { λ f r. r ≡ word_read f.now };

    fn try_from(field: &[u8]) -> Result<Word, UnknownWord> {
        word_of(field).ok_or(UnknownWord)
    }
}

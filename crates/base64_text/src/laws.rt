// The laws of encoding and decoding, and worked texts.
ghost use Rattle.base64_text.specs.Laws.{DecodesWhatWasEncoded, EncodingOfWhatItDecodesTo, Alphabet, WorkedTexts};

// Decoding what was encoded gives the bytes back.
pub fn decodes_what_was_encoded()
    ensures { DecodesWhatWasEncoded }
{}

// Encoding what a text decodes to gives the text back.
pub fn encoding_of_what_it_decodes_to()
    ensures { EncodingOfWhatItDecodesTo }
{}

// The alphabet in its order, and the texts of some bytes.
pub fn worked_texts()
    ensures alphabet { Alphabet }
    ensures texts { WorkedTexts }
{}

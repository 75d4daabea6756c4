// The laws of authenticated encryption.
ghost use Rattle.gcm.specs.Gcm.{DecryptsWhatWasEncrypted, LengthsKept};

// Decryption gives back, under the same IV and additional data, what was encrypted.
pub fn decrypts_what_was_encrypted()
    ensures { DecryptsWhatWasEncrypted }
{}

// A body is as long as its text, and a tag has 12 bytes.
pub fn lengths_kept()
    ensures { LengthsKept }
{}

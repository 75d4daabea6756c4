// The laws of reading and writing a header.
ghost use Rattle.headers.specs.Headers.{ReadsWhatWasWritten, WritesWhatWasRead};

// Reading what was written gives it back.
pub fn reads_what_was_written()
    ensures { ReadsWhatWasWritten }
{}

// A header that is read and written again is the same bytes.
pub fn writes_what_was_read()
    ensures { WritesWhatWasRead }
{}

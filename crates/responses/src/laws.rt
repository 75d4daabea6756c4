// The law of responses.
ghost use Rattle.responses.specs.Replies.{ResponsesReadBack};

// Exactly the texts of responses are read as responses.
pub fn responses_read_back()
    ensures { ResponsesReadBack }
{}

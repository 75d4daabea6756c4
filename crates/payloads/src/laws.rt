// What is written is read back, and nothing else is read.
ghost use Rattle.payloads.specs.Laws.{LogInsReadBack, AnswersReadBack, ReceiptsReadBack, SignalsReadBack, Worked};

// A log-in is read back from its text, and no other text is read.
pub fn log_ins_read_back()
    ensures { LogInsReadBack }
{}

// A log-in response is read back from its text, and no other text is read.
pub fn log_in_responses_read_back()
    ensures { AnswersReadBack }
{}

// An upload response is read back from its text, and no other text is read.
pub fn upload_responses_read_back()
    ensures { ReceiptsReadBack }
{}

// A go-ahead is read back from its text, and no other text is read.
pub fn go_aheads_read_back()
    ensures { SignalsReadBack }
{}

// Worked examples.
pub fn payloads_worked()
    ensures { Worked }
{}

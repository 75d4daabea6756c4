// The payloads besides commands: log-ins, responses and go-aheads, read from their texts and written as them.
#![tactic(auto)]

mod go_ahead;
mod laws;
mod log_in;
mod log_in_response;
mod upload_response;
mod writer;

pub use go_ahead::GoAhead;
pub use laws::{
    go_aheads_read_back, log_in_responses_read_back, log_ins_read_back, payloads_worked,
    upload_responses_read_back,
};
pub use log_in::LogIn;
pub use log_in_response::LogInResponse;
pub use upload_response::UploadResponse;

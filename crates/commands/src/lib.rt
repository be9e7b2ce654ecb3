// The program's commands: words in, text out.
#![tactic(auto)]

mod dispatch;
mod ledger;
mod minute;
mod mistakes;
mod requests;

pub use dispatch::run;
pub use ledger::{Entry, Posting, Refusal, out_and_back};
pub use minute::Statement;
pub use mistakes::{CommandError, Misuse};
pub use requests::{MinuteRequest, minute_request};

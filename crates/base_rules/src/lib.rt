// The two base rules, plain and backlog, and the programmes that find their least cost.
#![tactic(auto)]

mod causes;
mod kinds;
mod problem;
mod rules;

pub use causes::{Cause, UnknownCause};
pub use kinds::Kind;
pub use rules::BaseRule;

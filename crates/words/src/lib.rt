// Reading the words of a command: the numbers that they write, each word in turn, and why a command was not carried out.
#![tactic(auto)]

mod errors;
mod figures;
mod firsts;
mod turns;

pub use errors::{CommandError, Mistake};
pub use figures::{Number, number_word};
pub use firsts::first_word;
pub use turns::read_each;

// The better of two entries: orders of entries, three kinds of entry, and the keeper of the best one offered.
#![tactic(auto)]

mod choices;
mod entries;
mod keeping;
mod ranks;
#[cfg(test)]
mod tests;

pub use choices::cheaper;
pub use entries::{Bound, Candidate, Cost};
pub use keeping::Best;
pub use ranks::Ranked;

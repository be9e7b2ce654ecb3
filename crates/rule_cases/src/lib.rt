// The base rules on cases that were worked out by hand.
#![tactic(auto)]

#[cfg(test)]
mod tests;

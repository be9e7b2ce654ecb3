// The verbs of an item run on cases that were worked out by hand or by other code.
#![tactic(auto)]

#[cfg(test)]
mod enumerated_tests;
#[cfg(test)]
mod item_tests;
#[cfg(test)]
mod tests;

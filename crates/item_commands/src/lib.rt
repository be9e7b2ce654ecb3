// The verbs that answer about one item: words in, text out.
#![tactic(auto)]

mod answers;
mod dispatch;
mod rules;

pub use dispatch::run_item;

// One item: its records and limits, the interface of an item rule, and what the least cost means.
#![tactic(auto)]

mod asking;
mod limits;
mod records;
mod refusals;
mod rules;
mod tables;

pub use asking::Item;
pub use limits::{MOST_AMOUNT, MOST_COST, MOST_ROWS, fits_rows, named_cost, named_verdict};
pub use records::{Fault, Header, Lot, Refusal, Row, Verdict};
pub use rules::ItemRule;
pub use tables::{Opened, RowTable};

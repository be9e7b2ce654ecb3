// Exact money: whole money, money in K-ths, the scale between them, and the account of priced time.
#![tactic(auto)]

mod account;
mod amounts;
mod limits;
mod priced;
#[cfg(test)]
mod tests;

pub use account::TimeAccount;
pub use amounts::{Amount, Kths, Money, OutOfRange, ScaledMoney, Whole};
pub use limits::{CapacityPrice, Minutes, Scale, Within};
pub use priced::PricedTime;

// Tests of rows, plans and costs against their limits.
ghost use Rattle.std.specs.Prelude.{◌≡◌, ◌&&◌, length, ◌==◌, nat_le};
ghost use Rattle.item.specs.Calls.{named, named_verdict};
ghost use Rattle.item.specs.Limits.{most_amount, row_within, amounts_up_to};

use crate::records::{Lot, Refusal, Row, Verdict};

// The most rows that a rule is told.
pub const MOST_ROWS: usize = 32;

// The largest amount of a plan that fits.
pub const MOST_AMOUNT: u32 = 3_200_000;

// The highest cost that a rule names.
pub const MOST_COST: u64 = 100_000_000_000_000_000;

impl Row {
    // Whether each number of the row is within its limit.
    pub fn is_within_limits(self) -> bool
        ensures { result ≡ row_within self }
    {
        self.setup <= 20_000_000_000
            && self.unit <= 200_000_000
            && self.hold <= 100_000_000
            && self.short <= 100_000_000
            && self.demand <= 100_000
    }
}

impl Lot {
    // Whether the amount is within its limit.
    pub fn is_within_limits(self) -> bool
        ensures { result ≡ nat_le self.amount most_amount }
    {
        self.amount <= MOST_AMOUNT
    }
}

// Whether a plan fits so many rows.
pub fn fits_rows(count: usize, plan: &[Lot]) -> bool
    ensures { result ≡ (length plan.now == count && amounts_up_to most_amount plan.now) }
{
    plan.len() == count && plan.iter().all(|lot| lot.is_within_limits())
}

// A cost, unless it is too high to be named.
pub fn named_cost(cost: u64) -> Result<u64, Refusal>
    ensures { result ≡ named cost }
{
    if cost <= MOST_COST {
        Ok(cost)
    } else {
        Err(Refusal::CostTooHigh)
    }
}

// A verdict, unless its cost is too high to be named.
pub fn named_verdict(verdict: Verdict) -> Result<Verdict, Refusal>
    ensures { result ≡ named_verdict verdict }
{
    if let Ok(cost) = verdict {
        named_cost(cost)?;
    }
    Ok(verdict)
}

// The verdict on a plan.
ghost use Rattle.std.specs.Prelude.{◌≡◌, ◌+◌, ◌≤◌, ◌<◌, true, length, drop, if◌then◌else◌, Err};
ghost use Rattle.item.specs.declared.records.Refusal.TheVariants.{PlanDoesNotFit};
ghost use Rattle.item.specs.Calls.{named_verdict};
ghost use Rattle.item.specs.Limits.{row_within, fits};
ghost use Rattle.base_rules.specs.Verdicts.{period_cost, may_owe, fault_of, verdict};

use crate::causes::Cause;
use crate::kinds::Kind;
use crate::problem::Problem;
use item::{Fault, Lot, Refusal, Row, Verdict, fits_rows, named_verdict};

// The fault of a period.
fn fault(cause: Cause, period: usize) -> Fault
    requires { period < 256 }
    ensures { result ≡ fault_of cause period }
{
    Fault {
        cause: cause.into(),
        period: period as u8,
        depth: 0,
    }
}

// What a period costs, all amounts so far and all demands so far being given.
fn period_cost(row: &Row, lot: &Lot, made: u64, demanded: u64) -> u64
    requires within { row_within row.now ≡ true }
    requires small { lot.now.amount ≤ 3200000 }
    requires low { made ≤ 102400000 }
    requires few { demanded ≤ 3200000 }
    ensures cost { result ≡ period_cost row.now lot.now made demanded }
    ensures low { result ≤ 12000000000000000 }
{
    let setup = if lot.setup { row.setup } else { 0 };
    let units = row.unit * u64::from(lot.amount);
    setup
        + units
        + row.hold * made.saturating_sub(demanded)
        + row.short * demanded.saturating_sub(made)
}

impl Problem<'_> {
    // Whether stock may be below zero after period t.
    pub(super) fn may_owe(&self, t: usize) -> bool
        ensures { result ≡ may_owe self.now.kind (drop (t + 1) self.now.rows.now) }
    {
        match self.kind {
            Kind::Plain => false,
            Kind::Backlog => t < self.rows.len().saturating_sub(1),
        }
    }

    // The cost of a plan that fits, or its first fault.
    fn verdict(&self, plan: &[Lot]) -> Verdict
        requires { fits self.now.rows.now plan.now ≡ true }
        ensures { result ≡ verdict self.now.kind self.now.rows.now plan.now }
    {
        let mut made = 0;
        let mut demanded = 0;
        let mut cost = 0;
        for (t, (row, lot)) in self.rows.iter().zip(plan).enumerate() {
            made += u64::from(lot.amount);
            demanded += u64::from(row.demand);
            if !lot.setup && lot.amount > 0 {
                return Err(fault(Cause::NoSetup, t));
            }
            if !self.may_owe(t) && made < demanded {
                return Err(fault(self.kind.shortage(), t));
            }
            cost += period_cost(row, lot, made, demanded);
        }
        Ok(cost)
    }

    // The verdict on a plan, unless the plan does not fit or costs too much to be named.
    pub(crate) fn weighed(&self, plan: &[Lot]) -> Result<Verdict, Refusal>
        ensures { result ≡ (if fits self.now.rows.now plan.now then named_verdict (verdict self.now.kind self.now.rows.now plan.now) else Err PlanDoesNotFit) }
    {
        if !fits_rows(self.rows.len(), plan) {
            return Err(Refusal::PlanDoesNotFit);
        }
        named_verdict(self.verdict(plan))
    }
}

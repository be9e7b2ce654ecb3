// The least cost of an item, from the last row back.
ghost use Rattle.std.specs.Prelude.{◌≡◌, ℕ, ◌+◌, ◌*◌, ◌^◌, ◌<◌, ◌≤◌, min, length, drop};
ghost use Rattle.base_rules.specs.Programme.{lot_or_wait, owed as owed_least, row_at, due, aged, cost_at};
ghost use Rattle.base_rules.specs.Verdicts.{may_owe};

use crate::problem::Problem;
use best::{Candidate, cheaper};
use item::MOST_ROWS;

// A candidate that makes no lot: 255 is no period, and comes after each of them.
const NO_LOT: Candidate = Candidate {
    cost: 0,
    period: 255,
};

// The turn of row t, on the way from the last row back.
#[derive(Clone, Copy)]
struct Turn<'a> {
    problem: Problem<'a>,
    t: usize,
    // Whether units owed at the end of the row may wait.
    may_wait: bool,
    ghost row: { t < length problem.rows.now },
    ghost waits: { may_wait ≡ may_owe problem.kind (drop (t + 1) problem.rows.now) },
}

impl Turn<'_> {
    // What n units owed at the end of the row come to: they are made in it, or they wait.
    fn made_or_waiting(&self, n: u64, fresh: u64, wait: Candidate) -> Candidate
        requires few { n ≤ 3200000 }
        requires fresh { fresh ≤ 2 ^ 61 }
        requires low { wait.cost ≤ 2 ^ 62 }
        ensures { let rows = self.now.problem.rows.now in let t = self.now.t in result.cost ≡ lot_or_wait (may_owe self.now.problem.kind (drop (t + 1) rows)) (row_at rows t) n fresh wait.cost }
    {
        let row = self.problem.rows[self.t];
        let make = Candidate {
            cost: row.setup + row.unit * n + fresh,
            period: self.t as u8,
        };
        // Asked apart from n, so that the loop of `owe` asks it once for all its places.
        if self.may_wait {
            let cost = row.short * n + wait.cost;
            cheaper(make, Candidate { cost, ..wait })
        } else if n == 0 {
            cheaper(make, wait)
        } else {
            make
        }
    }

    // For each start a of a block that it ends: owed[a] becomes what the units owed since a come to from t on.
    fn owe(&self, fresh: u64, owed: &mut [Candidate; MOST_ROWS])
        requires fresh { fresh ≤ 2 ^ 61 }
        requires each { (a : ℕ) → a ≤ self.now.t → cost_at owed.old a ≤ 2 ^ 62 }
        ensures { let rows = self.now.problem.rows.now in let t = self.now.t in (a : ℕ) → a ≤ t → cost_at owed.new a ≡ lot_or_wait (may_owe self.now.problem.kind (drop (t + 1) rows)) (row_at rows t) (due rows a (t + 1)) fresh (cost_at owed.old a) }
    {
        let mut n = 0;
        // By an index: the units add up from the last place back, and a proof knows nothing of what `iter_mut().rev()` wrote.
        for a in (0..self.t + 1).rev() {
            n += u64::from(self.problem.rows[a].demand);
            owed[a] = self.made_or_waiting(n, fresh, owed[a]);
        }
    }

    // What the rows from t on come to when lot s meets row t, its units held since: later is what the rows after t come to.
    fn kept(&self, s: usize, holding: u64, later: u64) -> Candidate
        requires lot { s < length self.now.problem.rows.now }
        requires few { holding ≤ 3200000000 }
        requires low { later ≤ 2 ^ 62 }
        ensures { let rows = self.now.problem.rows.now in let t = self.now.t in result.cost ≡ ((row_at rows s).unit + holding) * (row_at rows t).demand + later }
    {
        Candidate {
            cost: (self.problem.rows[s].unit + holding)
                * u64::from(self.problem.rows[self.t].demand)
                + later,
            period: s as u8,
        }
    }

    // For each earlier lot s: hand[s] becomes what the rows from t on come to when pieces of lot s are at hand.
    fn carry(&self, new: Candidate, hand: &mut [Candidate; MOST_ROWS])
        requires each { (s : ℕ) → s < self.now.t → cost_at hand.old s ≤ 2 ^ 62 }
        ensures { let rows = self.now.problem.rows.now in let t = self.now.t in (s : ℕ) → s < t → cost_at hand.new s ≡ min (aged rows s t * (row_at rows t).demand + cost_at hand.old s) new.cost }
    {
        let mut holding = 0;
        // By an index, as in `owe`: the hold prices add up the same way.
        for s in (0..self.t).rev() {
            holding += self.problem.rows[s].hold;
            hand[s] = cheaper(new, self.kept(s, holding, hand[s].cost));
        }
    }
}

impl Problem<'_> {
    // The least cost of all plans that fit and are admitted.
    pub(crate) fn least(&self) -> u64
        ensures { result ≡ owed_least self.now.kind 0 self.now.rows.now }
    {
        let mut hand = [NO_LOT; MOST_ROWS];
        let mut owed = [NO_LOT; MOST_ROWS];
        // By the period alone: a turn takes the tables whole, and there is nothing to go through beside it.
        for t in (0..self.rows.len()).rev() {
            let turn = Turn {
                problem: *self,
                t,
                may_wait: self.may_owe(t),
            };
            turn.owe(hand[t].cost, &mut owed);
            turn.carry(owed[t], &mut hand);
        }
        owed[0].cost
    }
}

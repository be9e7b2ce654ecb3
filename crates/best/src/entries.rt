// Three kinds of entry. Each one's order puts the better first.
ghost use Rattle.std.specs.Ordering.{flip_args, on, int_cmp, as_partial_cmp};
ghost use Rattle.std.specs.Cmp.{partial_order_from_own_ties};
ghost use Rattle.std.specs.Cmp.Rules.{comparing};
ghost use Rattle.std.proofs.Common.{rules};

use crate::ranks::Ranked;
use std::cmp::Ordering;

// A cost: the lower is the better.
#[derive(Clone, Copy, Debug, PartialEq, Eq, PartialOrd, Ord)]
pub struct Cost(pub u64);

// A bound from below: the higher is the better. Its order is written out, since a derive would put the lower first, and a
// `Reverse` inside would stand in each bound that a caller makes or reads.
#[derive(Clone, Copy, Debug, PartialEq, Eq)]
pub struct Bound(pub i64);

// A way to meet a demand in a lot-sizing programme: its cost, and of equal costs the period of making.
#[derive(Clone, Copy, Debug, Default, PartialEq, Eq, PartialOrd, Ord)]
pub struct Candidate {
    pub cost: u64,
    pub period: u8,
}

impl Ord for Bound {
    ghost cmp = { flip_args (on (λ b. b.0) int_cmp) };

    ghost total = { Prim.search (comparing, rules) };

    ghost matches_partial_cmp = { Prim.search (comparing, rules) };

    ghost matches_eq = { Prim.search (comparing, rules) };

    fn cmp(&self, other: &Bound) -> Ordering {
        other.0.cmp(&self.0)
    }
}

impl PartialOrd for Bound {
    ghost partial_cmp = { as_partial_cmp (flip_args (on (λ b. b.0) int_cmp)) };

    ghost laws = { partial_order_from_own_ties (Prim.search (comparing, rules)) (Prim.search (comparing, rules)) };

    fn partial_cmp(&self, other: &Bound) -> Option<Ordering> {
        Some(self.cmp(other))
    }
}

impl Ranked for Cost {
    ghost total = { Prim.search (comparing, rules) };
}

impl Ranked for Bound {
    ghost total = { Prim.search (comparing, rules) };
}

impl Ranked for Candidate {
    ghost total = { Prim.search (comparing, rules) };
}

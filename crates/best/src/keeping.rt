// The keeper of the best entry offered to it.
ghost use Rattle.std.specs.Prelude.{◌≡◌, Some, None};
ghost use Rattle.best.specs.Orders.{before, better, NoneBefore, Ranks, Puts, OnlySameTie, cost_first, bound_first, candidate_first};

use crate::entries::{Bound, Candidate, Cost};

#[derive(Drop)]
pub struct Best<E> {
    kept: Option<E>,
}

impl<E: Ord + Copy> Best<E> {
    // It keeps none yet. (The last four clauses are about the orders of three kinds of entry.)
    pub fn new() -> Best<E>
        ensures empty { result.kept ≡ None }
        ensures order { Ranks (before E.Ord.cmp) E.PartialEq.eq }
        ensures costs { Puts ⟦<Cost as Ord>⟧.cmp cost_first }
        ensures bounds { Puts ⟦<Bound as Ord>⟧.cmp bound_first }
        ensures candidates { Puts ⟦<Candidate as Ord>⟧.cmp candidate_first }
        ensures ties { OnlySameTie cost_first × OnlySameTie bound_first × OnlySameTie candidate_first }
    {
        Best { kept: None }
    }

    // Keeps the better of the kept entry and this one; at a tie the older one stays.
    pub fn offer(&mut self, e: E)
        ensures best { NoneBefore (before E.Ord.cmp) self.old.kept e }
        ensures keeps { self.new.kept ≡ Some (better (before E.Ord.cmp) self.old.kept e) }
    {
        self.kept = Some(self.kept.map_or(e, |old| old.min(e)));
    }

    pub fn best(&self) -> Option<E>
        ensures { result ≡ self.now.kept }
    {
        self.kept
    }
}

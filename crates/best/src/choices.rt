// The choice between two candidates of a lot-sizing programme.
ghost use Rattle.std.specs.Prelude.{◌≡◌, min, Some};
ghost use Rattle.best.specs.Orders.{better, candidate_first};

use crate::entries::Candidate;

// The cheaper one; at equal costs the one that is made earlier.
pub fn cheaper(a: Candidate, b: Candidate) -> Candidate
    ensures is { result ≡ better candidate_first (Some a) b }
    ensures cost { result.cost ≡ min a.cost b.cost }
{
    a.min(b)
}

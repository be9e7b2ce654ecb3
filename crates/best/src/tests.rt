// Cases worked out by hand.
use crate::choices::cheaper;
use crate::entries::{Bound, Candidate, Cost};
use crate::keeping::Best;

// Two costs offered in turn, and the one that is kept.
#[test]
fn keeps_the_lower_cost(rt: HostRuntime) {
    let cases = [
        (0, 0, 0),
        (7, 3, 3),
        (3, 7, 3),
        (u64::MAX, 0, 0),
        (0, u64::MAX, 0),
    ];
    for (older, newer, kept) in cases {
        let mut best = Best::new();
        best.offer(Cost(older));
        best.offer(Cost(newer));
        assert_eq!(rt; best.best(), Some(Cost(kept)));
    }
}

// Two bounds offered in turn, and the one that is kept.
#[test]
fn keeps_the_higher_bound(rt: HostRuntime) {
    let cases = [
        (0, 0, 0),
        (-7, -3, -3),
        (-3, -7, -3),
        (-1, 1, 1),
        (1, -1, 1),
        (i64::MIN, i64::MAX, i64::MAX),
        (i64::MIN, -1, -1),
    ];
    for (older, newer, kept) in cases {
        let mut best = Best::new();
        best.offer(Bound(older));
        best.offer(Bound(newer));
        assert_eq!(rt; best.best(), Some(Bound(kept)));
    }
}

// The better of two candidates, whichever of them comes first.
#[test]
fn chooses_the_cheaper_then_the_earlier(rt: HostRuntime) {
    let cases = [
        ((5, 1), (9, 0)),
        ((5, 1), (5, 2)),
        ((0, 255), (1, 0)),
        ((u64::MAX, 0), (u64::MAX, 255)),
        ((4, 4), (4, 4)),
    ];
    for ((cost, period), (other_cost, other_period)) in cases {
        let better = Candidate { cost, period };
        let worse = Candidate {
            cost: other_cost,
            period: other_period,
        };
        assert_eq!(rt; cheaper(better, worse), better);
        assert_eq!(rt; cheaper(worse, better), better);
    }
}

#[test]
fn keeps_none_until_offered(rt: HostRuntime) {
    let mut best = Best::new();
    assert_eq!(rt; best.best(), None);
    best.offer(Cost(u64::MAX));
    assert_eq!(rt; best.best(), Some(Cost(u64::MAX)));
}

// Cases worked out by hand.
use crate::account::TimeAccount;
use crate::amounts::{Money, OutOfRange, ScaledMoney};
use crate::limits::{CapacityPrice, Minutes, Scale};
use crate::priced::PricedTime;
use std::test::Fail;

fn scale(k: u32) -> Result<Scale, Fail> {
    Scale::new(k).ok_or_else(|| Fail::new("no scale"))
}

fn priced_time(price: u32, minutes: u32) -> Result<PricedTime, Fail> {
    let price = CapacityPrice::new(price).ok_or_else(|| Fail::new("no price"))?;
    let minutes = Minutes::new(minutes).ok_or_else(|| Fail::new("no minutes"))?;
    Ok(PricedTime { price, minutes })
}

// K-ths, scale, whole.
#[test]
fn rounds_up(rt: HostRuntime) -> Result<(), Fail> {
    let cases = [
        (0, 1, 0),
        (0, 3, 0),
        (310, 3, 104),
        (311, 3, 104),
        (312, 3, 104),
        (313, 3, 105),
        (-100, 3, -33),
        (-99, 3, -33),
        (-98, 3, -32),
        (1, 1000, 1),
        (1000, 1000, 1),
        (1001, 1000, 2),
        (-1, 1000, 0),
        (-999, 1000, 0),
        (-1000, 1000, -1),
        (-1001, 1000, -1),
        (i64::MAX, 1, i64::MAX),
        (i64::MIN, 1, i64::MIN),
        (i64::MAX, 2, 4611686018427387904),
        (i64::MIN, 2, -4611686018427387904),
        (i64::MAX, 1000, 9223372036854776),
        (i64::MIN, 1000, -9223372036854775),
    ];
    for (kths, k, whole) in cases {
        assert_eq!(rt;
            ScaledMoney::new(kths).rounded_up(scale(k)?),
            Money::new(whole)
        );
    }
    Ok(())
}

// Whole, scale, K-ths, or nothing where 64 bits do not hold them.
#[test]
fn scales_up(rt: HostRuntime) -> Result<(), Fail> {
    let cases = [
        (0, 1000, Some(0)),
        (104, 3, Some(312)),
        (-33, 3, Some(-99)),
        (i64::MAX, 1, Some(i64::MAX)),
        (i64::MIN, 1, Some(i64::MIN)),
        (i64::MAX, 2, None),
        (9223372036854775, 1000, Some(9223372036854775000)),
        (9223372036854776, 1000, None),
        (-9223372036854775, 1000, Some(-9223372036854775000)),
        (-9223372036854776, 1000, None),
    ];
    for (units, k, kths) in cases {
        let expected = kths.map(|kths| ScaledMoney::new(kths)).ok_or(OutOfRange);
        assert_eq!(rt; Money::new(units).scaled(scale(k)?), expected);
    }
    Ok(())
}

#[test]
fn keeps_its_limits(rt: HostRuntime) {
    for (k, within) in [
        (0, false),
        (1, true),
        (1000, true),
        (1001, false),
        (65535, false),
        (u32::MAX, false),
    ] {
        assert_eq!(rt; Scale::new(k).is_some(), within);
    }
    for (price, within) in [
        (0, true),
        (100_000, true),
        (100_001, false),
        (u32::MAX, false),
    ] {
        assert_eq!(rt; CapacityPrice::new(price).is_some(), within);
    }
    for (minutes, within) in [
        (0, true),
        (1_000_000_000, true),
        (1_000_000_001, false),
        (u32::MAX, false),
    ] {
        assert_eq!(rt; Minutes::new(minutes).is_some(), within);
    }
}

#[test]
fn sums_refuse_to_wrap(rt: HostRuntime) {
    let least = i64::MIN;
    let most = i64::MAX;
    assert_eq!(rt;
        Money::new(most).checked_add(Money::new(1)),
        Err(OutOfRange)
    );
    assert_eq!(rt;
        Money::new(least).checked_sub(Money::new(1)),
        Err(OutOfRange)
    );
    assert_eq!(rt;
        Money::new(least).checked_add(Money::new(most)),
        Ok(Money::new(-1))
    );
    assert_eq!(rt;
        Money::new(110).checked_sub(Money::new(104)),
        Ok(Money::new(6))
    );
    assert_eq!(rt;
        ScaledMoney::new(most).checked_add(ScaledMoney::new(1)),
        Err(OutOfRange)
    );
    assert_eq!(rt;
        ScaledMoney::new(least).checked_sub(ScaledMoney::new(1)),
        Err(OutOfRange)
    );
    assert_eq!(rt;
        ScaledMoney::new(350).checked_sub(ScaledMoney::new(40)),
        Ok(ScaledMoney::new(310))
    );
}

#[test]
fn prints_exactly(rt: HostRuntime) -> Result<(), Fail> {
    assert_eq!(rt; Money::new(-33).to_string(rt.alloc())?.as_str(), "-33");
    assert_eq!(rt;
        ScaledMoney::new(310).to_string(rt.alloc())?.as_str(),
        "310"
    );
    assert_eq!(rt;
        OutOfRange.to_string(rt.alloc())?.as_str(),
        "the exact amount does not fit 64 bits"
    );
    Ok(())
}

#[test]
fn charges_and_hands_back(rt: HostRuntime) -> Result<(), Fail> {
    let mut account = TimeAccount::new(ScaledMoney::new(-7));
    assert_eq!(rt;
        account.charge(priced_time(100_000, 1_000_000_000)?),
        Ok(ScaledMoney::new(100000000000000))
    );
    assert_eq!(rt; account.balance(), ScaledMoney::new(99999999999993));
    assert_eq!(rt;
        account.hand_back(priced_time(3, 5)?),
        Ok(ScaledMoney::new(15))
    );
    assert_eq!(rt; account.balance(), ScaledMoney::new(99999999999978));
    Ok(())
}

#[test]
fn a_refused_posting_leaves_the_account(rt: HostRuntime) -> Result<(), Fail> {
    let mut full = TimeAccount::new(ScaledMoney::new(i64::MAX - 14));
    assert_eq!(rt; full.charge(priced_time(3, 5)?), Err(OutOfRange));
    assert_eq!(rt; full, TimeAccount::new(ScaledMoney::new(i64::MAX - 14)));
    assert_eq!(rt; full.charge(priced_time(2, 7)?), Ok(ScaledMoney::new(14)));
    let mut empty = TimeAccount::new(ScaledMoney::new(i64::MIN + 14));
    assert_eq!(rt; empty.hand_back(priced_time(3, 5)?), Err(OutOfRange));
    assert_eq!(rt; empty, TimeAccount::new(ScaledMoney::new(i64::MIN + 14)));
    assert_eq!(rt;
        empty.hand_back(priced_time(2, 7)?),
        Ok(ScaledMoney::new(14))
    );
    Ok(())
}

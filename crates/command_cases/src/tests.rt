use commands::{Refusal, out_and_back, run};
use money::{CapacityPrice, Minutes, PricedTime, ScaledMoney, TimeAccount};
use std::alloc::{AllocError, Global};
use std::process::Abort;
use std::test::Fail;

// The program's answer to a line of words: the text, or what is wrong. (The crate of an item's cases has the same two helpers
// for another function; one of each for both would be a crate for a few lines.)
fn answer(heap: Global, line: &str) -> Result<String, AllocError> {
    let words: Vec<String> = line
        .split_whitespace()
        .map(|word| String::from_str(heap, word))
        .try_collect(heap)?;
    match run(heap, words.as_slice()) {
        Ok(text) => Ok(text),
        Err(error) => format!(in heap; "{error}"),
    }
}

#[test]
fn prices_a_minute_out_and_back(rt: HostRuntime) -> Result<(), Fail> {
    let cases = [
        (
            "minute 3 1 1 1",
            "period 0: charged 1, balance 1\nperiod 1: charged 1, balance 2\nperiod 2: charged 1, balance 3\nperiod 0: handed back 1, balance 2\nperiod 1: handed back 1, balance 1\nperiod 2: handed back 1, balance 0\nbalance 0 in K-ths at scale 3, whole 0, closed\n",
        ),
        (
            "minute 1000 2 0 100000",
            "period 0: charged 2, balance 2\nperiod 1: charged 0, balance 2\nperiod 2: charged 100000, balance 100002\nperiod 0: handed back 2, balance 100000\nperiod 1: handed back 0, balance 100000\nperiod 2: handed back 100000, balance 0\nbalance 0 in K-ths at scale 1000, whole 0, closed\n",
        ),
        (
            "minute +1 +007",
            "period 0: charged 7, balance 7\nperiod 0: handed back 7, balance 0\nbalance 0 in K-ths at scale 1, whole 0, closed\n",
        ),
    ];
    for (line, text) in cases {
        assert_eq!(rt; answer(rt.alloc(), line)?.as_str(), text, "{}", line);
    }
    Ok(())
}

// Each line is refused for what is wrong with it.
fn check_wrong(rt: &impl Abort, heap: Global, cases: &[(&str, &str)]) -> Result<(), Fail> {
    for (line, wrong) in cases {
        let expected = format!(in heap; "{wrong}; usage: lotaudit minute SCALE PRICE...")?;
        assert_eq!(rt;
            answer(heap, line)?.as_str(),
            expected.as_str(),
            "{}",
            *line
        );
    }
    Ok(())
}

#[test]
fn names_a_wrong_verb_or_scale(rt: HostRuntime) -> Result<(), Fail> {
    let verb = "the verb is not known";
    let scale = "the scale is not a whole number from 1 to 1000";
    let cases = [
        ("weigh", verb),
        ("MINUTE 3 1", verb),
        ("minute", "the scale is missing"),
        ("minute 0 1", scale),
        ("minute 1001 1", scale),
        ("minute 65536 1", scale),
        ("minute three 1", scale),
        ("minute 1001", scale),
    ];
    check_wrong(&rt, rt.alloc(), &cases)
}

#[test]
fn names_a_wrong_price(rt: HostRuntime) -> Result<(), Fail> {
    let first = "the price of period 0 is not a whole number from 0 to 100000";
    let second = "the price of period 1 is not a whole number from 0 to 100000";
    let many =
        "minute 3 0 1 2 3 4 5 6 7 8 9 10 11 12 13 14 15 16 17 18 19 20 21 22 23 24 25 26 27 28 29 30 31 x";
    let cases = [
        ("minute 3", "the prices are missing"),
        (many, "there are more than 32 prices"),
        ("minute 3 1 100001", second),
        ("minute 3 1 x y", second),
        ("minute 3 4294967296 x", first),
        ("minute 3 -1", first),
        ("minute 3 1.5", first),
    ];
    check_wrong(&rt, rt.alloc(), &cases)
}

#[test]
fn explains_itself_without_words(rt: HostRuntime) -> Result<(), Fail> {
    let text = answer(rt.alloc(), "")?;
    assert!(rt;
        text.as_str()
            .starts_with("usage: lotaudit minute SCALE PRICE...\n")
    );
    Ok(())
}

#[test]
fn thirty_two_periods_close(rt: HostRuntime) -> Result<(), Fail> {
    let line =
        "minute 999 0 1 2 3 4 5 6 7 8 9 10 11 12 13 14 15 16 17 18 19 20 21 22 23 24 25 26 27 28 29 30 31";
    let text = answer(rt.alloc(), line)?;
    assert!(rt;
        text.as_str()
            .ends_with("\nbalance 0 in K-ths at scale 999, whole 0, closed\n")
    );
    Ok(())
}

#[test]
fn refuses_to_charge_past_the_range(rt: HostRuntime) -> Result<(), Fail> {
    let price = CapacityPrice::new(1).ok_or_else(|| Fail::new("no price"))?;
    let times = [PricedTime {
        price,
        minutes: Minutes::one(),
    }; 2];
    let mut account = TimeAccount::new(ScaledMoney::new(i64::MAX - 1));
    assert_eq!(rt;
        out_and_back(rt.alloc(), &mut account, &times).err(),
        Some(Refusal::OutOfRange)
    );
    assert_eq!(rt; account.balance(), ScaledMoney::new(i64::MAX - 1));
    let mut account = TimeAccount::new(ScaledMoney::new(i64::MAX - 2));
    assert!(rt; out_and_back(rt.alloc(), &mut account, &times).is_ok());
    assert_eq!(rt; account.balance(), ScaledMoney::new(i64::MAX - 2));
    Ok(())
}

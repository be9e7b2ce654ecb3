use crate::tests::{answer, check_answers, check_wrong};
use std::alloc::{AllocError, Global};
use std::test::Fail;

const UNKNOWN_HEADER: &str = "refused 5: the header is not known\n";

// The line with a word behind it so many times.
fn repeated(heap: Global, line: &str, word: &str, times: usize) -> Result<String, AllocError> {
    let mut text = String::from_str(heap, line)?;
    for _ in 0..times {
        text.push_str(" ")?;
        text.push_str(word)?;
    }
    Ok(text)
}

#[test]
fn names_the_least_cost(rt: HostRuntime) -> Result<(), Fail> {
    let cases = [
        (
            "least 0 0 - 50,0,1,2,20 50,0,1,2,30 50,0,1,2,10",
            "least 100\n",
        ),
        (
            "least 1 0 - 50,0,1,2,20 50,0,1,2,30 50,0,1,2,10",
            "least 100\n",
        ),
        ("least 0 0 - 50,0,1,2,5 50,0,1,2,30", "least 80\n"),
        ("least 1 0 - 50,0,1,2,5 50,0,1,2,30", "least 60\n"),
        ("least 0 0 - 50,3,1,2,5", "least 65\n"),
        ("least 0 0 - 50,3,1,2,0", "least 0\n"),
        ("least +0 00 - +50,03,1,2,+5", "least 65\n"),
        ("least 0 0 -", "least 0\n"),
        ("least 1 0 -", "least 0\n"),
    ];
    check_answers(&rt, rt.alloc(), &cases)
}

#[test]
fn weighs_a_plan(rt: HostRuntime) -> Result<(), Fail> {
    let cases = [
        (
            "weigh 0 0 - 50,0,1,2,20 50,0,1,2,30 50,0,1,2,10 plan 20 40 -",
            "cost 110\n",
        ),
        (
            "weigh 0 0 - 50,0,1,2,20 50,0,1,2,30 50,0,1,2,10 plan 60 - -",
            "cost 100\n",
        ),
        ("weigh 0 0 - 50,0,1,2,5 50,0,1,2,30 plan 35 0", "cost 130\n"),
        ("weigh 0 0 - 50,0,1,2,5 50,0,1,2,30 plan 35 0!", "cost 80\n"),
        ("weigh 1 0 - 50,0,1,2,5 50,0,1,2,30 plan - 35", "cost 60\n"),
        ("weigh 0 0 - 50,0,1,2,0 plan 0", "cost 50\n"),
        ("weigh 0 0 - 50,0,1,2,0 plan -", "cost 0\n"),
        ("weigh 0 0 - plan", "cost 0\n"),
        ("weigh 1 0 - plan", "cost 0\n"),
    ];
    check_answers(&rt, rt.alloc(), &cases)
}

#[test]
fn names_the_first_fault(rt: HostRuntime) -> Result<(), Fail> {
    let cases = [
        (
            "weigh 0 0 - 50,0,1,2,20 50,0,1,2,30 50,0,1,2,10 plan - - -",
            "fault 2, period 0, depth 0: stock below zero\n",
        ),
        (
            "weigh 0 0 - 50,0,1,2,20 50,0,1,2,30 plan 20 29",
            "fault 2, period 1, depth 0: stock below zero\n",
        ),
        (
            "weigh 1 0 - 50,0,1,2,5 50,0,1,2,30 plan - 30",
            "fault 3, period 1, depth 0: stock below zero after the last row\n",
        ),
        (
            "weigh 0 0 - 50,0,1,2,5 plan 5!",
            "fault 1, period 0, depth 0: an amount without a setup\n",
        ),
        (
            "weigh 1 0 - 50,0,1,2,5 50,0,1,2,30 plan 5 30!",
            "fault 1, period 1, depth 0: an amount without a setup\n",
        ),
    ];
    check_answers(&rt, rt.alloc(), &cases)
}

#[test]
fn passes_refusals_on(rt: HostRuntime) -> Result<(), Fail> {
    let too_large = "refused 11: a row is too large\n";
    let no_fit = "refused 13: the plan does not fit\n";
    let cases = [
        ("least 0 25 - 50,0,1,2,20", UNKNOWN_HEADER),
        ("least 1 25 - 50,0,1,2,20", UNKNOWN_HEADER),
        ("weigh 0 4294967295 - 50,0,1,2,20 plan 20", UNKNOWN_HEADER),
        ("least 0 0 2 50,0,1,2,20", UNKNOWN_HEADER),
        ("least 1 0 0 50,0,1,2,20", UNKNOWN_HEADER),
        ("weigh 0 0 0,2,31 50,0,1,2,20 plan 20", UNKNOWN_HEADER),
        ("least 2 0 - 50,0,1,2,20", UNKNOWN_HEADER),
        ("weigh 255 0 - plan", UNKNOWN_HEADER),
        ("least 0 0 - 0,0,0,0,100001", too_large),
        ("least 0 0 - 18446744073709551615,0,0,0,0", too_large),
        ("weigh 0 0 - 0,0,0,0,4294967295 plan", too_large),
        ("weigh 0 0 - 50,0,1,2,20 plan 20 0", no_fit),
        ("weigh 0 0 - 50,0,1,2,20 plan", no_fit),
        ("weigh 0 0 - 50,0,1,2,20 plan 3200001", no_fit),
        ("weigh 1 0 - 50,0,1,2,20 plan 4294967295!", no_fit),
    ];
    check_answers(&rt, rt.alloc(), &cases)
}

#[test]
fn takes_up_to_thirty_two_rows(rt: HostRuntime) -> Result<(), Fail> {
    let heap = rt.alloc();
    let full = repeated(heap, "least 0 0 -", "50,0,0,0,1", 32)?;
    assert_eq!(rt; answer(heap, full.as_str())?.as_str(), "least 50\n");
    let over = repeated(heap, "least 0 0 -", "50,0,0,0,1", 33)?;
    assert_eq!(rt;
        answer(heap, over.as_str())?.as_str(),
        "refused 12: 32 rows were told already\n"
    );
    let rows = repeated(heap, "weigh 0 0 -", "0,0,100000000,0,0", 32)?;
    let plan = repeated(heap, rows.as_str(), "plan", 1)?;
    let dear = repeated(heap, plan.as_str(), "3200000", 32)?;
    assert_eq!(rt;
        answer(heap, dear.as_str())?.as_str(),
        "refused 9: the cost is above 10^17\n"
    );
    Ok(())
}

#[test]
fn names_a_wrong_header(rt: HostRuntime) -> Result<(), Fail> {
    let rule = "the rule is not a whole number from 0 to 255";
    let opening = "the opening stock is not a whole number from 0 to 4294967295";
    let forced =
        "the forced periods are neither - nor periods from 0 to 31, rising and joined by commas";
    let cases = [
        ("least", "the rule is missing"),
        ("weigh", "the rule is missing"),
        ("least 256 x x x", rule),
        ("least -1", rule),
        ("weigh plan", rule),
        ("least 0", "the opening stock is missing"),
        ("weigh 0 plan", opening),
        ("least 0 4294967296 x x", opening),
        ("least 0 0", "the forced periods are missing"),
        ("weigh 0 0 plan", forced),
        ("least 0 0 32 x", forced),
        ("least 0 0 4294967296", forced),
        ("least 0 0 2,0", forced),
        ("least 0 0 1,1", forced),
        ("least 0 0 0,", forced),
        ("least 0 0 ,0", forced),
        ("least 0 0 -,1", forced),
        ("least 0 0 --", forced),
    ];
    check_wrong(&rt, rt.alloc(), &cases)
}

#[test]
fn names_a_wrong_row_or_lot(rt: HostRuntime) -> Result<(), Fail> {
    let first_row = "the row of period 0 is not five whole numbers joined by commas";
    let second_row = "the row of period 1 is not five whole numbers joined by commas";
    let first_lot = "the lot of period 0 is neither - nor an amount, with or without ! behind it";
    let second_lot = "the lot of period 1 is neither - nor an amount, with or without ! behind it";
    let cases = [
        ("least 0 0 - 1,2,3,4 x", first_row),
        ("least 0 0 - 1,2,3,4,5,6", first_row),
        ("least 0 0 - 1,2,3,4,5,", first_row),
        ("least 0 0 - 1,2,3,4,-5", first_row),
        ("least 0 0 - 18446744073709551616,0,0,0,0", first_row),
        ("least 0 0 - 0,0,0,0,4294967296", first_row),
        ("least 0 0 - 1,2,3,4,5 1,2,,4,5 x", second_row),
        ("least 0 0 - 1,2,3,4,5 plan 5", second_row),
        ("weigh 0 0 -", "the word plan is missing"),
        ("weigh 0 0 - x Plan", "the word plan is missing"),
        ("weigh 0 0 - x plan y", first_row),
        ("weigh 0 0 - 1,2,3,4,5 plan x 5", first_lot),
        ("weigh 0 0 - 1,2,3,4,5 plan !", first_lot),
        ("weigh 0 0 - 1,2,3,4,5 plan -!", first_lot),
        ("weigh 0 0 - 1,2,3,4,5 plan 5!!", first_lot),
        ("weigh 0 0 - 1,2,3,4,5 plan 4294967296", first_lot),
        ("weigh 0 0 - plan 5! plan", second_lot),
    ];
    check_wrong(&rt, rt.alloc(), &cases)
}

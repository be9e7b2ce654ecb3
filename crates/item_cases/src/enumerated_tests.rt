// Small random items, answered by an enumeration of all their plans: the table is written by tools/small_items.py.
use crate::tests::check_answers;
use std::test::Fail;

const LEASTS: [(&str, &str); 26] = [
    ("least 1 0 - 10,0,0,4,0", "least 0\n"),
    ("least 1 0 - 0,0,3,3,0 1,0,4,3,0 0,1,4,0,3", "least 3\n"),
    ("least 0 0 - 0,4,2,4,3 2,3,2,4,0 0,4,3,1,2", "least 20\n"),
    ("least 1 0 -", "least 0\n"),
    ("least 0 0 - 11,2,4,3,4 12,3,0,0,2", "least 31\n"),
    ("least 0 0 - 4,3,2,0,3 5,1,4,0,3 0,1,2,1,1", "least 22\n"),
    ("least 1 0 - 11,2,2,0,1 26,4,2,4,4", "least 29\n"),
    ("least 1 0 - 3,3,4,3,3 25,3,0,3,3 3,1,0,1,3", "least 30\n"),
    ("least 1 0 - 24,1,2,2,4", "least 28\n"),
    ("least 0 0 - 12,2,2,0,1 1,1,3,1,2", "least 17\n"),
    ("least 0 0 - 2,4,4,1,0 0,0,4,1,3 3,1,0,2,1", "least 4\n"),
    ("least 1 0 - 35,3,0,4,0 15,1,2,0,0 32,3,4,0,0", "least 0\n"),
    ("least 0 0 - 32,1,2,3,3 32,1,4,2,1 28,1,3,0,3", "least 59\n"),
    ("least 1 0 - 1,1,2,0,6", "least 7\n"),
    ("least 0 0 - 2,2,1,3,1 11,0,3,3,1 10,1,1,3,3", "least 20\n"),
    ("least 1 0 - 12,1,3,2,3", "least 15\n"),
    ("least 0 0 - 11,2,0,2,0 12,1,3,0,2 0,0,2,0,1", "least 14\n"),
    ("least 1 0 - 1,2,3,0,2 2,2,4,2,1", "least 8\n"),
    ("least 0 0 - 2,0,2,3,0", "least 0\n"),
    ("least 0 0 - 0,0,2,0,1", "least 0\n"),
    ("least 1 0 - 2,2,2,4,1 0,3,0,3,2 0,1,3,2,2", "least 12\n"),
    ("least 0 0 - 2,1,3,3,3 0,1,0,3,3", "least 8\n"),
    ("least 0 0 - 12,2,0,2,0 0,2,1,1,2", "least 4\n"),
    ("least 0 0 - 2,4,1,1,0 2,2,4,0,2", "least 6\n"),
    ("least 1 0 - 0,3,3,3,1 3,2,2,0,3 2,4,2,1,1", "least 16\n"),
    ("least 0 0 - 10,3,3,2,0 2,0,3,3,4", "least 2\n"),
];

#[test]
fn the_least_is_that_of_an_enumeration(rt: HostRuntime) -> Result<(), Fail> {
    check_answers(&rt, rt.alloc(), &LEASTS)
}

const VERDICTS: [(&str, &str); 22] = [
    (
        "weigh 1 0 - 2,3,1,4,0 2,4,1,0,1 2,0,4,0,0 plan 7 2 0",
        "cost 82\n",
    ),
    (
        "weigh 0 0 - 1,3,3,4,2 1,3,4,2,3 plan 0 0",
        "fault 2, period 0, depth 0: stock below zero\n",
    ),
    ("weigh 1 0 - 7,3,2,0,1 1,2,2,3,1 plan 3 -", "cost 22\n"),
    (
        "weigh 1 0 - 2,4,2,1,2 1,4,4,4,2 1,4,1,1,3 plan - - 4",
        "fault 3, period 2, depth 0: stock below zero after the last row\n",
    ),
    (
        "weigh 0 0 - 3,2,0,0,3 1,3,1,3,2 0,3,3,3,0 plan 0 3 2",
        "fault 2, period 0, depth 0: stock below zero\n",
    ),
    (
        "weigh 1 0 - 4,4,3,1,0 11,2,3,4,3 8,1,4,1,0 plan 2 0 -",
        "fault 3, period 2, depth 0: stock below zero after the last row\n",
    ),
    (
        "weigh 1 0 - 2,0,2,4,3 3,0,3,2,4 plan 0 0",
        "fault 3, period 1, depth 0: stock below zero after the last row\n",
    ),
    (
        "weigh 0 0 - 2,4,3,2,4 1,0,4,1,0 plan 0 -",
        "fault 2, period 0, depth 0: stock below zero\n",
    ),
    (
        "weigh 1 0 - 11,2,2,0,2 2,0,0,4,4 plan 3 -",
        "fault 3, period 1, depth 0: stock below zero after the last row\n",
    ),
    (
        "weigh 0 0 - 8,3,4,2,1 3,2,1,1,3 5,0,1,0,0 plan 2 4! 4",
        "fault 1, period 1, depth 0: an amount without a setup\n",
    ),
    (
        "weigh 1 0 - 9,4,3,2,3 9,2,4,1,0 32,3,4,1,0 plan 0 - 1",
        "fault 3, period 2, depth 0: stock below zero after the last row\n",
    ),
    (
        "weigh 0 0 - 1,3,2,0,3 0,4,4,0,0 3,2,0,2,1 plan - 1 2!",
        "fault 2, period 0, depth 0: stock below zero\n",
    ),
    (
        "weigh 0 0 - 2,3,0,4,3 2,3,1,1,0 plan 2 -",
        "fault 2, period 0, depth 0: stock below zero\n",
    ),
    (
        "weigh 0 0 - 6,2,0,2,0 5,2,3,0,1 plan - 2!",
        "fault 1, period 1, depth 0: an amount without a setup\n",
    ),
    (
        "weigh 1 0 - 0,3,4,4,1 11,0,0,3,3 plan 1 0",
        "fault 3, period 1, depth 0: stock below zero after the last row\n",
    ),
    ("weigh 1 0 - 4,2,3,1,2 7,4,3,0,1 plan - 7", "cost 49\n"),
    (
        "weigh 1 0 - 7,1,0,1,1 2,4,0,3,0 8,0,0,1,1 plan 1! 4 0",
        "fault 1, period 0, depth 0: an amount without a setup\n",
    ),
    (
        "weigh 0 0 - 3,2,1,4,0 0,4,2,3,2 2,1,3,4,1 plan 1 0 2",
        "fault 2, period 1, depth 0: stock below zero\n",
    ),
    (
        "weigh 1 0 - 3,3,0,2,3 5,3,1,0,2 plan 0 2",
        "fault 3, period 1, depth 0: stock below zero after the last row\n",
    ),
    ("weigh 1 0 - 2,2,0,4,3 1,1,3,3,0 plan 4 0", "cost 14\n"),
    (
        "weigh 0 0 - 7,0,1,2,1 11,4,3,0,2 plan 1! 0",
        "fault 1, period 0, depth 0: an amount without a setup\n",
    ),
    (
        "weigh 0 0 - 3,2,2,3,0 0,3,1,2,3 1,2,2,3,0 plan 1 4 0",
        "cost 26\n",
    ),
];

#[test]
fn verdicts_are_those_of_an_enumeration(rt: HostRuntime) -> Result<(), Fail> {
    check_answers(&rt, rt.alloc(), &VERDICTS)
}

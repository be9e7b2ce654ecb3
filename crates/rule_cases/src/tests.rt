use base_rules::{BaseRule, Cause, Kind, UnknownCause};
use item::{Fault, Header, Item, ItemRule, Lot, Refusal, Row, Verdict};

const BASE: Header = Header {
    rule: 0,
    opening: 0,
    forced: 0,
};

const NONE: Lot = Lot {
    amount: 0,
    setup: false,
};

const LARGEST: Row = Row {
    setup: 20_000_000_000,
    unit: 200_000_000,
    hold: 100_000_000,
    short: 100_000_000,
    demand: 100_000,
};

// A row with setup price 50, unit price 0, hold price 1 and short price 2.
fn row(demand: u32) -> Row {
    Row {
        setup: 50,
        unit: 0,
        hold: 1,
        short: 2,
        demand,
    }
}

fn lot(amount: u32) -> Lot {
    Lot {
        amount,
        setup: true,
    }
}

fn base_item(rows: &[Row]) -> Item<'_> {
    Item { header: BASE, rows }
}

// The cause is a number here too, as a fault has it.
fn fault(cause: u8, period: u8) -> Result<Verdict, Refusal> {
    Ok(Err(Fault {
        cause,
        period,
        depth: 0,
    }))
}

fn cost(cost: u64) -> Result<Verdict, Refusal> {
    Ok(Ok(cost))
}

#[test]
fn three_periods_cost_least_in_one_lot(rt: HostRuntime) {
    let rows = [row(20), row(30), row(10)];
    let mut rule = BaseRule::new(Kind::Plain);
    assert_eq!(rt; base_item(&rows).least(&mut rule), Ok(100));
    assert_eq!(rt; rule.weigh(&[lot(60), NONE, NONE]), cost(100));
    assert_eq!(rt; rule.weigh(&[lot(20), lot(40), NONE]), cost(110));
    assert_eq!(rt; rule.weigh(&[lot(60), lot(0), NONE]), cost(150));
    assert_eq!(rt; rule.weigh(&[NONE, NONE, NONE]), fault(2, 0));
    assert_eq!(rt; rule.weigh(&[lot(20), NONE, lot(40)]), fault(2, 1));
}

#[test]
fn backlog_may_wait_for_a_lot(rt: HostRuntime) {
    let rows = [row(5), row(30)];
    let mut plain = BaseRule::new(Kind::Plain);
    let mut backlog = BaseRule::new(Kind::Backlog);
    assert_eq!(rt; base_item(&rows).least(&mut plain), Ok(80));
    assert_eq!(rt; base_item(&rows).least(&mut backlog), Ok(60));
    assert_eq!(rt; backlog.weigh(&[NONE, lot(35)]), cost(60));
    assert_eq!(rt; plain.weigh(&[NONE, lot(35)]), fault(2, 0));
    assert_eq!(rt; backlog.weigh(&[NONE, lot(34)]), fault(3, 1));
    assert_eq!(rt; backlog.weigh(&[NONE, NONE]), fault(3, 1));
}

#[test]
fn a_lot_without_a_setup_is_the_first_fault_of_its_period(rt: HostRuntime) {
    let rows = [row(5), row(30)];
    let unset = Lot {
        amount: 1,
        setup: false,
    };
    let mut rule = BaseRule::new(Kind::Plain);
    assert_eq!(rt;
        base_item(&rows).verdict(&mut rule, &[unset, NONE]),
        fault(1, 0)
    );
    assert_eq!(rt; rule.weigh(&[lot(5), unset]), fault(1, 1));
    assert_eq!(rt; rule.weigh(&[lot(4), unset]), fault(2, 0));
}

#[test]
fn no_rows_cost_nothing(rt: HostRuntime) {
    let mut rule = BaseRule::new(Kind::Backlog);
    assert_eq!(rt; base_item(&[]).least(&mut rule), Ok(0));
    assert_eq!(rt; rule.weigh(&[]), cost(0));
}

#[test]
fn a_demand_of_zero_is_skipped_free(rt: HostRuntime) {
    let mut rule = BaseRule::new(Kind::Plain);
    assert_eq!(rt;
        base_item(&[row(0), row(7), row(0)]).least(&mut rule),
        Ok(50)
    );
    assert_eq!(rt; base_item(&[row(0), row(0)]).least(&mut rule), Ok(0));
}

#[test]
fn before_an_opening_each_call_is_refused_for_it(rt: HostRuntime) {
    let mut rule = BaseRule::new(Kind::Plain);
    assert_eq!(rt; rule.tell(row(100_001)), Err(Refusal::NotOpened));
    assert_eq!(rt; rule.weigh(&[NONE]), Err(Refusal::NotOpened));
    assert_eq!(rt; rule.least(), Err(Refusal::NotOpened));
}

#[test]
fn an_unknown_header_leaves_what_is_held(rt: HostRuntime) {
    let mut rule = BaseRule::new(Kind::Plain);
    assert_eq!(rt; base_item(&[row(20)]).least(&mut rule), Ok(50));
    let unknown = Err(Refusal::HeaderNotKnown);
    assert_eq!(rt;
        rule.open(Header {
            rule: 1,
            opening: 0,
            forced: 0,
        }),
        unknown
    );
    assert_eq!(rt;
        rule.open(Header {
            rule: 0,
            opening: 1,
            forced: 0,
        }),
        unknown
    );
    assert_eq!(rt;
        rule.open(Header {
            rule: 0,
            opening: 0,
            forced: 1,
        }),
        unknown
    );
    assert_eq!(rt; rule.least(), Ok(50));
    assert_eq!(rt; rule.open(BASE), Ok(()));
    assert_eq!(rt; rule.least(), Ok(0));
}

#[test]
fn each_limit_of_a_row_is_its_last_number(rt: HostRuntime) {
    let above = [
        Row {
            setup: 20_000_000_001,
            ..LARGEST
        },
        Row {
            unit: 200_000_001,
            ..LARGEST
        },
        Row {
            hold: 100_000_001,
            ..LARGEST
        },
        Row {
            short: 100_000_001,
            ..LARGEST
        },
        Row {
            demand: 100_001,
            ..LARGEST
        },
    ];
    let mut rule = BaseRule::new(Kind::Plain);
    assert_eq!(rt; rule.open(BASE), Ok(()));
    for row in above {
        assert_eq!(rt; rule.tell(row), Err(Refusal::RowTooLarge));
    }
    assert_eq!(rt; rule.tell(LARGEST), Ok(()));
}

// A period's own lot costs 20,020,000,000,000, and to hold a demand for one period 10,000,000,000,000.
#[test]
fn a_rule_is_told_32_rows(rt: HostRuntime) {
    let mut rule = BaseRule::new(Kind::Plain);
    assert_eq!(rt; rule.open(BASE), Ok(()));
    for _ in 0..32 {
        assert_eq!(rt; rule.tell(LARGEST), Ok(()));
    }
    assert_eq!(rt;
        rule.tell(Row {
            demand: 100_001,
            ..LARGEST
        }),
        Err(Refusal::RowTooLarge)
    );
    assert_eq!(rt; rule.tell(LARGEST), Err(Refusal::TooManyRows));
    assert_eq!(rt; rule.least(), Ok(640_640_000_000_000));
}

#[test]
fn a_plan_fits_before_it_is_weighed(rt: HostRuntime) {
    let mut rule = BaseRule::new(Kind::Plain);
    let dear = Row {
        setup: 0,
        unit: 0,
        hold: 100_000_000,
        short: 0,
        demand: 0,
    };
    let misfit = Err(Refusal::PlanDoesNotFit);
    assert_eq!(rt;
        base_item(&[dear; 32]).verdict(&mut rule, &[lot(3_200_000); 32]),
        Err(Refusal::CostTooHigh)
    );
    assert_eq!(rt; rule.weigh(&[lot(3_200_000); 31]), misfit);
    assert_eq!(rt; rule.weigh(&[lot(3_200_000); 33]), misfit);
    assert_eq!(rt; rule.weigh(&[lot(3_200_001); 32]), misfit);
    assert_eq!(rt; rule.weigh(&[lot(0); 32]), cost(0));
}

#[test]
fn refusals_have_their_numbers(rt: HostRuntime) {
    let cases = [
        (Refusal::HeaderNotKnown, 5),
        (Refusal::CostTooHigh, 9),
        (Refusal::NotOpened, 10),
        (Refusal::RowTooLarge, 11),
        (Refusal::TooManyRows, 12),
        (Refusal::PlanDoesNotFit, 13),
    ];
    for (refusal, number) in cases {
        assert_eq!(rt; refusal.number(), number);
    }
}

#[test]
fn causes_have_their_numbers_and_words(rt: HostRuntime) {
    let cases = [
        (1, Cause::NoSetup, "an amount without a setup"),
        (2, Cause::BelowZero, "stock below zero"),
        (
            3,
            Cause::BelowZeroAtTheEnd,
            "stock below zero after the last row",
        ),
    ];
    for (number, cause, words) in cases {
        assert_eq!(rt; Cause::try_from(number), Ok(cause));
        assert_eq!(rt; u8::from(cause), number);
        assert_eq!(rt; format!(in rt.alloc(); "{cause}").as_deref(), Ok(words));
    }
}

#[test]
fn other_numbers_are_no_cause(rt: HostRuntime) {
    for number in [0, 4, 5, 255] {
        assert_eq!(rt; Cause::try_from(number), Err(UnknownCause(number)));
    }
    let unknown = UnknownCause(4);
    assert_eq!(rt;
        format!(in rt.alloc(); "{unknown}").as_deref(),
        Ok("4 is no cause of a fault")
    );
}

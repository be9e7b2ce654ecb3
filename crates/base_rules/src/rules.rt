// The base rules behind the interface of item rules.
ghost use Rattle.std.specs.Prelude.{◌≡◌, true};
ghost use Rattle.item.specs.Meanings.{unopened};
ghost use Rattle.item.specs.Tables.{held_in};
ghost use Rattle.base_rules.specs.Stocks.{VerdictsMean};
ghost use Rattle.base_rules.specs.Verdicts.{base_rule, holds_base_header};
ghost use Rattle.base_rules.specs.Laws.{laws};
ghost use Rattle.base_rules.specs.Exact;

use crate::kinds::Kind;
use crate::problem::Problem;
use item::{Header, ItemRule, Lot, Refusal, Row, RowTable, Verdict};

// A lot-sizing rule for one item that starts without stock.
#[derive(Drop)]
pub struct BaseRule {
    kind: Kind,
    table: RowTable,
    ghost known: { holds_base_header (held_in table) ≡ true },
}

impl BaseRule {
    pub fn new(kind: Kind) -> BaseRule
        ensures rule { result.kind ≡ kind }
        ensures holds { held_in result.table ≡ unopened }
        ensures verdicts { VerdictsMean result.kind }
    {
        BaseRule {
            kind,
            table: RowTable::new(),
        }
    }
}

impl ItemRule for BaseRule {
    ghost meaning = { λ s. base_rule s.kind };

    ghost held = { λ s. held_in s.table };

    ghost proper = { λ x. Exact.proper x.kind x.table.opened x.known };

    ghost lawful = { λ x. laws x.kind };

    fn open(&mut self, header: Header) -> Result<(), Refusal> {
        if header.rule != 0 || header.opening != 0 || header.forced != 0 {
            return Err(Refusal::HeaderNotKnown);
        }
        self.table.open(header);
        Ok(())
    }

    fn tell(&mut self, row: Row) -> Result<(), Refusal> {
        self.table.tell(row)
    }

    fn weigh(&self, plan: &[Lot]) -> Result<Verdict, Refusal> {
        let opened = self.table.opened()?;
        Problem::new(self.kind, opened).weighed(plan)
    }

    fn least(&self) -> Result<u64, Refusal> {
        let opened = self.table.opened()?;
        Ok(Problem::new(self.kind, opened).least())
    }
}

// Putting an item to a rule, whatever the rule held before.
ghost use Rattle.std.specs.Prelude.{◌≡◌, Ok};
ghost use Rattle.item.specs.Asked.{fill_answer, held_after_fill, item_least, item_verdict, AnsweredLeast};
ghost use Rattle.item.specs.Least.{least_cost, LeastMeans};
ghost use Rattle.item.specs.Meanings.{opened};

use crate::records::{Header, Lot, Refusal, Row, Verdict};
use crate::rules::ItemRule;

// An item: its header, and its rows.
#[derive(Clone, Copy, Debug)]
pub struct Item<'a> {
    pub header: Header,
    pub rows: &'a [Row],
}

// Each call says anew what is held after it, and that the meaning stays: no type can speak of the rule before.
impl Item<'_> {
    // Opens the header and tells each row.
    pub fn fill<R: ItemRule>(&self, rule: &mut R) -> Result<(), Refusal>
        ensures says { result ≡ fill_answer (R.meaning rule.old) self.now.header self.now.rows.now }
        ensures holds { R.held rule.new ≡ held_after_fill (R.meaning rule.old) self.now.header self.now.rows.now (R.held rule.old) }
        ensures fills { result ≡ Ok tt → R.held rule.new ≡ opened self.now.header self.now.rows.now }
        ensures same { R.meaning rule.new ≡ R.meaning rule.old }
    {
        rule.open(self.header)?;
        for row in self.rows {
            rule.tell(*row)?;
        }
        Ok(())
    }

    // The least cost of the item.
    pub fn least<R: ItemRule>(&self, rule: &mut R) -> Result<u64, Refusal>
        ensures says { result ≡ item_least (R.meaning rule.old) self.now.header self.now.rows.now }
        ensures holds { R.held rule.new ≡ held_after_fill (R.meaning rule.old) self.now.header self.now.rows.now (R.held rule.old) }
        ensures value { LeastMeans ((R.meaning rule.old).verdict self.now.header) self.now.rows.now (least_cost ((R.meaning rule.old).verdict self.now.header) self.now.rows.now) }
        ensures least { AnsweredLeast (R.meaning rule.old) self.now.header self.now.rows.now result }
        ensures same { R.meaning rule.new ≡ R.meaning rule.old }
    {
        self.fill(rule)?;
        rule.least()
    }

    // The verdict on a plan for the item.
    pub fn verdict<R: ItemRule>(&self, rule: &mut R, plan: &[Lot]) -> Result<Verdict, Refusal>
        ensures says { result ≡ item_verdict (R.meaning rule.old) self.now.header self.now.rows.now plan.now }
        ensures holds { R.held rule.new ≡ held_after_fill (R.meaning rule.old) self.now.header self.now.rows.now (R.held rule.old) }
        ensures same { R.meaning rule.new ≡ R.meaning rule.old }
    {
        self.fill(rule)?;
        rule.weigh(plan)
    }
}

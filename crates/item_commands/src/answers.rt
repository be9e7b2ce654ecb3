// The lines that answer what was asked of a rule.
ghost use Rattle.std.specs.Prelude.{◌≡◌, IfOk, Some, string_bytes};
ghost use Rattle.item.specs.Asked.{item_least, item_verdict};
ghost use Rattle.item_commands.specs.Texts.{refused_text, fault_text, least_answer_text, verdict_answer_text};

use base_rules::Cause;
use item::{Fault, Item, ItemRule, Lot, Refusal};
use std::alloc::{AllocError, Global};
use std::fmt;

// A fault, as its line has it. (A type of this crate, since the words for a cause come from the base rules.)
#[derive(Clone, Copy)]
struct Faulted(Fault);

// A refusal, as its line has it.
#[derive(Clone, Copy)]
struct Refused(Refusal);

impl fmt::Display for Faulted {
    ghost output = { λ f. Some (fault_text f.0) };

    fn fmt<W: fmt::Write>(&self, f: &mut fmt::Formatter<W>) -> fmt::Result {
        let Fault {
            cause,
            period,
            depth,
        } = self.0;
        write!(f, "fault {cause}, period {period}, depth {depth}: ")?;
        match Cause::try_from(cause) {
            Ok(named) => write!(f, "{named}"),
            Err(_) => write!(f, "a fault of the rule"),
        }
    }
}

impl fmt::Display for Refused {
    ghost output = { λ r. Some (refused_text r.0) };

    fn fmt<W: fmt::Write>(&self, f: &mut fmt::Formatter<W>) -> fmt::Result {
        let refusal = self.0;
        let number = refusal.number();
        write!(f, "refused {number}: {refusal}")
    }
}

// The least cost of an item by a rule, or the rule's refusal.
pub fn least_line<R: ItemRule>(
    heap: Global,
    rule: &mut R,
    item: &Item<'_>,
) -> Result<String, AllocError>
    ensures { IfOk result (λ t. string_bytes t ≡ least_answer_text (item_least (R.meaning rule.old) item.now.header item.now.rows.now)) }
{
    match item.least(rule) {
        Ok(least) => format!(in heap; "least {least}\n"),
        Err(refusal) => format!(in heap; "{}\n", Refused(refusal)),
    }
}

// The verdict of a rule on a plan for an item, or the rule's refusal.
pub fn plan_line<R: ItemRule>(
    heap: Global,
    rule: &mut R,
    item: &Item<'_>,
    plan: &[Lot],
) -> Result<String, AllocError>
    ensures { IfOk result (λ t. string_bytes t ≡ verdict_answer_text (item_verdict (R.meaning rule.old) item.now.header item.now.rows.now plan.now)) }
{
    match item.verdict(rule, plan) {
        Ok(Ok(cost)) => format!(in heap; "cost {cost}\n"),
        Ok(Err(fault)) => format!(in heap; "{}\n", Faulted(fault)),
        Err(refusal) => format!(in heap; "{}\n", Refused(refusal)),
    }
}

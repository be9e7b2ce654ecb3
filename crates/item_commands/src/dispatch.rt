// From the words of `least` and `weigh` to their answer.
ghost use Rattle.std.specs.Prelude.{string_bytes};
ghost use Rattle.item_words.specs.Items.{item_words, plan_words};
ghost use Rattle.words.specs.Readings.{texts, Means};
ghost use Rattle.item_commands.specs.Printed.{least_answer, plan_answer, answer};

use crate::answers::{least_line, plan_line};
use crate::rules::named_rule;
use item::Item;
use item_words::{CommandError, Misuse, item_request, plan_request};
use std::alloc::Global;

// How the two verbs are used.
const USAGE: &str =
    "usage: lotaudit least RULE OPENING FORCED ROW...\n  RULE is 0 for the plain rule, 1 for the backlog rule.\n  OPENING is the stock at hand before the first period.\n  FORCED is - for none, or the forced periods, rising and joined by commas, as 0,2.\n  There is a ROW for each period: its setup, unit, hold and short prices and its demand, joined by commas, as 50,0,1,2,20.\n  The least cost of a plan is answered.\nusage: lotaudit weigh RULE OPENING FORCED ROW... plan LOT...\n  There is a LOT for each period: an amount, made with a setup; an amount with ! behind it, without one; or - for neither.\n  The cost of that plan is answered, or its first fault.\n";

fn least(heap: Global, words: &[String]) -> Result<String, CommandError>
    ensures { Means string_bytes result (least_answer (item_words (texts words.now))) }
{
    let request = item_request(heap, words)?;
    let (mut rule, header) = named_rule(request.header);
    let rows = request.rows.as_slice();
    let line = least_line(heap, &mut rule, &Item { header, rows })?;
    Ok(line)
}

fn weigh(heap: Global, words: &[String]) -> Result<String, CommandError>
    ensures { Means string_bytes result (plan_answer (plan_words (texts words.now))) }
{
    let request = plan_request(heap, words)?;
    let (mut rule, header) = named_rule(request.item.header);
    let rows = request.item.rows.as_slice();
    let line = plan_line(
        heap,
        &mut rule,
        &Item { header, rows },
        request.plan.as_slice(),
    )?;
    Ok(line)
}

// The text that answers a verb and the words of an item, or what is wrong with them.
pub fn run_item(heap: Global, words: &[String]) -> Result<String, CommandError>
    ensures { Means string_bytes result (answer (texts words.now)) }
{
    let [verb, rest @ ..] = words else {
        return Ok(String::from_str(heap, USAGE)?);
    };
    match verb.as_str() {
        "least" => least(heap, rest),
        "weigh" => weigh(heap, rest),
        _ => Err(Misuse::UnknownVerb.into()),
    }
}

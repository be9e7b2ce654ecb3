// From the program's words to its answer.
ghost use Rattle.std.specs.Prelude.{string_bytes};
ghost use Rattle.words.specs.Readings.{texts, Means};
ghost use Rattle.commands.specs.Meanings.{minute_words};
ghost use Rattle.commands.specs.Printed.{minute_answer, answer};

use crate::ledger::Refusal;
use crate::minute::Statement;
use crate::mistakes::{CommandError, Misuse};
use crate::requests::minute_request;
use std::alloc::Global;

// How the program is used, in full.
const USAGE: &str =
    "usage: lotaudit minute SCALE PRICE...\n  SCALE is a whole number from 1 to 1000.\n  There are 1 to 32 PRICEs, one for each period, each a whole number from 0 to 100000, in K-ths.\n  One minute of each period is charged at its price, then handed back.\n";

fn minute(heap: Global, words: &[String]) -> Result<String, CommandError>
    ensures { Means string_bytes result (minute_answer (minute_words (texts words.now))) }
{
    let request = minute_request(heap, words)?;
    match Statement::new(heap, request.scale, request.times.as_slice()) {
        Ok(statement) => Ok(statement.to_string(heap)?),
        Err(Refusal::Memory) => Err(CommandError::Memory),
        Err(Refusal::OutOfRange) => unreachable!(),
    }
}

// The text that answers the words after the program's name, or what is wrong with them.
pub fn run(heap: Global, words: &[String]) -> Result<String, CommandError>
    ensures { Means string_bytes result (answer (texts words.now)) }
{
    let [verb, rest @ ..] = words else {
        return Ok(String::from_str(heap, USAGE)?);
    };
    match verb.as_str() {
        "minute" => minute(heap, rest),
        _ => Err(Misuse::UnknownVerb.into()),
    }
}

// What the words of an item and of its plan mean.
ghost use Rattle.std.specs.Prelude.{◌≡◌, ◌<◌, ◌≤◌, length, IfSome, vec_items};
ghost use Rattle.std.specs.Option.{option_map};
ghost use Rattle.words.specs.Readings.{number_below, first_word, word_in};
ghost use Rattle.item_words.specs.Items.{fields, period_field, forced_fields, forced_word, price_field, price_in, row_word, lot_of, lot_word, header_words, row_words, lot_words, plan_place, item_words, plan_words, header_in, item_in, plan_in};
ghost use Rattle.words.specs.Readings.{texts, Means};

use crate::mistakes::{CommandError, Misuse};
use item::{Header, Lot, Row};
use std::alloc::Global;
use words::{first_word, number_word, read_each};

// What `least` was asked for: an item. It owns its rows, which an `Item` borrows.
#[derive(Drop)]
pub struct ItemRequest {
    pub header: Header,
    pub rows: Vec<Row>,
}

// What `weigh` was asked for: an item, and a plan for it.
#[derive(Drop)]
pub struct PlanRequest {
    pub item: ItemRequest,
    pub plan: Vec<Lot>,
}

// The period that a field writes: from `lowest` on, and with a bit in a forced set.
fn period_field(lowest: u32, field: &str) -> Option<u32>
    ensures means { result ≡ period_field lowest field.now }
    ensures within { IfSome result (λ p. (lowest ≤ p) × (p < 32)) }
{
    let period = number_word::<u32>(field)?;
    (lowest <= period && period < u32::BITS).then_some(period)
}

// The set of the periods between the commas, which rise.
fn forced_periods(word: &str) -> Option<u32>
    ensures { result ≡ forced_fields 0 (fields word.now) }
{
    let mut forced = 0;
    let mut lowest = 0;
    for field in word.split(',') {
        let period = period_field(lowest, field)?;
        forced |= 1 << period;
        lowest = period + 1;
    }
    Some(forced)
}

fn forced_word(word: &str) -> Option<u32>
    ensures { result ≡ forced_word word.now }
{
    if word == "-" {
        Some(0)
    } else {
        forced_periods(word)
    }
}

// The price before the first comma, and what follows that comma.
fn price_field(text: &str) -> Option<(u64, &str)>
    ensures { option_map price_in result ≡ price_field (fields text.now) }
{
    let (field, rest) = text.split_once(',')?;
    let price = number_word(field)?;
    Some((price, rest))
}

fn row_word(word: &str) -> Option<Row>
    ensures { result ≡ row_word word.now }
{
    let (setup, rest) = price_field(word)?;
    let (unit, rest) = price_field(rest)?;
    let (hold, rest) = price_field(rest)?;
    let (short, rest) = price_field(rest)?;
    let demand = number_word(rest)?;
    Some(Row {
        setup,
        unit,
        hold,
        short,
        demand,
    })
}

// A lot of this amount, with a setup beside it or without: a flag, as a lot has it.
fn lot_of(amount: &str, setup: bool) -> Option<Lot>
    ensures { result ≡ option_map (lot_of setup) (number_below 32 amount.now) }
{
    let amount = number_word(amount)?;
    Some(Lot { amount, setup })
}

fn lot_word(word: &str) -> Option<Lot>
    ensures { result ≡ lot_word word.now }
{
    if word == "-" {
        return Some(Lot {
            amount: 0,
            setup: false,
        });
    }
    match word.strip_suffix('!') {
        Some(amount) => lot_of(amount, false),
        None => lot_of(word, true),
    }
}

fn row_words(heap: Global, words: &[String]) -> Result<Vec<Row>, CommandError>
    ensures { Means vec_items result (row_words (texts words.now)) }
{
    read_each(heap, words, row_word, Misuse::BadRow)
}

fn lot_words(heap: Global, words: &[String]) -> Result<Vec<Lot>, CommandError>
    ensures { Means vec_items result (lot_words (texts words.now)) }
{
    read_each(heap, words, lot_word, Misuse::BadLot)
}

// Reads `RULE OPENING FORCED`, and answers the words after them too.
fn header_words(words: &[String]) -> Result<(Header, &[String]), CommandError>
    ensures { Means header_in result (header_words (texts words.now)) }
{
    let (rule, words) = first_word(words).ok_or(Misuse::NoRule)?;
    let rule = number_word(rule).ok_or(Misuse::BadRule)?;
    let (opening, words) = first_word(words).ok_or(Misuse::NoOpening)?;
    let opening = number_word(opening).ok_or(Misuse::BadOpening)?;
    let (forced, words) = first_word(words).ok_or(Misuse::NoForced)?;
    let forced = forced_word(forced).ok_or(Misuse::BadForced)?;
    let header = Header {
        rule,
        opening,
        forced,
    };
    Ok((header, words))
}

// Reads `RULE OPENING FORCED ROW...`.
pub fn item_request(heap: Global, words: &[String]) -> Result<ItemRequest, CommandError>
    ensures { Means item_in result (item_words (texts words.now)) }
{
    let (header, words) = header_words(words)?;
    let rows = row_words(heap, words)?;
    Ok(ItemRequest { header, rows })
}

// Where the first word `plan` stands.
fn plan_place(words: &[String]) -> Option<usize>
    ensures means { result ≡ plan_place (texts words.now) }
    ensures within { IfSome result (λ n. n < length words.now) }
{
    words.iter().position(|word| word.as_str() == "plan")
}

// Reads `RULE OPENING FORCED ROW... plan LOT...`.
pub fn plan_request(heap: Global, words: &[String]) -> Result<PlanRequest, CommandError>
    ensures { Means plan_in result (plan_words (texts words.now)) }
{
    let (header, words) = header_words(words)?;
    let place = plan_place(words).ok_or(Misuse::NoPlan)?;
    let rows = row_words(heap, &words[..place])?;
    let plan = lot_words(heap, &words[place + 1..])?;
    let item = ItemRequest { header, rows };
    Ok(PlanRequest { item, plan })
}

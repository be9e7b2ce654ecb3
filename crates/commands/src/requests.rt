// What the words of a command mean.
ghost use Rattle.std.specs.Prelude.{◌≡◌, ◌≤◌, length, IfOk, Some, vec_len};
ghost use Rattle.std.specs.Option.{option_map};
ghost use Rattle.money.specs.Postings.{worth};
ghost use Rattle.words.specs.Readings.{texts, Means};
ghost use Rattle.commands.specs.Meanings.{scale_word, price_word, minute_word, one_minute, price_words, minute_words, worths_in, request_in};

use crate::mistakes::{CommandError, Misuse};
use money::{CapacityPrice, Minutes, PricedTime, Scale};
use std::alloc::Global;
use words::{first_word, number_word, read_each};

// The most periods that a command takes.
const PERIODS: usize = 32;

// What `minute` was asked for: a scale, and each period's minute at its price.
#[derive(Drop)]
pub struct MinuteRequest {
    pub scale: Scale,
    pub times: Vec<PricedTime>,
}

fn scale_word(word: &str) -> Option<Scale>
    ensures { option_map (λ s. s.number) result ≡ scale_word word.now }
{
    Scale::new(number_word(word)?)
}

fn price_word(word: &str) -> Option<CapacityPrice>
    ensures { option_map (λ p. p.number) result ≡ price_word word.now }
{
    CapacityPrice::new(number_word(word)?)
}

// One minute at the price that a word writes.
fn minute_word(word: &str) -> Option<PricedTime>
    ensures { option_map worth result ≡ minute_word word.now }
{
    let price = price_word(word)?;
    let minutes = Minutes::one();
    Some(PricedTime { price, minutes })
}

// One minute at each word's price.
fn one_minute_each(heap: Global, words: &[String]) -> Result<Vec<PricedTime>, CommandError>
    ensures means { Means worths_in result (one_minute (texts words.now)) }
    ensures len { IfOk result (λ v. vec_len v ≡ length words.now) }
{
    read_each(heap, words, minute_word, Misuse::BadPrice)
}

// The prices after a scale: 1 to 32 of them.
fn price_words(heap: Global, scale: Scale, words: &[String]) -> Result<MinuteRequest, CommandError>
    ensures means { Means request_in result (price_words (Some scale.number) (texts words.now)) }
    ensures few { IfOk result (λ q. vec_len q.times ≤ 32) }
{
    // Two guards on a number of words: there is no `Option` to take.
    if words.is_empty() {
        return Err(Misuse::NoPrice.into());
    }
    if words.len() > PERIODS {
        return Err(Misuse::TooManyPrices.into());
    }
    let times = one_minute_each(heap, words)?;
    Ok(MinuteRequest { scale, times })
}

// Reads `SCALE PRICE...`.
pub fn minute_request(heap: Global, words: &[String]) -> Result<MinuteRequest, CommandError>
    ensures means { Means request_in result (minute_words (texts words.now)) }
    ensures few { IfOk result (λ q. vec_len q.times ≤ 32) }
{
    let (scale, prices) = first_word(words).ok_or(Misuse::NoScale)?;
    let scale = scale_word(scale).ok_or(Misuse::BadScale)?;
    price_words(heap, scale, prices)
}

// Words that write one number.
ghost use Rattle.std.specs.Prelude.{◌≡◌, ℕ, List, Result};
ghost use Rattle.std.specs.Option.{option_map};
ghost use Rattle.std.specs.Result.{result_ok};
ghost use Rattle.words.specs.Readings.{number_below};
ghost use Rattle.words.specs.Parsed.{parsed};

use std::str::FromStr;

// A type of number that a word may write.
pub trait Number: FromStr {
    // It holds the numbers of at most so many bits.
    ghost bits: { ℕ };

    // The number that it holds.
    ghost count: { Self → ℕ };

    // A word is parsed as the number that it writes, if that has no more bits.
    ghost reads: { (word : List ℕ) (r : Result Self Self.Err) → Self.FromStr.from_str_gives word r → option_map count (result_ok r) ≡ number_below bits word };
}

impl Number for u8 {
    ghost bits = { 8 };

    ghost count = { λ n. n };

    ghost reads = { λ word r gives. parsed 8 word r gives.0 };
}

impl Number for u32 {
    ghost bits = { 32 };

    ghost count = { λ n. n };

    ghost reads = { λ word r gives. parsed 32 word r gives.0 };
}

impl Number for u64 {
    ghost bits = { 64 };

    ghost count = { λ n. n };

    ghost reads = { λ word r gives. parsed 64 word r gives.0 };
}

// The number that a word writes.
pub fn number_word<N: Number>(word: &str) -> Option<N>
where
    N::Err: Drop,
    ensures { option_map N.count result ≡ number_below N.bits word.now }
{
    word.parse::<N>().ok()
}

// What is wrong with the words of an item.
ghost use Rattle.std.specs.Prelude.{◌≡◌, Some, refl};
ghost use Rattle.item_words.specs.Mistakes.{misuse_text, usage_hint};

use std::fmt;
use words::Mistake;

#[derive(Clone, Copy, Debug, PartialEq, Eq)]
pub enum Misuse {
    UnknownVerb,
    NoRule,
    BadRule,
    NoOpening,
    BadOpening,
    NoForced,
    BadForced,
    BadRow(usize),
    NoPlan,
    BadLot(usize),
}

// Want of memory, or one of these mistakes.
pub type CommandError = words::CommandError<Misuse>;

impl Mistake for Misuse {
    ghost text = { misuse_text };

    ghost prints = { λ m. refl };

    ghost usage = { usage_hint };

    fn usage(&self) -> &'static str {
        "run lotaudit alone for its usage"
    }
}

impl fmt::Display for Misuse {
    ghost output = { λ m. Some (misuse_text m) };

    fn fmt<W: fmt::Write>(&self, f: &mut fmt::Formatter<W>) -> fmt::Result {
        match *self {
            Misuse::UnknownVerb => write!(f, "the verb is not known"),
            Misuse::NoRule => write!(f, "the rule is missing"),
            Misuse::BadRule => write!(f, "the rule is not a whole number from 0 to 255"),
            Misuse::NoOpening => write!(f, "the opening stock is missing"),
            Misuse::BadOpening => write!(
                f,
                "the opening stock is not a whole number from 0 to 4294967295"
            ),
            Misuse::NoForced => write!(f, "the forced periods are missing"),
            Misuse::BadForced => write!(
                f,
                "the forced periods are neither - nor periods from 0 to 31, rising and joined by commas"
            ),
            Misuse::BadRow(period) => write!(
                f,
                "the row of period {period} is not five whole numbers joined by commas"
            ),
            Misuse::NoPlan => write!(f, "the word plan is missing"),
            Misuse::BadLot(period) => write!(
                f,
                "the lot of period {period} is neither - nor an amount, with or without ! behind it"
            ),
        }
    }
}

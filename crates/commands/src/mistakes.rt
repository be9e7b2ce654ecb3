// What is wrong with the words of a command.
ghost use Rattle.std.specs.Prelude.{◌≡◌, Some, refl};
ghost use Rattle.commands.specs.Mistakes.{misuse_text, usage_line};

use std::fmt;
use words::Mistake;

#[derive(Clone, Copy, Debug, PartialEq, Eq)]
pub enum Misuse {
    UnknownVerb,
    NoScale,
    BadScale,
    NoPrice,
    TooManyPrices,
    BadPrice(usize),
}

// Want of memory, or one of these mistakes.
pub type CommandError = words::CommandError<Misuse>;

impl Mistake for Misuse {
    ghost text = { misuse_text };

    ghost prints = { λ m. refl };

    ghost usage = { usage_line };

    fn usage(&self) -> &'static str {
        "usage: lotaudit minute SCALE PRICE..."
    }
}

impl fmt::Display for Misuse {
    ghost output = { λ m. Some (misuse_text m) };

    fn fmt<W: fmt::Write>(&self, f: &mut fmt::Formatter<W>) -> fmt::Result {
        match *self {
            Misuse::UnknownVerb => write!(f, "the verb is not known"),
            Misuse::NoScale => write!(f, "the scale is missing"),
            Misuse::BadScale => write!(f, "the scale is not a whole number from 1 to 1000"),
            Misuse::NoPrice => write!(f, "the prices are missing"),
            Misuse::TooManyPrices => write!(f, "there are more than 32 prices"),
            Misuse::BadPrice(period) => write!(
                f,
                "the price of period {period} is not a whole number from 0 to 100000"
            ),
        }
    }
}

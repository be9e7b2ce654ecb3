// The causes of a base rule's faults, their numbers and their words.
ghost use Rattle.std.specs.Prelude.{◌≡◌, Some};
ghost use Rattle.base_rules.specs.Causes.{cause_number, cause_numbered, cause_text, unknown_text};

use std::error::Error;
use std::fmt;

// Why a base rule does not admit a plan.
#[derive(Clone, Copy, Debug, PartialEq, Eq)]
pub enum Cause {
    NoSetup = 1,
    BelowZero = 2,
    BelowZeroAtTheEnd = 3,
}

// A number that is no cause's.
#[derive(Clone, Copy, Debug, PartialEq, Eq)]
pub struct UnknownCause(pub u8);

impl From<Cause> for u8 {
    ghost from_gives = { λ cause n. n ≡ cause_number cause };

    fn from(cause: Cause) -> u8 {
        cause as u8
    }
}

impl TryFrom<u8> for Cause {
    type Error = UnknownCause;

    ghost try_from_gives = { λ n r. r ≡ cause_numbered n };

    fn try_from(n: u8) -> Result<Cause, UnknownCause> {
        match n {
            1 => Ok(Cause::NoSetup),
            2 => Ok(Cause::BelowZero),
            3 => Ok(Cause::BelowZeroAtTheEnd),
            _ => Err(UnknownCause(n)),
        }
    }
}

impl fmt::Display for Cause {
    ghost output = { λ c. Some (cause_text c) };

    fn fmt<W: fmt::Write>(&self, f: &mut fmt::Formatter<W>) -> fmt::Result {
        match *self {
            Cause::NoSetup => write!(f, "an amount without a setup"),
            Cause::BelowZero => write!(f, "stock below zero"),
            Cause::BelowZeroAtTheEnd => write!(f, "stock below zero after the last row"),
        }
    }
}

impl fmt::Display for UnknownCause {
    ghost output = { λ u. Some (unknown_text u) };

    fn fmt<W: fmt::Write>(&self, f: &mut fmt::Formatter<W>) -> fmt::Result {
        write!(f, "{} is no cause of a fault", self.0)
    }
}

impl Error for UnknownCause {}

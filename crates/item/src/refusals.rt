// A refusal's number and words.
ghost use Rattle.std.specs.Prelude.{◌≡◌, Some};
ghost use Rattle.item.specs.Refusals.{refusal_number, refusal_text};

use crate::records::Refusal;
use std::fmt;

impl Refusal {
    pub fn number(self) -> u8
        ensures { result ≡ refusal_number self }
    {
        self as u8
    }
}

impl fmt::Display for Refusal {
    ghost output = { λ r. Some (refusal_text r) };

    fn fmt<W: fmt::Write>(&self, f: &mut fmt::Formatter<W>) -> fmt::Result {
        match *self {
            Refusal::HeaderNotKnown => write!(f, "the header is not known"),
            Refusal::CostTooHigh => write!(f, "the cost is above 10^17"),
            Refusal::NotOpened => write!(f, "no header was opened"),
            Refusal::RowTooLarge => write!(f, "a row is too large"),
            Refusal::TooManyRows => write!(f, "32 rows were told already"),
            Refusal::PlanDoesNotFit => write!(f, "the plan does not fit"),
        }
    }
}

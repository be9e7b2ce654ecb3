// The two kinds of base rule.
ghost use Rattle.std.specs.Prelude.{◌≡◌};
ghost use Rattle.base_rules.specs.Verdicts.{shortage};

use crate::causes::Cause;

// How far stock may fall.
#[derive(Clone, Copy, Debug, PartialEq, Eq)]
pub enum Kind {
    // Stock is never below zero.
    Plain,
    // Stock is not below zero after the last row.
    Backlog,
}

impl Kind {
    // The cause of a fault for stock below zero.
    pub(crate) fn shortage(self) -> Cause
        ensures { result ≡ shortage self }
    {
        match self {
            Kind::Plain => Cause::BelowZero,
            Kind::Backlog => Cause::BelowZeroAtTheEnd,
        }
    }
}

// The rows that a base rule was told.
ghost use Rattle.std.specs.Prelude.{◌≡◌, ◌≤◌, true, length};
ghost use Rattle.item.specs.Limits.{rows_within};
ghost use Rattle.item.specs.Tables.{rows_of};

use crate::kinds::Kind;
use item::{Opened, Row};

mod programme;
mod weighing;

// Rows that were told, and the kind of rule that they were told to.
#[derive(Clone, Copy)]
pub(crate) struct Problem<'a> {
    kind: Kind,
    rows: &'a [Row],
    ghost few: { length rows.now ≤ 32 },
    ghost within: { rows_within rows.now ≡ true },
}

impl Problem<'_> {
    pub(crate) fn new(kind: Kind, opened: &Opened) -> Problem<'_>
        ensures kind { result.kind ≡ kind }
        ensures rows { result.rows.now ≡ rows_of opened.now }
    {
        Problem {
            kind,
            rows: opened.rows(),
        }
    }
}

// The header opened and the rows told since, in a table of fixed size.
ghost use Rattle.std.specs.Prelude.{◌≡◌, ◌≤◌, true, length};
ghost use Rattle.item.specs.Limits.{rows_within};

use crate::limits::MOST_ROWS;
use crate::records::{Header, Row};
use arrayvec::ArrayVec;

mod telling;

// The header opened, and the rows told since.
#[derive(Drop)]
pub struct Opened {
    header: Header,
    rows: ArrayVec<Row, MOST_ROWS>,
    ghost few: { length rows.items ≤ 32 },
    ghost within: { rows_within rows.items ≡ true },
}

// Every rule keeps one of these. It never asks for memory, so a call is refused for its own causes alone.
#[derive(Drop)]
pub struct RowTable {
    opened: Option<Opened>,
}

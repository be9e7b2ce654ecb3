// Opening a header and telling rows.
ghost use Rattle.std.specs.Prelude.{◌≡◌, []};
ghost use Rattle.item.specs.Calls.{tell_answer, held_after_tell};
ghost use Rattle.item.specs.Meanings.{unopened, opened};
ghost use Rattle.item.specs.Tables.{rows_of, held_of, held_in, referred, opened_answer};

use crate::records::{Header, Refusal, Row};
use crate::tables::{Opened, RowTable};
use arrayvec::ArrayVec;

impl RowTable {
    pub fn new() -> RowTable
        ensures { held_in result ≡ unopened }
    {
        RowTable { opened: None }
    }

    // Holds the header with no rows, whatever was held. One that was opened before is emptied in place.
    pub fn open(&mut self, header: Header)
        ensures { held_in self.new ≡ opened header [] }
    {
        match &mut self.opened {
            Some(opened) => {
                opened.header = header;
                opened.rows.clear();
            }
            None => {
                let rows = ArrayVec::new();
                self.opened = Some(Opened { header, rows });
            }
        }
    }

    // Adds a row, unless it is refused.
    pub fn tell(&mut self, row: Row) -> Result<(), Refusal>
        ensures says { result ≡ tell_answer row (held_in self.old) }
        ensures holds { held_in self.new ≡ held_after_tell row (held_in self.old) }
    {
        self.opened.as_mut().ok_or(Refusal::NotOpened)?.tell(row)
    }

    // What was opened, or the refusal of a call before an opening.
    pub fn opened(&self) -> Result<&Opened, Refusal>
        ensures { referred result ≡ opened_answer self.now }
    {
        self.opened.as_ref().ok_or(Refusal::NotOpened)
    }
}

impl Opened {
    fn tell(&mut self, row: Row) -> Result<(), Refusal>
        ensures says { result ≡ tell_answer row (held_of self.old) }
        ensures holds { held_of self.new ≡ held_after_tell row (held_of self.old) }
    {
        if !row.is_within_limits() {
            return Err(Refusal::RowTooLarge);
        }
        self.rows.try_push(row).map_err(|_| Refusal::TooManyRows)
    }

    pub fn header(&self) -> Header
        ensures { result ≡ self.now.header }
    {
        self.header
    }

    // The rows told since.
    pub fn rows(&self) -> &[Row]
        ensures { result.now ≡ rows_of self.now }
    {
        self.rows.as_slice()
    }
}

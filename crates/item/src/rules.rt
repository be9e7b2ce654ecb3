// The interface of an item rule.
ghost use Rattle.std.specs.Prelude.{◌≡◌};
ghost use Rattle.item.specs.Calls.{ProperHeld, open_answer, held_after_open, tell_answer, held_after_tell, weigh_answer, least_answer};
ghost use Rattle.item.specs.Laws.{Laws};
ghost use Rattle.item.specs.Meanings.{Meaning, Held};

use crate::records::{Header, Lot, Refusal, Row, Verdict};

// A rule knows headers, is told rows, weighs plans and names the least cost.
pub trait ItemRule {
    // Which headers it knows, and its verdicts. No call changes it: a clause says so, since no type can.
    ghost meaning: { Self → Meaning };

    // The header opened and the rows told since. Only opening and telling change it.
    ghost held: { Self → Held };

    fn open(&mut self, header: Header) -> Result<(), Refusal>
        ensures says { result ≡ open_answer (meaning self.old) header }
        ensures holds { held self.new ≡ held_after_open (meaning self.old) header (held self.old) }
        ensures same { meaning self.new ≡ meaning self.old };

    fn tell(&mut self, row: Row) -> Result<(), Refusal>
        ensures says { result ≡ tell_answer row (held self.old) }
        ensures holds { held self.new ≡ held_after_tell row (held self.old) }
        ensures same { meaning self.new ≡ meaning self.old };

    fn weigh(&self, plan: &[Lot]) -> Result<Verdict, Refusal>
        ensures { result ≡ weigh_answer (meaning self.now) plan.now (held self.now) };

    fn least(&self) -> Result<u64, Refusal>
        ensures { result ≡ least_answer (meaning self.now) (held self.now) };

    ghost proper: { (x : Self) → ProperHeld (meaning x) (held x) };

    ghost lawful: { (x : Self) → Laws (meaning x) };
}

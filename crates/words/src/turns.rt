// Words that are read in turn.
ghost use Rattle.std.specs.Prelude.{◌≡◌, length, IfOk, vec_len};
ghost use Rattle.std.specs.Fn.{FnReturnsAt};
ghost use Rattle.words.specs.Readings.{texts};
ghost use Rattle.words.specs.Turns.{EachRead};

use crate::errors::CommandError;
use std::alloc::Global;

// Reads each word, or says what is wrong with the first that does not read, by its place.
pub fn read_each<T: Drop, M: Drop, R: Fn(&str) -> Option<T>, B: Fn(usize) -> M>(
    heap: Global,
    words: &[String],
    read: R,
    bad: B,
) -> Result<Vec<T>, CommandError<M>>
    requires read { R.IsAlwaysCallable read }
    requires bad { B.IsAlwaysCallable bad }
    ensures each { EachRead (FnReturnsAt R.Fn read) (B.post bad) (texts words.now) result }
    ensures len { IfOk result (λ v. vec_len v ≡ length words.now) }
{
    let mut all = Vec::new(heap);
    for (place, word) in words.iter().enumerate() {
        // A `let .. else` in a loop: `ok_or_else` was tried, and a proof can not reach what its closure over `bad` answers;
        // `map` and `try_collect` would hide it in the same way.
        let Some(one) = read(word.as_str()) else {
            return Err(CommandError::Misused(bad(place)));
        };
        all.push(one)?;
    }
    Ok(all)
}

// Why a command was not carried out.
ghost use Rattle.std.specs.Prelude.{◌≡◌, ℕ, List, Some};
ghost use Rattle.words.specs.declared.errors.CommandError.TheVariants.{Memory, Misused};
ghost use Rattle.words.specs.Mistakes.{error_text};

use std::alloc::{AllocError, AllocFailed};
use std::fmt;

// What may be wrong with the words of a command.
pub trait Mistake: fmt::Display {
    // Where the command's usage is found.
    ghost usage: { List ℕ };

    // The mistake in words.
    ghost text: { Self → List ℕ };

    fn usage(&self) -> &'static str
        ensures { result.now ≡ usage };

    // That is what it prints.
    ghost prints: { (m : Self) → Self.Display.output m ≡ Some (text m) };
}

// Want of memory, or a mistake in the command's words. (No `Option` of a mistake: want of memory is an error with words of
// its own.)
#[derive(Clone, Copy, Debug, PartialEq, Eq)]
pub enum CommandError<M> {
    Memory,
    Misused(M),
}

impl<M: Drop> From<AllocError> for CommandError<M> {
    ghost from_gives = { λ _ r. r ≡ Memory };

    fn from(_e: AllocError) -> CommandError<M> {
        CommandError::Memory
    }
}

impl<M: Drop, T: Drop> From<AllocFailed<T>> for CommandError<M> {
    ghost from_gives = { λ _ r. r ≡ Memory };

    fn from(_e: AllocFailed<T>) -> CommandError<M> {
        CommandError::Memory
    }
}

impl<M: Mistake> From<M> for CommandError<M> {
    ghost from_gives = { λ m r. r ≡ Misused m };

    fn from(misuse: M) -> CommandError<M> {
        CommandError::Misused(misuse)
    }
}

impl<M: Mistake> fmt::Display for CommandError<M> {
    ghost output = { λ e. Some (error_text M.text M.usage e) };

    fn fmt<W: fmt::Write>(&self, f: &mut fmt::Formatter<W>) -> fmt::Result {
        match self {
            CommandError::Memory => write!(f, "there is not enough memory"),
            CommandError::Misused(mistake) => {
                let usage = mistake.usage();
                write!(f, "{mistake}; {usage}")
            }
        }
    }
}

// What keeps a gate from being made, or from answering.
ghost use Rattle.gates.specs.Troubles.{text_of};
ghost use Rattle.gates.specs.declared.troubles.Trouble.TheVariants.{NoMemory, ShortMemory};
ghost use Rattle.std.specs.Prelude.{◌≡◌, Some};

use sheets::checking;
use std::alloc::{AllocError, AllocFailed};
use std::fmt;

// Why there is no gate, or no answer.
#[derive(Clone, Copy, Debug, PartialEq, Eq)]
pub enum Trouble {
    // there is no house of this number
    UnknownHouse,
    // memory can't be had
    NoMemory,
    // the lent memory is too short
    ShortMemory,
}

// The conversions and the text are written out: those of thiserror's derive promise neither which trouble it is nor what is told.
impl From<AllocError> for Trouble {
    ghost from_gives = { λ _ trouble. trouble ≡ NoMemory };

    fn from(_error: AllocError) -> Trouble {
        Trouble::NoMemory
    }
}

impl<T: Drop> From<AllocFailed<T>> for Trouble {
    ghost from_gives = { λ _ trouble. trouble ≡ NoMemory };

    fn from(_refused: AllocFailed<T>) -> Trouble {
        Trouble::NoMemory
    }
}

impl From<checking::ShortMemory> for Trouble {
    ghost from_gives = { λ _ trouble. trouble ≡ ShortMemory };

    fn from(_short: checking::ShortMemory) -> Trouble {
        Trouble::ShortMemory
    }
}

impl fmt::Display for Trouble {
    ghost output = { λ trouble. Some (text_of trouble) };

    fn fmt<W: fmt::Write>(&self, f: &mut fmt::Formatter<W>) -> fmt::Result {
        match self {
            Trouble::UnknownHouse => write!(f, "no house has this number"),
            Trouble::NoMemory => write!(f, "out of memory"),
            Trouble::ShortMemory => write!(f, "the lent memory is too short"),
        }
    }
}

// With it, `?` makes a message of a trouble.
impl std::error::Error for Trouble {}

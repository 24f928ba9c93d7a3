// Errors of the crates below, as reasons why no sheet was written. By hand: a derived `From` doesn't promise which case it gives.
ghost use Rattle.finding.specs.Asking.{unsearched_of};
ghost use Rattle.finding.specs.declared.sheets_found.Unfound.TheVariants.{NoMemory};
ghost use Rattle.std.specs.Prelude.{◌≡◌};

use crate::sheets_found::Unfound;
use finding_lines::lines::Trouble;
use std::alloc::{AllocError, AllocFailed};

// Why no lines were looked for.
impl From<Trouble> for Unfound {
    ghost from_gives = { λ trouble unfound. unfound ≡ unsearched_of trouble };

    fn from(trouble: Trouble) -> Unfound {
        match trouble {
            Trouble::NoMemory => Unfound::NoMemory,
            Trouble::WrongSize => Unfound::WrongSize,
            Trouble::OutOfRange => Unfound::OutOfRange,
        }
    }
}

impl From<AllocError> for Unfound {
    ghost from_gives = { λ _ unfound. unfound ≡ NoMemory };

    fn from(_error: AllocError) -> Unfound {
        Unfound::NoMemory
    }
}

impl<T: Drop> From<AllocFailed<T>> for Unfound {
    ghost from_gives = { λ _ unfound. unfound ≡ NoMemory };

    fn from(_refused: AllocFailed<T>) -> Unfound {
        Unfound::NoMemory
    }
}

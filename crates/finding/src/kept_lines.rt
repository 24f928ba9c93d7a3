// The lines of a sheet, as they lie among all that were found.
ghost use Rattle.std.specs.Prelude.{◌≡◌, ◌≤◌, vec_len};

use finding_turns::found::Found;

// All lines that were found, and which of them are kept. The marks lie beside the lines, since room for them is reserved before any line is found.
#[derive(Drop)]
pub(crate) struct KeptLines {
    pub(crate) found: Vec<Found>,
    pub(crate) marks: Vec<bool>,
    // there is a mark for each line
    ghost as_many: { vec_len marks ≡ vec_len found },
    // a head tells how many lines follow by a number of 32 bits
    ghost few: { vec_len found ≤ 1048576 },
}

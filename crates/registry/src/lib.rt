// The certificates that came, by number, with an index of the names that they state.
#![tactic(auto)]

ghost use Rattle.std.specs.Prelude.{◌≡◌, ◌≤◌, true, vec_len, vec_capacity};
ghost use Rattle.registry.specs.Index.{OfHouses, Starts, Indexes};
ghost use Rattle.registry.specs.Keeping.{all_in_range};

use certificates::Certificate;

mod adding;
pub mod certificates_by_number;
mod entries;
pub mod rows;

// The most certificates that ever come; room for them is reserved at the start.
pub const MOST_CERTIFICATES: usize = 1024;

// A name that some certificate states, and its row: the number of the first certificate by which that house states it.
#[derive(Clone, Copy)]
pub(crate) struct Entry {
    house: u16,
    name: u16,
    row: u16,
}

// The entries, and where those of each house start, so that a name is looked for among those of its house alone.
#[derive(Drop)]
pub(crate) struct Index {
    // Rising by house and name, no two alike. A sorted list and no map: a certificate that comes is entered without
    // allocating, in room that was reserved at the start.
    entries: Vec<Entry>,
    // By blocks of 32 houses: how many entries are of lower blocks. A new name moves no more than 32 of these and 31 of `starts`.
    blocks: Vec<u16>,
    // By house, and once more behind the last: how many entries are of lower houses of its block.
    // Lists and no arrays, since a gate, which holds them, goes by value.
    starts: Vec<u16>,
    ghost few: { vec_len entries ≤ 1024 },
    ghost space: { 1024 ≤ vec_capacity entries },
    ghost houses: { OfHouses entries.items },
    ghost parted: { vec_len blocks ≡ 33 },
    ghost whole: { vec_len starts ≡ 1025 },
    ghost started: { Starts blocks.items starts.items entries.items },
}

#[derive(Drop)]
pub struct Registry {
    // by number; those taken back keep their number and are valid on no day
    certificates: Vec<Certificate>,
    index: Index,
    ghost sound: { all_in_range certificates.items ≡ true },
    ghost few: { vec_len certificates ≤ 1024 },
    ghost room: { 1024 ≤ vec_capacity certificates },
    ghost indexed: { Indexes index.entries.items certificates.items },
    // no more names than certificates, so there is room for each
    ghost fewer: { vec_len index.entries ≤ vec_len certificates },
}

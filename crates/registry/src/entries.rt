// The names that certificates state, in order, and where those of each house start.
ghost use Rattle.std.specs.Prelude.{◌≡◌, ℕ, ◌+◌, ◌<◌, ◌≤◌, [], length, vec_len, vec_capacity, slice_index, IfOk};
ghost use Rattle.registry.specs.Index.{Place, HouseStart, one_more};
ghost use Rattle.std.specs.List.{insert};

use crate::{Entry, Index, MOST_CERTIFICATES};
use certificates::HOUSES;
use std::alloc::{AllocError, Global};

// How many houses are a block.
const BLOCK: usize = 32;

// How many blocks there are, with the one of the house behind the last.
const BLOCKS: usize = HOUSES / BLOCK + 1;

// The numbers from one place to before another are one more.
fn add_one(numbers: &mut Vec<u16>, from: usize, to: usize)
    requires within { to ≤ vec_len numbers.old }
    requires small { (i : ℕ) → i < to → slice_index numbers.old.items i ≤ 1024 }
    ensures len { vec_len numbers.new ≡ vec_len numbers.old }
    ensures items { (i : ℕ) → slice_index numbers.new.items i ≡ one_more from to i (slice_index numbers.old.items i) }
{
    // By place: behind `skip` a proof knows nothing of what is in the list.
    for place in from..to {
        numbers[place] += 1;
    }
}

// An entry comes, at its place, into a list that has room for it.
// Pushed, and then rotated to its place: this compiles to one `memmove`, but `insert` to a loop over those behind it.
fn insert_at(entries: &mut Vec<Entry>, place: usize, entry: Entry)
    requires place { place ≤ vec_len entries.old }
    requires room { vec_len entries.old < vec_capacity entries.old }
    ensures items { entries.new.items ≡ insert entries.old.items place entry }
    ensures len { vec_len entries.new ≡ vec_len entries.old + 1 }
    ensures capacity { vec_capacity entries.new ≡ vec_capacity entries.old }
{
    entries.push_reserved(entry);
    entries[place..].rotate_right(1);
}

impl Index {
    // No entries yet, and room for as many as certificates.
    #[tactic(auto, using(crate::proofs::Starts::no_starts))]
    pub(crate) fn new(heap: Global) -> Result<Index, AllocError>
        ensures { IfOk result (λ index. index.entries.items ≡ []) }
    {
        let entries = Vec::with_capacity(heap, MOST_CERTIFICATES)?;
        let blocks = vec![in heap; 0u16; BLOCKS]?;
        let starts = vec![in heap; 0u16; HOUSES + 1]?;
        Ok(Index {
            entries,
            blocks,
            starts,
        })
    }

    // Where the entries of a house start; behind all entries for a house that there is not.
    #[tactic(auto, using(crate::proofs::Starts::behind_all))]
    fn start_of(&self, house: usize) -> usize
        ensures { HouseStart self.now.entries.items house result }
    {
        match (self.blocks.get(house / BLOCK), self.starts.get(house)) {
            (Some(block), Some(start)) => usize::from(*block) + usize::from(*start),
            _ => self.entries.len(),
        }
    }

    // Where the entries of a house start, and where those of the next do.
    pub(crate) fn entries_of(&self, house: u16) -> (usize, usize)
        ensures { HouseStart self.now.entries.items house result.0 × HouseStart self.now.entries.items (house + 1) result.1 }
    {
        let house = usize::from(house);
        (self.start_of(house), self.start_of(house + 1))
    }

    // An entry comes, at its place.
    pub(crate) fn enter(&mut self, place: usize, entry: Entry)
        requires place { Place self.old.entries.items entry.house entry.name place }
        requires house { entry.house < 1024 }
        requires few { vec_len self.old.entries < 1024 }
        ensures { self.new.entries.items ≡ insert self.old.entries.items place entry }
    {
        // those of higher houses start one place later: in its own block, and all higher blocks
        let house = usize::from(entry.house);
        let next = house / BLOCK + 1;
        add_one(&mut self.starts, house + 1, next * BLOCK);
        add_one(&mut self.blocks, next, BLOCKS);
        // room for as many names as certificates is reserved
        insert_at(&mut self.entries, place, entry);
    }
}

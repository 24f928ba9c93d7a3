// A value put into its place in lent memory.
ghost use Rattle.std.specs.Prelude.{◌≡◌, slice_set};

// Puts a value into its place; where there is none, nothing changes.
#[tactic(auto, using(std::proofs::lemmas::List::set_past))]
pub fn put<T: Copy>(items: &mut [T], place: usize, item: T)
    ensures { items.new ≡ slice_set items.old place item }
{
    // By place: after `get_mut` a proof knows a slice's length, but not what is in it.
    if place < items.len() {
        items[place] = item;
    }
}

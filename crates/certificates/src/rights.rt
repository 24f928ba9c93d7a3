// Sets of rights: rights are numbered from 0 to 63, and bit r of a `u64` says whether right r is in the set.
// A number and not a type of its own: a set is tested by a mask, as it stands in the bytes.
ghost use Rattle.std.specs.Prelude.{◌≡◌};
ghost use Rattle.certificates.specs.Rights.{member};

// Rights are numbered from 0 to this one.
pub const LAST_RIGHT: u8 = 63;

// Whether `right` is in the set; a number above 63 is no right, and in no set.
#[tactic(auto, using(crate::proofs::Bits::past_last, crate::proofs::Bits::masked))]
pub fn contains(set: u64, right: u8) -> bool
    ensures { result ≡ member right set }
{
    right <= LAST_RIGHT && set & 1 << right != 0
}

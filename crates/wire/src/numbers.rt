// Numbers as bytes, high byte first. A reader's answer is taken apart by `let .. else`, a rule of the project.
ghost use Rattle.std.specs.Prelude.{◌≡◌, ℕ, ◌≤◌, length, take};
ghost use Rattle.std.proofs.Common.{arith};
ghost use Rattle.std.specs.Int.Digits.{number_from_digits};
ghost use Rattle.wire.specs.Numbers.{bytes, take_number, take_numbers, keep_six, and_then, split, split_by};

use crate::places::put;

// A number of so many bytes, high byte first.
pub trait Number<const BYTES: usize>: Copy {
    // its value
    ghost value: { Self → ℕ };

    fn from_be_bytes(bytes: &[u8; BYTES]) -> Self
        ensures { value result ≡ number_from_digits 256 bytes.now };

    fn to_be_bytes(self) -> [u8; BYTES]
        ensures { result ≡ bytes BYTES (value self) };

    // what each `impl` must prove: an array of its bytes fits into memory
    ghost few_bytes: { BYTES ≤ 8 };
}

impl Number<1> for u8 {
    ghost value = { λ n. n };

    fn from_be_bytes(bytes: &[u8; 1]) -> u8 {
        u8::from_be_bytes(*bytes)
    }

    #[tactic(auto, using(crate::proofs::BigEndian::bytes_be))]
    fn to_be_bytes(self) -> [u8; 1] {
        u8::to_be_bytes(self)
    }

    ghost few_bytes = { omega arith };
}

impl Number<2> for u16 {
    ghost value = { λ n. n };

    fn from_be_bytes(bytes: &[u8; 2]) -> u16 {
        u16::from_be_bytes(*bytes)
    }

    #[tactic(auto, using(crate::proofs::BigEndian::bytes_be))]
    fn to_be_bytes(self) -> [u8; 2] {
        u16::to_be_bytes(self)
    }

    ghost few_bytes = { omega arith };
}

impl Number<4> for u32 {
    ghost value = { λ n. n };

    fn from_be_bytes(bytes: &[u8; 4]) -> u32 {
        u32::from_be_bytes(*bytes)
    }

    #[tactic(auto, using(crate::proofs::BigEndian::bytes_be))]
    fn to_be_bytes(self) -> [u8; 4] {
        u32::to_be_bytes(self)
    }

    ghost few_bytes = { omega arith };
}

impl Number<8> for u64 {
    ghost value = { λ n. n };

    fn from_be_bytes(bytes: &[u8; 8]) -> u64 {
        u64::from_be_bytes(*bytes)
    }

    #[tactic(auto, using(crate::proofs::BigEndian::bytes_be))]
    fn to_be_bytes(self) -> [u8; 8] {
        u64::to_be_bytes(self)
    }

    ghost few_bytes = { omega arith };
}

// The next bytes as a number, and what follows them; `None` where there are too few.
pub fn read<N: Number<BYTES>, const BYTES: usize>(bytes: &[u8]) -> Option<(N, &[u8])>
    ensures { split_by N.value result ≡ take_number BYTES bytes.now }
{
    let Some((front, rest)) = bytes.split_first_chunk::<BYTES>() else {
        return None;
    };
    Some((N::from_be_bytes(front), rest))
}

// At most six numbers of two bytes each, with zeros behind them.
// An array and no `Vec`: what is read is copied, so reading asks for no memory. How many count is told by what they stand for.
#[derive(Clone, Copy)]
pub struct Six {
    pub numbers: [u16; 6],
}

impl Six {
    // The first of them, as many as `count` says; all six where it says more.
    #[tactic(auto, using(std::proofs::lemmas::List::take_min))]
    pub fn front(&self, count: u8) -> &[u16]
        ensures value { result.now ≡ take count self.now.numbers }
        ensures few { length result.now ≤ 6 }
    {
        &self.numbers[..usize::from(count).min(self.numbers.len())]
    }
}

// As many numbers of two bytes as `count` says, and what follows them; those past the sixth are walked over.
#[tactic(auto, using(crate::proofs::Sixes::each_number))]
pub fn read_u16s(count: u8, bytes: &[u8]) -> Option<(Six, &[u8])>
    ensures { split result ≡ and_then (take_numbers count bytes.now) keep_six }
{
    let mut numbers = [0; 6];
    let mut rest = bytes;
    // By place: more numbers may come than there are places for.
    for place in 0..usize::from(count) {
        let Some((number, behind)) = read::<u16, 2>(rest) else {
            return None;
        };
        put(&mut numbers, place, number);
        rest = behind;
    }
    Some((Six { numbers }, rest))
}

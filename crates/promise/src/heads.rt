// Heads of requests: who asks, and for what.
ghost use Rattle.promise.specs.Happened.{is_request};
ghost use Rattle.promise.specs.Requests.{question_of, take_asked, take_head};
ghost use Rattle.wire.specs.Numbers.{split};
ghost use Rattle.std.specs.Prelude.{◌≡◌};

use certificates::access::Access;
use sheets::checking::Question;
use wire::numbers::read;

// The kind of a request: a number, as the kinds of events are where they are read.
pub const REQUEST: u8 = 4;

// The bytes of a request before its lines.
pub const HEAD: usize = 8;

// Who asks, for which right, and how many lines the sheet has.
#[derive(Clone, Copy)]
pub struct Head {
    pub house: u16,
    pub right: u8,
    pub lines: u32,
}

impl Head {
    // What is asked at the gate of an owner on a day.
    pub fn question(self, day: u32, owner: u16) -> Question
        ensures { result ≡ question_of day owner self }
    {
        Question {
            access: Access {
                day,
                owner,
                right: self.right,
            },
            house: self.house,
        }
    }
}

// Whether a delivery is a request: its first byte says so.
pub fn is_request(bytes: &[u8]) -> bool
    ensures { result ≡ is_request bytes.now }
{
    matches!(bytes, [REQUEST, ..])
}

// Who asks, for which right, and with how many lines; and the lines that follow. Taken apart by `let .. else`, as all that is read.
fn read_asked(bytes: &[u8]) -> Option<(Head, &[u8])>
    ensures { split result ≡ take_asked bytes.now }
{
    let Some((house, rest)) = read::<u16, 2>(bytes) else {
        return None;
    };
    let Some((right, rest)) = read::<u8, 1>(rest) else {
        return None;
    };
    let Some((lines, rest)) = read::<u32, 4>(rest) else {
        return None;
    };
    Some((
        Head {
            house,
            right,
            lines,
        },
        rest,
    ))
}

// The head of a request, and the lines that follow it; none where the kind is another or the head is cut. Kinds are matched as numbers.
pub fn read_head(bytes: &[u8]) -> Option<(Head, &[u8])>
    ensures { split result ≡ take_head bytes.now }
{
    let Some((kind, rest)) = read::<u8, 1>(bytes) else {
        return None;
    };
    match kind {
        REQUEST => read_asked(rest),
        _ => None,
    }
}

// Which line shows that a house has the right.
ghost use Rattle.finding.specs.Wanted.{line_of_wanted, wanted_in};
ghost use Rattle.std.specs.Prelude.{◌≡◌};

use facts::is_shown;
use finding_lines::lines::Lines;
use finding_rounds::numbers::number_at;
use sheets::checking::Question;
use sheets::memory::{DELEGATORS, HOLDERS};

// What shows that a house has the right. An enum of our own, since an Option in an Option would not say which is which.
#[derive(Clone, Copy)]
pub(crate) enum Wanted {
    // the start: the house is the owner
    AtStart,
    // the line of this number, the first that showed it
    ByLine(u32),
}

impl Wanted {
    // The number of the line that shows it; the start has none.
    pub(crate) fn line(self) -> Option<u32>
        ensures { result ≡ line_of_wanted self }
    {
        match self {
            Wanted::AtStart => None,
            Wanted::ByLine(line) => Some(line),
        }
    }
}

// That the house may pass the right on is wanted, if it is shown; else that it has it only. None where neither is shown.
pub(crate) fn wanted_line(question: &Question, lines: &Lines) -> Option<Wanted>
    ensures { result ≡ wanted_in question.now lines.now.rights lines.now.right_lines.items }
{
    let house = question.house;
    let right_lines = lines.right_lines.as_slice();
    if is_shown(&lines.rights, DELEGATORS, house) {
        if house == question.access.owner {
            return Some(Wanted::AtStart);
        }
        return Some(Wanted::ByLine(number_at(right_lines, DELEGATORS, house)));
    }
    if is_shown(&lines.rights, HOLDERS, house) {
        return Some(Wanted::ByLine(number_at(right_lines, HOLDERS, house)));
    }
    None
}

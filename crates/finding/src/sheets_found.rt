// A sheet is found for a question, and written into the free end of a request.
// The lent slices go side by side, a rule of the project.
ghost use Rattle.std.specs.Prelude.{◌≡◌};
ghost use Rattle.finding.specs.Asking.{Answered};
ghost use Rattle.finding.specs.Worth.{Worth, OpensAsked, fault_of};
ghost use Rattle.registry.specs.Numbered.{certificates_of};

use crate::searching::find_kept;
// How many bytes of a request stand before its lines, for callers that lend one.
pub use promise::heads::HEAD;
use registry::Registry;
use sheets::checking::Question;
use std::alloc::Global;
use wire::faults::Fault;

// Why no sheet was written.
#[derive(Clone, Copy, Debug, PartialEq, Eq)]
pub enum Unfound {
    // the house may not, so there is no sheet
    NoSheet,
    // the request has no room for its sheet, and needs so many bytes in all
    TooShort { needed: usize },
    // it is no request, or its head is cut
    Malformed,
    // a house or a right that there is not
    OutOfRange,
    // memory can't be had
    NoMemory,
    // the lent memory has another size
    WrongSize,
}

// Finds the sheet for a question, and writes it behind the head of the request, with how many lines it has: how long the request is then.
pub fn find(
    heap: Global,
    registry: &Registry,
    question: &Question,
    names: &mut [u64],
    name_lines: &mut [u32],
    request: &mut [u8],
) -> Result<usize, Unfound>
    ensures answered { Answered (certificates_of registry.now) question.now names.old name_lines.old request.old names.new name_lines.new request.new result }
    ensures worth { Worth (certificates_of registry.now) question.now result }
    ensures opens { OpensAsked (certificates_of registry.now) question.now request.old request.new result }
{
    let kept = find_kept(heap, registry, question, names, name_lines)?;
    let needed = kept.needed(registry);
    if request.len() < needed {
        return Err(Unfound::TooShort { needed });
    }
    kept.write(registry, request);
    Ok(needed)
}

impl Unfound {
    // The fault that this is told by, with its number; want of memory and the caller's own mistakes are none.
    pub fn fault(self) -> Option<Fault>
        ensures { result ≡ fault_of self }
    {
        match self {
            Unfound::NoSheet => Some(Fault::NoSheet),
            Unfound::Malformed => Some(Fault::Malformed),
            Unfound::OutOfRange => Some(Fault::OutOfRange),
            Unfound::TooShort { .. } | Unfound::NoMemory | Unfound::WrongSize => None,
        }
    }
}

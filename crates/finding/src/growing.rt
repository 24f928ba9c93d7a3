// What a request without lines is told: its sheet, for which room is made, or whether the house may, and to which day.
// The lent slices go side by side, and a reader's answer is taken apart by `let .. else`: rules of the project.
ghost use Rattle.std.specs.Prelude.{◌≡◌};
ghost use Rattle.finding.specs.Growing.{MayTold, UntilTold, bare_head, HeadTold};
ghost use Rattle.promise.specs.Promise.{Bytes};
ghost use Rattle.registry.specs.Numbered.{certificates_of};

use crate::searching::{find_kept, find_wanted};
use crate::sheets_found::Unfound;
use certificates::LAST_HOUSE;
use certificates::rights::LAST_RIGHT;
use promise::heads::{Head, read_head};
use registry::Registry;
use sheets::checking::Question;
use std::alloc::Global;

// The head of a request without lines; else why it is refused.
#[tactic(auto, using(wire::proofs::Exact::bytes_of_slice))]
pub fn bare_head(request: &[u8]) -> Result<Head, Unfound>
    ensures value { result ≡ bare_head request.now }
    ensures small { Bytes request.now }
{
    let Some((head, rest)) = read_head(request) else {
        return Err(Unfound::Malformed);
    };
    if head.house > LAST_HOUSE || head.right > LAST_RIGHT {
        return Err(Unfound::OutOfRange);
    }
    if head.lines != 0 || !rest.is_empty() {
        return Err(Unfound::Malformed);
    }
    Ok(head)
}

// Finds the sheet for a request without lines, at the owner's gate on a day: the request with its sheet.
pub fn find_sheet(
    heap: Global,
    registry: &Registry,
    day: u32,
    owner: u16,
    names: &mut [u64],
    name_lines: &mut [u32],
    request: &[u8],
) -> Result<Vec<u8>, Unfound>
    ensures { HeadTold (certificates_of registry.now) day owner names.old name_lines.old names.new name_lines.new result (bare_head request.now) }
{
    let head = bare_head(request)?;
    let question = head.question(day, owner);
    let kept = find_kept(heap, registry, &question, names, name_lines)?;
    Ok(kept.behind(heap, registry, request)?)
}

// Whether the house may; no sheet is written.
pub fn may(
    heap: Global,
    registry: &Registry,
    question: &Question,
    names: &mut [u64],
    name_lines: &mut [u32],
) -> Result<bool, Unfound>
    ensures { MayTold (certificates_of registry.now) question.now names.old name_lines.old names.new name_lines.new result }
{
    let (_, wanted) = find_wanted(heap, registry, question, names, name_lines)?;
    Ok(wanted.is_some())
}

// To which day the house may, from the question's on, by the sheet that is found: it holds as long as all its certificates are valid. None where the house may not.
pub fn may_until(
    heap: Global,
    registry: &Registry,
    question: &Question,
    names: &mut [u64],
    name_lines: &mut [u32],
) -> Result<Option<u32>, Unfound>
    ensures { UntilTold (certificates_of registry.now) question.now names.old name_lines.old names.new name_lines.new result }
{
    match find_kept(heap, registry, question, names, name_lines) {
        Err(Unfound::NoSheet) => Ok(None),
        kept => Ok(Some(kept?.last_day(registry))),
    }
}

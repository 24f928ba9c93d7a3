// The sheet for a request without lines, at a gate. The lent slices go side by side, a rule of the project.
ghost use Rattle.finding.specs.Growing.{bare_head, HeadTold};
ghost use Rattle.gates.specs.Gates.{state_of};
ghost use Rattle.inquiries.specs.Sheets.{SheetKept};

use finding::growing;
use finding::sheets_found::Unfound;
use gates::Gate;
use std::alloc::Global;

// The request with its sheet, which opens the gate; or why there is none.
pub fn sheet_for(
    heap: Global,
    gate: &Gate,
    names: &mut [u64],
    name_lines: &mut [u32],
    request: &[u8],
) -> Result<Vec<u8>, Unfound>
    ensures told { HeadTold (state_of gate.now).certificates (state_of gate.now).day (state_of gate.now).owner names.old name_lines.old names.new name_lines.new result (bare_head request.now) }
    ensures kept { SheetKept (state_of gate.now) (bare_head request.now) result }
{
    growing::find_sheet(
        heap,
        gate.registry(),
        gate.day(),
        gate.owner(),
        names,
        name_lines,
        request,
    )
}

// Facts in lent memory.
ghost use Rattle.std.specs.Prelude.{◌≡◌, ◌<◌};
ghost use Rattle.registry.specs.Numbered.{certificates_of};
ghost use Rattle.sheets.specs.Memory.{row_of_right, note_name, note_right};
ghost use Rattle.sheets.specs.Sheets.{fact_of};

use certificates::{Certificate, Statement};
use facts::show;
use registry::Registry;

// The row of those who have the right and may pass it on, and of those who have it only: numbers, as the rows of names are.
pub const DELEGATORS: u16 = 0;

pub const HOLDERS: u16 = 1;

// The row in which a right is noted: of those who may pass it on, or of those who have it only.
pub fn right_row(delegable: bool) -> u16
    ensures { result ≡ row_of_right delegable }
{
    if delegable { DELEGATORS } else { HOLDERS }
}

// What the lines above a line showed: facts in memory, with the certificates by which names have their rows.
#[derive(Clone, Copy)]
pub struct Shown<'a> {
    pub registry: &'a Registry,
    pub names: &'a [u64],
    pub rights: &'a [u64],
}

// Notes what a certificate shows of the last house reached.
pub(crate) fn note(
    registry: &Registry,
    certificate: &Certificate,
    last: u16,
    names: &mut [u64],
    rights: &mut [u64],
)
    ensures names { names.new ≡ note_name (certificates_of registry.now) (fact_of certificate.now last) names.old }
    ensures rights { rights.new ≡ note_right (fact_of certificate.now last) rights.old }
{
    match certificate.statement {
        Statement::Name { name, .. } => {
            if let Some(row) = registry.row(certificate.issuer, name) {
                show(names, row, last);
            }
        }
        Statement::Rights { delegable, .. } => show(rights, right_row(delegable), last),
    }
}

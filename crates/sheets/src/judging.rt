// Whether a line is good, by the facts in memory.
ghost use Rattle.facts.specs.Table.{bit_at};
ghost use Rattle.registry.specs.Numbered.{certificates_of};
ghost use Rattle.sheets.specs.Judging.{permits, judged_by};
ghost use Rattle.sheets.specs.Memory.{remembered};
ghost use Rattle.std.specs.Prelude.{◌≡◌};

use crate::line::Line;
use crate::memory::{DELEGATORS, Shown};
use certificates::access::Access;
use certificates::{Certificate, Statement};
use facts::is_shown;
use wire::faults::Fault;

impl Shown<'_> {
    // Whether the issuer of the line's certificate may say what it says.
    fn permit(&self, certificate: &Certificate, access: &Access, number: u32) -> Result<(), Fault>
        ensures { result ≡ permits access.now (bit_at self.now.rights.now 0 certificate.now.issuer) number certificate.now.statement }
    {
        if let Statement::Name { .. } = certificate.statement {
            return Ok(());
        }
        if !certificate.gives(access) {
            return Err(Fault::NotGiven { line: number });
        }
        if !is_shown(self.rights, DELEGATORS, certificate.issuer) {
            return Err(Fault::IssuerNotShown { line: number });
        }
        Ok(())
    }

    // The last house that a good line reaches, or the lowest number of its faults.
    pub(crate) fn judge(&self, access: &Access, number: u32, line: &Line) -> Result<u16, Fault>
        ensures { result ≡ judged_by (remembered (certificates_of self.now.registry.now) self.now.names.now) (bit_at self.now.rights.now 0 line.now.certificate.now.issuer) number access.now line.now }
    {
        if !line.known() {
            return Err(Fault::LineOutOfRange { line: number });
        }
        if !line.certificate.valid_on(access.day) {
            return Err(Fault::NotValid { line: number });
        }
        self.permit(line.certificate, access, number)?;
        self.walk(line)
            .map_err(|step| Fault::StepNotShown { line: number, step })
    }
}

// How long the kept lines hold.
ghost use Rattle.finding.specs.Asking.{lines_of_kept};
ghost use Rattle.finding.specs.Worth.{last_day};
ghost use Rattle.registry.specs.Numbered.{certificate_at, certificates_of};
ghost use Rattle.std.specs.Prelude.{◌≡◌};

use crate::kept_lines::KeptLines;
use finding_turns::found::Found;
use registry::Registry;

// The last day on which a line's certificate is valid.
fn last_of(registry: &Registry, line: &Found) -> u32
    ensures { result ≡ (certificate_at (certificates_of registry.now) line.now.certificate).last }
{
    match registry.get(line.certificate) {
        Some(certificate) => certificate.last,
        None => 0,
    }
}

impl KeptLines {
    // The last day on which the certificates of all kept lines are valid.
    #[tactic(auto, using(crate::proofs::Later::last_marked, crate::proofs::Later::last_unmarked, crate::proofs::Later::last_of_all))]
    pub(crate) fn last_day(&self, registry: &Registry) -> u32
        ensures { result ≡ last_day (certificates_of registry.now) (lines_of_kept (certificates_of registry.now) self.now) }
    {
        let mut last = u32::MAX;
        for (line, mark) in self.found.iter().zip(self.marks.as_slice()) {
            if *mark {
                last = last.min(last_of(registry, line));
            }
        }
        last
    }
}

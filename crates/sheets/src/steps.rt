// The steps of a line: from the subject's house by each of its names to the next house.
ghost use Rattle.std.specs.Prelude.{◌≡◌, ◌≤◌, length, if◌then◌else◌, Some, None, nat_le};
ghost use Rattle.certificates.specs.Certificates.{names_of, subject_of};
ghost use Rattle.registry.specs.Numbered.{certificates_of};
ghost use Rattle.sheets.specs.Checking.{known_houses};
ghost use Rattle.sheets.specs.Memory.{remembered};
ghost use Rattle.sheets.specs.Reading.{houses_of, walked_by};

use crate::line::Line;
use crate::memory::Shown;
use certificates::LAST_HOUSE;
use facts::is_shown;

// Whether there may be a house of this number. It stands apart, so that an edit of the test is refused in its own line.
fn is_house(number: u16) -> bool
    ensures { result ≡ nat_le number 1023 }
{
    number <= LAST_HOUSE
}

impl Line<'_> {
    // The names of its certificate's subject.
    fn names(&self) -> &[u16]
        ensures { result.now ≡ names_of (subject_of self.now.certificate.now.statement) }
    {
        self.certificate.statement.subject().names()
    }

    // The house reached after each of them.
    fn houses(&self) -> &[u16]
        ensures value { result.now ≡ houses_of self.now }
        ensures few { length result.now ≤ 6 }
    {
        self.houses
            .front(self.certificate.statement.subject().count)
    }

    // Whether no house of it is above 1,023.
    pub(crate) fn known(&self) -> bool
        ensures { result ≡ known_houses (houses_of self.now) }
    {
        self.houses().iter().all(|house| is_house(*house))
    }
}

impl Shown<'_> {
    // The next house, if it is shown that the house's name means it.
    fn step(&self, house: u16, name: u16, next: u16) -> Option<u16>
        ensures { result ≡ (if remembered (certificates_of self.now.registry.now) self.now.names.now house name next then Some next else None) }
    {
        let row = self.registry.row(house, name)?;
        is_shown(self.names, row, next).then_some(next)
    }

    // Follows the steps: the last house reached, or the first step that is not shown, by its number, which `judge` puts into the fault.
    pub(crate) fn walk(&self, line: &Line) -> Result<u16, u8>
        ensures { result ≡ walked_by (remembered (certificates_of self.now.registry.now) self.now.names.now) line.now }
    {
        let mut at = line.certificate.statement.subject().house;
        for (step, (name, house)) in line.names().iter().zip(line.houses()).enumerate() {
            // Not by `ok_or` and `?`: the proof would have to go through the conversion of the error.
            let Some(reached) = self.step(at, *name, *house) else {
                return Err(step as u8);
            };
            at = reached;
        }
        Ok(at)
    }
}

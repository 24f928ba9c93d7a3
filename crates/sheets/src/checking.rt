// The check of a sheet: one pass over its lines, which allocates nothing.
ghost use Rattle.std.specs.Prelude.{◌≡◌, true, length};
ghost use Rattle.facts.specs.Table.{bit_at};
ghost use Rattle.registry.specs.Numbered.{certificates_of};
ghost use Rattle.sheets.specs.Judging.{judged_by};
ghost use Rattle.sheets.specs.Memory.{remembered};
ghost use Rattle.sheets.specs.Passing.{names_after, rights_after, LinePassed, LinesPassed, rest_of, entitled_by, concluded_by, askable, Wiped, Done, answered, left_in};

use crate::line::Line;
use crate::memory::{DELEGATORS, HOLDERS, Shown, note};
use certificates::LAST_HOUSE;
use certificates::access::Access;
use certificates::rights::LAST_RIGHT;
use facts::{is_shown, show, wipe};
use registry::Registry;
use wire::faults::Fault;
use wire::numbers::{read, read_u16s};

// The words of lent memory that a check needs: sixteen for each of 1,024 rows.
pub const MEMORY_WORDS: usize = 16384;

// What is asked of a sheet: whether it shows that the house has the owner's right on the day.
#[derive(Clone, Copy)]
pub struct Question {
    pub access: Access,
    pub house: u16,
}

impl Question {
    // Whether its houses and its right are those that there may be.
    pub fn in_range(&self) -> bool
        ensures { result ≡ askable self.now }
    {
        self.access.owner <= LAST_HOUSE
            && self.house <= LAST_HOUSE
            && self.access.right <= LAST_RIGHT
    }
}

// After all lines: no bytes are left over, and the house is shown to have the right.
fn conclude(house: u16, rights: &[u64], rest: &[u8]) -> Result<(), Fault>
    ensures { result ≡ concluded_by (entitled_by rights.now house) rest.now }
{
    if !rest.is_empty() {
        return Err(Fault::Malformed);
    }
    if is_shown(rights, DELEGATORS, house) || is_shown(rights, HOLDERS, house) {
        Ok(())
    } else {
        Err(Fault::HouseNotShown)
    }
}

// What a sheet is checked by: the certificates, and what is asked.
// The lent memory is no part of it: each contract would have to say that the fields are still the same memory.
#[derive(Clone, Copy)]
struct Checker<'a> {
    registry: &'a Registry,
    question: &'a Question,
}

impl Checker<'_> {
    // Judges a line by the facts in memory, and only then notes what it shows; gives the last house that it reaches.
    fn judge_then_note(
        &self,
        names: &mut [u64],
        rights: &mut [u64],
        number: u32,
        line: &Line,
    ) -> Result<u16, Fault>
        ensures value { result ≡ judged_by (remembered (certificates_of self.now.registry.now) names.old) (bit_at rights.old 0 line.now.certificate.now.issuer) number self.now.question.now.access line.now }
        ensures names { names.new ≡ names_after (certificates_of self.now.registry.now) line.now.certificate.now result names.old }
        ensures rights { rights.new ≡ rights_after line.now.certificate.now result rights.old }
    {
        let shown = Shown {
            registry: self.registry,
            names,
            rights,
        };
        let last = shown.judge(&self.question.access, number, line)?;
        note(self.registry, line.certificate, last, names, rights);
        Ok(last)
    }

    // Reads a line and checks it by the facts in memory, and notes what it shows; gives what follows it.
    // A reader's answer is taken apart by `let .. else`, a rule of the project.
    fn check_line<'b>(
        &self,
        names: &mut [u64],
        rights: &mut [u64],
        number: u32,
        bytes: &'b [u8],
    ) -> Result<&'b [u8], Fault>
        ensures { LinePassed (certificates_of self.now.registry.now) self.now.question.now number bytes.now names.old rights.old names.new rights.new (rest_of result) }
    {
        let Some((named, rest)) = read::<u16, 2>(bytes) else {
            return Err(Fault::LineCut { line: number });
        };
        let Some(certificate) = self.registry.get(named) else {
            return Err(Fault::LineUnknown { line: number });
        };
        let steps = certificate.statement.subject().names().len();
        let Some((houses, rest)) = read_u16s(steps as u8, rest) else {
            return Err(Fault::LineCut { line: number });
        };
        let line = Line {
            certificate,
            houses,
        };
        self.judge_then_note(names, rights, number, &line)?;
        Ok(rest)
    }

    // Checks as many lines as `count` says, up to the first that is not good; gives what follows them.
    fn check_lines<'b>(
        &self,
        names: &mut [u64],
        rights: &mut [u64],
        count: u32,
        lines: &'b [u8],
    ) -> Result<&'b [u8], Fault>
        ensures { LinesPassed (certificates_of self.now.registry.now) self.now.question.now count lines.now names.old rights.old names.new rights.new (rest_of result) }
    {
        let mut rest = lines;
        for number in 0..count {
            rest = self.check_line(names, rights, number, rest)?;
        }
        Ok(rest)
    }

    // Checks a sheet with memory that is wiped, for a question that is in range.
    fn check_wiped(&self, count: u32, lines: &[u8], memory: &mut [u64]) -> Result<(), Fault>
        requires wiped { Wiped memory.old }
        requires asked { askable self.now.question.now ≡ true }
        ensures { Done (certificates_of self.now.registry.now) self.now.question.now count lines.now memory.new result }
    {
        let mut rights = [0; 32];
        show(&mut rights, DELEGATORS, self.question.access.owner);
        let rest = self.check_lines(memory, &mut rights, count, lines)?;
        conclude(self.question.house, &rights, rest)
    }
}

// The lent memory has fewer than 16,384 words: too few for a bit for each row and house.
#[derive(Clone, Copy, Debug, PartialEq, Eq)]
pub struct ShortMemory;

// Whether the sheet of so many lines holds for the house, or its first fault.
// The memory is wiped first, and holds then what the good lines show of names; a question out of range leaves it as it was.
pub fn check(
    registry: &Registry,
    question: &Question,
    count: u32,
    lines: &[u8],
    memory: &mut [u64],
) -> Result<Result<(), Fault>, ShortMemory>
    ensures value { result ≡ answered (certificates_of registry.now) question.now count lines.now (length memory.old) }
    ensures memory { memory.new ≡ left_in (certificates_of registry.now) question.now count lines.now memory.old }
{
    if memory.len() < MEMORY_WORDS {
        return Err(ShortMemory);
    }
    if !question.in_range() {
        return Ok(Err(Fault::OutOfRange));
    }
    wipe(memory);
    Ok(Checker { registry, question }.check_wiped(count, lines, memory))
}

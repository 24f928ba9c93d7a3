// Marked lines as bytes: a certificate's number and the houses of the steps, two bytes each, high byte first.
#![tactic(auto)]

ghost use Rattle.std.specs.Prelude.{◌≡◌, ◌+◌, ◌*◌, ◌<◌, ◌≤◌, List, ◌++◌, length, drop, MatchResult};
ghost use Rattle.finding_keeping.specs.Marks.{picked};
ghost use Rattle.registry.specs.Numbered.{certificates_of};
ghost use Rattle.finding_bytes.specs.Writing.{bytes_of_marked, Wrote, Refused};
ghost use Rattle.sheets.specs.Bytes.{line_bytes};
ghost use Rattle.sheets.specs.Sheets.{Line};
ghost use Rattle.std.specs.List.{flat_map};
ghost use Rattle.finding_turns.specs.Found.{line_of, lines_found};
ghost use Rattle.wire.specs.Numbers.{bytes};
ghost use Rattle.std.proofs.lemmas.List.Edits.{sets};

use finding_turns::found::Found;
use registry::Registry;

// Lent memory is too short, and this many bytes are needed.
#[derive(Clone, Copy)]
pub struct TooShort {
    pub needed: usize,
}

// How many lines are marked.
#[tactic(auto, using(crate::proofs::Sizes::picked_many))]
pub fn marked_lines(marks: &[bool]) -> usize
    ensures value { (lines : List Line) → length lines ≡ length marks.now → result ≡ length (picked marks.now lines) }
    ensures few { result ≤ length marks.now }
{
    marks.iter().filter(|mark| **mark).count()
}

// The houses reached by a line's steps: as many as its certificate's subject has names; none where there is no such certificate.
fn steps_of<'a>(registry: &Registry, line: &'a Found) -> &'a [u16]
    ensures value { result.now ≡ (line_of (certificates_of registry.now) line.now).houses }
    ensures few { length result.now ≤ 6 }
{
    match registry.get(line.certificate) {
        Some(certificate) => line.steps.front(certificate.statement.subject().count),
        None => &[],
    }
}

// How many bytes a line of so many steps takes.
fn bytes_of_steps(steps: usize) -> usize
    requires { steps ≤ 6 }
    ensures { result ≡ 2 + 2 * steps }
{
    2 + steps * 2
}

// How many bytes a line takes.
#[tactic(auto, using(crate::proofs::Sizes::line_length))]
fn bytes_of_line(registry: &Registry, line: &Found) -> usize
    ensures value { result ≡ length (line_bytes (line_of (certificates_of registry.now) line.now)) }
    ensures few { result ≤ 14 }
{
    bytes_of_steps(steps_of(registry, line).len())
}

// How many bytes the marked lines take.
pub fn marked_bytes(registry: &Registry, found: &[Found], marks: &[bool]) -> usize
    ensures few { result ≤ 14 * length found.now }
    ensures value { result ≡ length (bytes_of_marked marks.now (lines_found (certificates_of registry.now) found.now)) }
{
    // Added in a loop: with `filter`, `map` and `sum` it stays open that the total fits.
    let mut bytes = 0;
    for (line, mark) in found.iter().zip(marks) {
        if *mark {
            bytes += bytes_of_line(registry, line);
        }
    }
    bytes
}

// Writes a number at a place, high byte first.
#[tactic(auto, using(crate::proofs::Written::u16_written))]
fn write_u16(out: &mut [u8], at: usize, number: u16)
    requires { at + 2 ≤ length out.old }
    ensures { out.new ≡ sets out.old at (bytes 2 number) }
{
    // Not one with write_count of finding: both know that there is room; a public function requires nothing, so one for both would have to test for it.
    out[at..at + 2].copy_from_slice(&number.to_be_bytes());
}

// Writes numbers from a place on.
#[tactic(auto, using(crate::proofs::Written::number_more, crate::proofs::Written::numbers_all))]
fn write_u16s(out: &mut [u8], at: usize, numbers: &[u16])
    requires { at + 2 * length numbers.now ≤ length out.old }
    ensures { out.new ≡ sets out.old at (flat_map (bytes 2) numbers.now) }
{
    // By place: after `chunks_exact_mut` a proof has the memory's length but not its bytes, so what was written stays open.
    for (i, number) in numbers.iter().enumerate() {
        write_u16(out, at + 2 * i, *number);
    }
}

// Writes a line at a place: the place behind it.
#[tactic(auto, using(crate::proofs::Sizes::line_length, crate::proofs::Written::line_written))]
fn write_line(registry: &Registry, line: &Found, out: &mut [u8], at: usize) -> usize
    requires { at + length (line_bytes (line_of (certificates_of registry.now) line.now)) ≤ length out.old }
    ensures place { result ≡ at + length (line_bytes (line_of (certificates_of registry.now) line.now)) }
    ensures after { out.new ≡ sets out.old at (line_bytes (line_of (certificates_of registry.now) line.now)) }
{
    let steps = steps_of(registry, line);
    write_u16(out, at, line.certificate);
    write_u16s(out, at + 2, steps);
    at + bytes_of_steps(steps.len())
}

// Writes the marked lines into the front of memory that is long enough.
// The lines, their marks and the certificates are no struct: callers of the two public functions have them apart, so it would serve this one alone.
fn write_lines(registry: &Registry, found: &[Found], marks: &[bool], out: &mut [u8])
    requires { length (bytes_of_marked marks.now (lines_found (certificates_of registry.now) found.now)) ≤ length out.old }
    ensures { out.new ≡ bytes_of_marked marks.now (lines_found (certificates_of registry.now) found.now) ++ drop (length (bytes_of_marked marks.now (lines_found (certificates_of registry.now) found.now))) out.old }
{
    let mut at = 0;
    for (line, mark) in found.iter().zip(marks) {
        if *mark {
            at = write_line(registry, line, out, at);
        }
    }
}

// Writes the marked lines in their order into the front of `out`: how many bytes; writes nothing if they don't fit.
pub fn write_marked(
    registry: &Registry,
    found: &[Found],
    marks: &[bool],
    out: &mut [u8],
) -> Result<usize, TooShort>
    ensures { MatchResult result (Wrote (bytes_of_marked marks.now (lines_found (certificates_of registry.now) found.now)) out.old out.new) (λ short. Refused (bytes_of_marked marks.now (lines_found (certificates_of registry.now) found.now)) out.old out.new short.needed) }
{
    let needed = marked_bytes(registry, found, marks);
    if needed > out.len() {
        return Err(TooShort { needed });
    }
    write_lines(registry, found, marks, out);
    Ok(needed)
}

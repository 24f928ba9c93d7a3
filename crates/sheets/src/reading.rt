// Lines of a sheet, walked over. A reader's answer is taken apart by `let .. else`, a rule of the project.
ghost use Rattle.std.specs.Prelude.{◌≡◌};
ghost use Rattle.registry.specs.Numbered.{certificates_of};
ghost use Rattle.sheets.specs.Reading.{past_of, line_skipped, lines_skipped};

// A line as it is checked, beside what walks over lines.
pub use crate::line::Line;
use registry::Registry;
use wire::numbers::{read, read_u16s};

// Walks over a line without checking it: what follows it.
fn skip_line<'a>(registry: &Registry, bytes: &'a [u8]) -> Option<&'a [u8]>
    ensures { past_of result ≡ line_skipped (certificates_of registry.now) bytes.now }
{
    let Some((number, rest)) = read::<u16, 2>(bytes) else {
        return None;
    };
    let Some(certificate) = registry.get(number) else {
        return None;
    };
    let Some((_, rest)) = read_u16s(certificate.statement.subject().count, rest) else {
        return None;
    };
    Some(rest)
}

// Walks over so many lines, which may begin anywhere: what follows them, or `None` where one is cut or names no certificate.
pub fn skip_lines<'a>(registry: &Registry, count: u32, bytes: &'a [u8]) -> Option<&'a [u8]>
    ensures { past_of result ≡ lines_skipped (certificates_of registry.now) count bytes.now }
{
    let mut rest = bytes;
    for _line in 0..count {
        let Some(behind) = skip_line(registry, rest) else {
            return None;
        };
        rest = behind;
    }
    Some(rest)
}

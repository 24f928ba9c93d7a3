// The days on which a house may. Where it may, it does so as long as the sheet holds that was found; where it may not, until a certificate begins. So finding is asked once for each stretch of days.
// The lent slices go side by side: of a struct that holds `&mut`, each contract would have to say that it holds the same reference still.
ghost use Rattle.finding.specs.Growing.{bare_head};
ghost use Rattle.gates.specs.Gates.{state_of};
ghost use Rattle.inquiries.specs.Days.{AskedOn, SpansTold, Left, DaysTold, DaysLeft, DaysKept};
ghost use Rattle.registry.specs.Numbered.{certificates_of};

use crate::changes::next_change;
use crate::spans::{Span, SpansSoFar};
use finding::growing::{bare_head, may_until};
use finding::sheets_found::Unfound;
use gates::Gate;
use registry::Registry;
use sheets::checking::Question;
use std::alloc::Global;

// Asks whether the house may on a day, and lets a span begin, last or end there. Gives the last day to which it may, if it does.
fn ask_on(
    heap: Global,
    registry: &Registry,
    question: &Question,
    day: u32,
    names: &mut [u64],
    name_lines: &mut [u32],
    spans: &mut SpansSoFar,
) -> Result<Option<u32>, Unfound>
    ensures { AskedOn (certificates_of registry.now) question.now day names.old name_lines.old names.new name_lines.new spans.old spans.new result }
{
    let asked = Question {
        access: question.access.on_day(day),
        ..*question
    };
    let may_to = may_until(heap, registry, &asked, names, name_lines)?;
    spans.go_on(day, may_to.is_some())?;
    Ok(may_to)
}

// The spans of all days on which the house may.
fn spans_of(
    heap: Global,
    registry: &Registry,
    question: &Question,
    names: &mut [u64],
    name_lines: &mut [u32],
) -> Result<Vec<Span>, Unfound>
    ensures told { SpansTold (certificates_of registry.now) question.now names.old name_lines.old result }
    ensures left { Left (certificates_of registry.now) question.now names.old name_lines.old names.new name_lines.new }
{
    let mut spans = SpansSoFar::new(heap);
    let mut next = Some(0);
    // each stretch lasts until the next day on which the answer can change, and there another begins
    while let Some(day) = next {
        let may_to = ask_on(heap, registry, question, day, names, name_lines, &mut spans)?;
        next = next_change(registry, day, may_to);
    }
    spans.end(u32::MAX)?;
    Ok(spans.done)
}

// What a gate tells of the days follows from the spans by its certificates. Apart from `days_for`, since `kept` is
// proved by hand: a wrong call there is then refused in its own line, and not in a proof file.
fn days_by_head(
    heap: Global,
    gate: &Gate,
    names: &mut [u64],
    name_lines: &mut [u32],
    request: &[u8],
) -> Result<Vec<Span>, Unfound>
    ensures told { DaysTold (state_of gate.now) names.old name_lines.old result (bare_head request.now) }
    ensures left { DaysLeft (state_of gate.now) names.old name_lines.old names.new name_lines.new (bare_head request.now) }
    ensures kept { DaysKept (state_of gate.now) (bare_head request.now) result }
{
    let question = bare_head(request)?.question(gate.day(), gate.owner());
    spans_of(heap, gate.registry(), &question, names, name_lines)
}

// The spans of all days on which the house of a request without lines may, by the certificates that came to a gate.
pub fn days_for(
    heap: Global,
    gate: &Gate,
    names: &mut [u64],
    name_lines: &mut [u32],
    request: &[u8],
) -> Result<Vec<Span>, Unfound>
    ensures told { DaysTold (state_of gate.now) names.old name_lines.old result (bare_head request.now) }
    ensures left { DaysLeft (state_of gate.now) names.old name_lines.old names.new name_lines.new (bare_head request.now) }
    ensures kept { DaysKept (state_of gate.now) (bare_head request.now) result }
{
    days_by_head(heap, gate, names, name_lines, request)
}

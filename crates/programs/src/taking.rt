// Files taken as deliveries by a gate.
ghost use Rattle.gates.specs.Gates.{state_of};
ghost use Rattle.programs.specs.Taking.{HeldTaken, FewLeft};
ghost use Rattle.std.specs.Prelude.{◌≡◌, ◌<◌, IfOk, OnOk, length, vec_capacity};

use crate::files::{Delivery, PIECE, open_file};
use crate::telling::{ByPlace, Part, Telling};
use gates::Gate;
use gates_pieces::take_piece;
use promise::answers::Answer;

// A gate of `owner`, as it begins.
pub(crate) fn new_gate(rt: &HostRuntime, owner: u16) -> anyhow::Result<Gate> {
    Ok(Gate::new(rt.alloc(), owner)?)
}

// Fails where a file can't be opened, before anything is printed.
pub(crate) fn open_all(rt: &HostRuntime, files: &[String]) -> anyhow::Result<()> {
    for name in files {
        let _ = open_file(rt, name.as_str())?;
    }
    Ok(())
}

// Takes the events of the bytes that are held, and tells their answers. Gives how many bytes are left; none where nothing more of the file is read.
fn take_held<T: Telling>(
    rt: &HostRuntime,
    mut gate: Gate,
    telling: &T,
    delivery: &Delivery<'_>,
    last: bool,
    answers: &mut Vec<Answer>,
) -> anyhow::Result<(Gate, Option<usize>)>
    requires { 0 < vec_capacity answers.old }
    ensures taken { IfOk result (λ p. HeldTaken (state_of gate) delivery.now.bytes.items last (state_of p.0) p.1) }
    ensures few { IfOk result (λ p. FewLeft (length delivery.now.bytes.items) last p.1) }
    ensures room { OnOk result (vec_capacity answers.new ≡ vec_capacity answers.old) }
{
    let mut before = delivery.before;
    let mut bytes = delivery.bytes.as_slice();
    // Each turn but the last takes an event, which has a byte at least.
    loop {
        answers.clear();
        let (next, rest) = take_piece(gate, bytes, last, answers);
        gate = next;
        let left = rest.map_or(0, |rest| rest.len());
        let part = Part {
            name: delivery.name,
            before,
            bytes,
            left,
        };
        telling.tell(rt, &part, answers.as_slice())?;
        let Some(rest) = rest else {
            return Ok((gate, None));
        };
        if answers.is_empty() {
            return Ok((gate, Some(rest.len())));
        }
        before = before.saturating_add(bytes.len().saturating_sub(left) as u64);
        bytes = rest;
    }
}

// Takes the events of a file piece by piece; what was read of it is held.
// What is left of a piece is looked at again only when a full one came behind it, or the end: no more is held than two pieces and what an event needs.
pub(crate) fn take_events<T: Telling>(
    rt: &HostRuntime,
    mut gate: Gate,
    telling: &T,
    mut delivery: Delivery<'_>,
) -> anyhow::Result<Gate> {
    let mut answers = Vec::with_capacity(rt.alloc(), telling.answers_held())?;
    let mut more = delivery.read_past(PIECE - 1)?;
    // Counted, since a file may give bytes without end.
    for _ in 0..u64::MAX {
        let (next, left) = take_held(rt, gate, telling, &delivery, !more, &mut answers)?;
        gate = next;
        let Some(left) = left else {
            break;
        };
        if !more {
            break;
        }
        delivery.keep(left);
        more = delivery.read_piece()?;
    }
    Ok(gate)
}

// Takes the events of a file; a request in it changes nothing, and is not read on. The program `gate` answers requests besides, and tells by number (`receive_file`).
pub(crate) fn take_file(rt: &HostRuntime, gate: Gate, name: &str) -> anyhow::Result<Gate> {
    let mut delivery = Delivery::open(rt, name)?;
    let _ = delivery.read_on()?;
    if delivery.is_request() {
        return Ok(gate);
    }
    take_events(rt, gate, &ByPlace, delivery)
}

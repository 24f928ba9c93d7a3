// Deliveries taken whole. A gate goes through by value, and memory for the check of a sheet is lent beside it.
ghost use Rattle.gates_deliveries.specs.Lists.{bytes_of, Untaken, Stopped};
ghost use Rattle.gates.specs.Gates.{state_of, Unanswered};
ghost use Rattle.gates.specs.declared.troubles.Trouble.TheVariants.{NoMemory};
ghost use Rattle.promise.specs.Promise.{Bytes, KeptAll};
ghost use Rattle.promise.specs.Requests.{answer, left_by, told, receive, left_by_delivery, onto, receive_all, left_by_all};
ghost use Rattle.promise.specs.States.{deliver};
ghost use Rattle.promise.specs.declared.answers.Answer.TheVariants.{Refused};
ghost use Rattle.std.specs.Prelude.{◌≡◌, [], ◌∷◌, ◌++◌, map, length, IfOk, MatchResult, OnOk};
ghost use Rattle.std.specs.Option.{option_to_list};

use gates::Gate;
use gates::troubles::Trouble;
use promise::answers::Answer;
use promise::heads::is_request;
use std::alloc::Global;
use wire::faults::Fault;

// Adds the answer to an event, where it is refused. Unlike `note_within` of gates_pieces it may allocate.
fn note(fault: Option<Fault>, answers: &mut Vec<Answer>) -> Result<(), Trouble>
    ensures { MatchResult result (λ _. answers.new.items ≡ answers.old.items ++ map Refused (option_to_list fault)) (λ t. t ≡ NoMemory) }
{
    if let Some(fault) = fault {
        answers.push(Answer::Refused(fault))?;
    }
    Ok(())
}

// Takes the events of a delivery, and adds the answers of those that are refused.
fn take_all(gate: Gate, bytes: &[u8], answers: &mut Vec<Answer>) -> Result<Gate, Trouble>
    ensures { MatchResult result (λ g. (state_of g, answers.new.items) ≡ told answers.old.items (deliver (state_of gate) bytes.now)) (λ t. t ≡ NoMemory) }
{
    let mut gate = gate;
    let mut rest = bytes;
    while !rest.is_empty() {
        let (next, taken) = gate.take_first(rest);
        gate = next;
        let Some((fault, behind)) = taken else {
            note(Some(Fault::Malformed), answers)?;
            return Ok(gate);
        };
        note(fault, answers)?;
        rest = behind;
    }
    Ok(gate)
}

// Answers a request, and adds the answer; room for it is made first, so that want of memory leaves the lent memory as it was.
fn take_request(
    gate: &Gate,
    bytes: &[u8],
    memory: &mut [u64],
    answers: &mut Vec<Answer>,
) -> Result<(), Trouble>
    ensures value { MatchResult result (λ _. answers.new.items ≡ answers.old.items ++ (answer (state_of gate.now) bytes.now ∷ [])) (λ t. Unanswered t (length memory.old)) }
    ensures memory { MatchResult result (λ _. memory.new ≡ left_by (state_of gate.now) bytes.now memory.old) (λ _. memory.new ≡ memory.old) }
{
    answers.reserve(1)?;
    answers.push_reserved(gate.answer(bytes, memory)?);
    Ok(())
}

// Takes a delivery, which is a request or holds events, and adds its answers in their order.
// That it is a list of bytes is what the promise asks of it.
#[tactic(auto, using(wire::proofs::Exact::bytes_of_slice, crate::proofs::Kept::untaken_request, crate::proofs::Kept::untaken_events, crate::proofs::Kept::nothing_received))]
fn take_delivery(
    gate: Gate,
    bytes: &[u8],
    memory: &mut [u64],
    answers: &mut Vec<Answer>,
) -> Result<Gate, Trouble>
    ensures value { MatchResult result (λ g. (state_of g, answers.new.items) ≡ onto answers.old.items (receive (state_of gate) bytes.now)) (λ t. Untaken t bytes.now (length memory.old)) }
    ensures memory { MatchResult result (λ _. memory.new ≡ left_by_delivery (state_of gate) bytes.now memory.old) (λ _. memory.new ≡ memory.old) }
    ensures bytes { Bytes bytes.now }
{
    if is_request(bytes) {
        take_request(&gate, bytes, memory, answers)?;
        return Ok(gate);
    }
    // an empty one asks for no memory
    if bytes.is_empty() {
        return Ok(gate);
    }
    take_all(gate, bytes, answers)
}

// Takes some deliveries, one after the other: the gate after them, and all answers in their order.
// Apart from `receive_all`: the loop is proved by hand over this slice, so an edit of the slice would be refused in a proof
// file, and not in a line of the code.
fn receive_each(
    gate: Gate,
    heap: Global,
    deliveries: &[Vec<u8>],
    memory: &mut [u64],
) -> Result<(Gate, Vec<Answer>), Trouble>
    ensures value { MatchResult result (λ p. (state_of p.0, p.1.items) ≡ receive_all (state_of gate) (bytes_of deliveries.now)) (λ t. Stopped t (state_of gate) (bytes_of deliveries.now) memory.old memory.new) }
    ensures memory { OnOk result (memory.new ≡ left_by_all (state_of gate) (bytes_of deliveries.now) memory.old) }
    ensures promised { IfOk result (λ p. KeptAll (state_of gate) (bytes_of deliveries.now) (state_of p.0) p.1.items) }
{
    let mut gate = gate;
    let mut answers = Vec::new(heap);
    for delivery in deliveries {
        gate = take_delivery(gate, delivery.as_slice(), memory, &mut answers)?;
    }
    Ok((gate, answers))
}

// Takes some deliveries, one after the other, and keeps what is promised of all deliveries so far.
pub fn receive_all(
    gate: Gate,
    heap: Global,
    deliveries: &[Vec<u8>],
    memory: &mut [u64],
) -> Result<(Gate, Vec<Answer>), Trouble>
    ensures value { MatchResult result (λ p. (state_of p.0, p.1.items) ≡ receive_all (state_of gate) (bytes_of deliveries.now)) (λ t. Stopped t (state_of gate) (bytes_of deliveries.now) memory.old memory.new) }
    ensures memory { OnOk result (memory.new ≡ left_by_all (state_of gate) (bytes_of deliveries.now) memory.old) }
    ensures promised { IfOk result (λ p. KeptAll (state_of gate) (bytes_of deliveries.now) (state_of p.0) p.1.items) }
{
    receive_each(gate, heap, deliveries, memory)
}

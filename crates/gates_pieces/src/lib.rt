// Deliveries of events taken in pieces, so that memory is bounded whatever comes.
#![tactic(auto)]

ghost use Rattle.std.specs.Prelude.{◌≡◌, ◌+◌, ◌<◌, ◌≤◌, ◌||◌, ◌++◌, map, length, nat_le, vec_len, vec_capacity};
ghost use Rattle.gates.specs.Gates.{state_of};
ghost use Rattle.gates_pieces.specs.Pieces.{PieceTaken, LeftOver, left_length, StandsLast, KeptPiece};
ghost use Rattle.promise.specs.declared.answers.Answer.TheVariants.{Refused};
ghost use Rattle.std.specs.Option.{option_map, option_to_list};
ghost use Rattle.wire.specs.Settled.{longest_event};

use gates::Gate;
use promise::answers::Answer;
use wire::faults::Fault;
// How many bytes settle what stands first in a piece, for callers that hold what is left.
pub use wire::reading::LONGEST_EVENT;

pub mod laws;

// Whether what can't be read never can: nothing follows, or there are as many bytes as the longest event has.
fn is_settled(rest: &[u8], last: bool) -> bool
    ensures { result ≡ (last || nat_le longest_event (length rest.now)) }
{
    last || rest.len() >= LONGEST_EVENT
}

// Adds the answer to an event, where it is refused, in room that is reserved.
fn note_within(fault: Option<Fault>, answers: &mut Vec<Answer>)
    requires { vec_len answers.old < vec_capacity answers.old }
    ensures items { answers.new.items ≡ answers.old.items ++ map Refused (option_to_list fault) }
    ensures room { vec_capacity answers.new ≡ vec_capacity answers.old }
{
    if let Some(fault) = fault {
        answers.push_reserved(Answer::Refused(fault));
    }
}

// Takes events of a piece of a delivery, as long as there is room for their answers and what is left settles which event stands first,
// or to the end if nothing follows the piece. Gives what is left; `None` where nothing more of the delivery is read.
pub fn take_piece<'a>(
    gate: Gate,
    piece: &'a [u8],
    last: bool,
    answers: &mut Vec<Answer>,
) -> (Gate, Option<&'a [u8]>)
    ensures taken { PieceTaken (state_of gate) answers.old.items piece.now last (state_of result.0) answers.new.items (option_map (λ x. x.now) result.1) }
    ensures until { LeftOver (vec_capacity answers.old) (vec_len answers.new) last (option_map (λ x. x.now) result.1) }
    ensures behind { StandsLast piece.now (option_map (λ x. x.now) result.1) }
    ensures fewer { vec_len answers.new + left_length (option_map (λ x. x.now) result.1) ≤ vec_len answers.old + length piece.now }
    ensures room { vec_capacity answers.new ≡ vec_capacity answers.old }
    ensures promised { KeptPiece (state_of gate) piece.now last (state_of result.0) (option_map (λ x. x.now) result.1) }
{
    let mut gate = gate;
    let mut rest = piece;
    while answers.len() < answers.capacity() && !rest.is_empty() {
        let (next, taken) = gate.take_first(rest);
        gate = next;
        let Some((fault, behind)) = taken else {
            if !is_settled(rest, last) {
                return (gate, Some(rest));
            }
            note_within(Some(Fault::Malformed), answers);
            return (gate, None);
        };
        note_within(fault, answers);
        rest = behind;
    }
    (gate, Some(rest))
}

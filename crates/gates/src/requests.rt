// Requests: a house asks for a right, and shows a sheet. A reader's answer is taken apart by `let .. else`, a rule of the project.
ghost use Rattle.sheets.specs.Bytes.{line_size, longest_line};
ghost use Rattle.std.specs.Prelude.{◌≡◌, ◌<◌, ◌≤◌, length, IfOk, Some, MatchResult};
ghost use Rattle.gates.specs.Gates.{state_of, LinesLookedAt};
ghost use Rattle.promise.specs.Promise.{KeptAnswer};
ghost use Rattle.promise.specs.Requests.{take_head, answer, answer_head, decided, longest_request, AnsweredByFront, left_by, left_by_head};

use crate::Gate;
use certificates::{Certificate, HOUSES};
use promise::answers::Answer;
use promise::heads::{HEAD, Head, read_head};
use sheets::checking::{ShortMemory, check};
use wire::faults::Fault;

// How many bytes a line of a certificate has: its number, and a house for each name of its subject.
fn line_size(certificate: &Certificate) -> usize
    ensures value { result ≡ line_size certificate.now }
    ensures small { result ≤ 512 }
{
    2 + 2 * usize::from(certificate.statement.subject().count)
}

// The most bytes of a line of any of these certificates; 0 where there are none.
fn longest_line(certificates: &[Certificate]) -> usize
    ensures value { result ≡ longest_line certificates.now }
    ensures small { result ≤ 512 }
{
    let mut longest = 0;
    for certificate in certificates {
        longest = longest.max(line_size(certificate));
    }
    longest
}

impl Gate {
    // The most bytes that a request can have here: a head, and as many lines as there may be, each as long as the longest of any certificate.
    pub fn longest_request(&self) -> usize
        ensures { result ≡ longest_request (state_of self.now).certificates }
    {
        HEAD + self.registry.len() * HOUSES * longest_line(self.registry.certificates())
    }

    // Looks at the head, and then at the lines: nothing, or the fault for which the request is refused.
    fn look(
        &self,
        head: Head,
        lines: &[u8],
        memory: &mut [u64],
    ) -> Result<Result<(), Fault>, ShortMemory>
        ensures value { MatchResult result (λ looked. decided looked ≡ answer_head (state_of self.now) (Some (head, lines.now))) (λ _. (length memory.old < 16384) × LinesLookedAt (state_of self.now) (Some (head, lines.now))) }
        ensures memory { MatchResult result (λ _. memory.new ≡ left_by_head (state_of self.now) memory.old (Some (head, lines.now))) (λ _. memory.new ≡ memory.old) }
    {
        let question = head.question(self.day, self.owner);
        if !question.in_range() {
            return Ok(Err(Fault::OutOfRange));
        }
        if head.lines as usize > self.registry.len() * HOUSES {
            return Ok(Err(Fault::TooManyLines));
        }
        check(&self.registry, &question, head.lines, lines, memory)
    }

    // The answer to a request: whoever is let in may. A delivery that is no request is refused.
    #[tactic(auto, using(crate::proofs::Keeping::front_enough))]
    pub fn answer(&self, bytes: &[u8], memory: &mut [u64]) -> Result<Answer, ShortMemory>
        ensures value { MatchResult result (λ a. a ≡ answer (state_of self.now) bytes.now) (λ _. (length memory.old < 16384) × LinesLookedAt (state_of self.now) (take_head bytes.now)) }
        ensures memory { MatchResult result (λ _. memory.new ≡ left_by (state_of self.now) bytes.now memory.old) (λ _. memory.new ≡ memory.old) }
        ensures front { IfOk result (λ a. AnsweredByFront (state_of self.now) bytes.now a) }
        ensures promised { IfOk result (λ a. KeptAnswer (state_of self.now) bytes.now a) }
    {
        let Some((head, lines)) = read_head(bytes) else {
            return Ok(Answer::Refused(Fault::Malformed));
        };
        match self.look(head, lines, memory)? {
            Ok(()) => Ok(Answer::Open),
            Err(fault) => Ok(Answer::Refused(fault)),
        }
    }
}

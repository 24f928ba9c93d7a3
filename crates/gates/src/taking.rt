// What a gate does on each event. A gate goes through by value, a rule of the project: each method gives back the gate after it.
ghost use Rattle.std.specs.Prelude.{◌≡◌, ◌<◌, ◌≤◌, length, if◌then◌else◌, IfOk, IfSome, MatchResult, nat_le};
ghost use Rattle.certificates.specs.Certificates.{WellFormed};
ghost use Rattle.gates.specs.Gates.{state_of, first_read};
ghost use Rattle.gates.specs.declared.troubles.Trouble.TheVariants.{NoMemory, UnknownHouse};
ghost use Rattle.promise.specs.States.{fresh_gate, issue, revoke, day_passed, take, take_read};
ghost use Rattle.wire.specs.Exact.{Writable};
ghost use Rattle.wire.specs.Numbers.{split};
ghost use Rattle.wire.specs.Reading.{event_read};

use crate::Gate;
use crate::troubles::Trouble;
use certificates::{Certificate, LAST_HOUSE};
use registry::Registry;
use std::alloc::Global;
use wire::events::Event;
use wire::faults::Fault;
use wire::reading::read_event;

impl Gate {
    // A gate of `owner` on day 0, without certificates.
    pub fn new(heap: Global, owner: u16) -> Result<Gate, Trouble>
        ensures { MatchResult result (λ g. (state_of g ≡ fresh_gate owner) × (owner ≤ 1023)) (λ t. t ≡ (if nat_le owner 1023 then NoMemory else UnknownHouse)) }
    {
        if owner > LAST_HOUSE {
            return Err(Trouble::UnknownHouse);
        }
        Ok(Gate {
            owner,
            day: 0,
            registry: Registry::new(heap)?,
        })
    }

    // A certificate comes, and gets the next number.
    fn issue(mut self, certificate: Certificate) -> (Gate, Option<Fault>)
        requires { WellFormed certificate }
        ensures { (state_of result.0, result.1) ≡ issue (state_of self) certificate }
    {
        let refused = self.registry.issue(certificate).err();
        (self, refused)
    }

    // The certificate of this number is taken back.
    fn revoke(mut self, number: u16) -> (Gate, Option<Fault>)
        ensures { (state_of result.0, result.1) ≡ revoke (state_of self) number }
    {
        let unknown = self.registry.revoke(number).err();
        (self, unknown)
    }

    // A day passes, unless it is the last.
    fn pass_day(mut self) -> (Gate, Option<Fault>)
        ensures { (state_of result.0, result.1) ≡ day_passed (state_of self) }
    {
        let Some(next) = self.day.checked_add(1) else {
            return (self, Some(Fault::LastDay));
        };
        self.day = next;
        (self, None)
    }

    // What the gate is after an event, and the fault where the event is refused.
    fn take(self, event: Event) -> (Gate, Option<Fault>)
        requires { Writable event }
        ensures { (state_of result.0, result.1) ≡ take (state_of self) event }
    {
        match event {
            Event::Issued(certificate) => self.issue(certificate),
            Event::Revoked(number) => self.revoke(number),
            Event::DayPassed => self.pass_day(),
        }
    }

    // What the gate is after what was read: an event, or the fault of one that is refused.
    fn take_read(self, read: Result<Event, Fault>) -> (Gate, Option<Fault>)
        requires { IfOk read Writable }
        ensures { (state_of result.0, result.1) ≡ take_read (state_of self) read }
    {
        match read {
            Ok(event) => self.take(event),
            Err(fault) => (self, Some(fault)),
        }
    }

    // Takes the first event of some bytes: the gate after it, the fault where it is refused, and what follows it.
    // None where nothing can be read; the gate is as it was then.
    #[tactic(auto, using(promise::proofs::Shorter::read_writable, promise::proofs::Shorter::shorter))]
    pub fn take_first(self, bytes: &[u8]) -> (Gate, Option<(Option<Fault>, &[u8])>)
        ensures value { (state_of result.0, split result.1) ≡ first_read (state_of self) (event_read bytes.now) }
        ensures shorter { IfSome result.1 (λ p. length p.1.now < length bytes.now) }
    {
        // A reader's answer is taken apart by `let .. else`, a rule of the project.
        let Some((read, rest)) = read_event(bytes) else {
            return (self, None);
        };
        let (gate, fault) = self.take_read(read);
        (gate, Some((fault, rest)))
    }
}

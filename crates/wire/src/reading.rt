// Events from bytes. An event is framed first, that is, its kind and length are settled; then its values are looked at.
// A reader's answer is taken apart by `let .. else`, so that what a missing part leads to stands beside it.
ghost use Rattle.wire.specs.Exact.{Exactly};
ghost use Rattle.wire.specs.Numbers.{split};
ghost use Rattle.wire.specs.Reading.{take_subject, take_statement, take_rights, frame, looked, event_read};
ghost use Rattle.std.specs.Prelude.{◌≡◌};

use crate::events::Event;
use crate::faults::Fault;
use crate::numbers::{read, read_u16s};
use certificates::{Certificate, Statement, Subject};

// The most bytes that an event can have: a certificate with 255 names. So many settle what stands first, even where nothing can be read.
pub const LONGEST_EVENT: usize = 533;

// What a certificate says of its subject: a tag, then a name or a set of rights. Tags are matched as numbers, a rule of the project; `writing` has the same ones.
fn read_statement(subject: Subject, bytes: &[u8]) -> Option<(Statement, &[u8])>
    ensures { split result ≡ take_statement subject bytes.now }
{
    let Some((tag, rest)) = read::<u8, 1>(bytes) else {
        return None;
    };
    match tag {
        0 => {
            let Some((name, rest)) = read::<u16, 2>(rest) else {
                return None;
            };
            Some((Statement::Name { subject, name }, rest))
        }
        1 => read_rights(subject, rest, false),
        2 => read_rights(subject, rest, true),
        _ => None,
    }
}

// A set of rights, which may be passed on or not.
fn read_rights(subject: Subject, bytes: &[u8], delegable: bool) -> Option<(Statement, &[u8])>
    ensures { split result ≡ take_rights subject bytes.now delegable }
{
    let Some((rights, rest)) = read::<u64, 8>(bytes) else {
        return None;
    };
    Some((
        Statement::Rights {
            subject,
            rights,
            delegable,
        },
        rest,
    ))
}

// Whom a certificate speaks of: a house, how many names follow it, and these.
fn read_subject(bytes: &[u8]) -> Option<(Subject, &[u8])>
    ensures { split result ≡ take_subject bytes.now }
{
    let Some((house, rest)) = read::<u16, 2>(bytes) else {
        return None;
    };
    let Some((count, rest)) = read::<u8, 1>(rest) else {
        return None;
    };
    let Some((six, rest)) = read_u16s(count, rest) else {
        return None;
    };
    let names = six.numbers;
    Some((
        Subject {
            house,
            names,
            count,
        },
        rest,
    ))
}

// A certificate's bytes taken apart; its values are not looked at.
fn frame_certificate(bytes: &[u8]) -> Option<(Certificate, &[u8])>
    ensures { split result ≡ frame bytes.now }
{
    let Some((issuer, rest)) = read::<u16, 2>(bytes) else {
        return None;
    };
    let Some((first, rest)) = read::<u32, 4>(rest) else {
        return None;
    };
    let Some((last, rest)) = read::<u32, 4>(rest) else {
        return None;
    };
    let Some((subject, rest)) = read_subject(rest) else {
        return None;
    };
    let Some((statement, rest)) = read_statement(subject, rest) else {
        return None;
    };
    let certificate = Certificate {
        issuer,
        first,
        last,
        statement,
    };
    Some((certificate, rest))
}

// A certificate, its values looked at.
fn read_certificate(bytes: &[u8]) -> Option<(Result<Event, Fault>, &[u8])>
    ensures { split result ≡ looked (frame bytes.now) }
{
    let Some((certificate, rest)) = frame_certificate(bytes) else {
        return None;
    };
    if certificate.in_range() {
        Some((Ok(Event::Issued(certificate)), rest))
    } else {
        Some((Err(Fault::OutOfRange), rest))
    }
}

// The next event, or the fault of one with a value that it may not have, and what follows it.
// None where its length can't be known, which is fault 1: nothing more is read then. Kinds are matched as numbers, as tags are.
#[tactic(auto, using(crate::proofs::Exact::exactly_read))]
pub fn read_event(bytes: &[u8]) -> Option<(Result<Event, Fault>, &[u8])>
    ensures value { split result ≡ event_read bytes.now }
    ensures exact { Exactly bytes.now (split result) }
{
    let Some((kind, rest)) = read::<u8, 1>(bytes) else {
        return None;
    };
    match kind {
        1 => read_certificate(rest),
        2 => {
            let Some((number, rest)) = read::<u16, 2>(rest) else {
                return None;
            };
            Some((Ok(Event::Revoked(number)), rest))
        }
        3 => Some((Ok(Event::DayPassed), rest)),
        _ => None,
    }
}

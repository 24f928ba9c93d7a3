// What the tests ask with: certificates, questions, a gate and deliveries, in few words.
use certificates::access::Access;
use certificates::{Certificate, Statement, Subject};
use gates::Gate;
use registry::Registry;
use sheets::checking::Question;
use std::alloc::Global;
use std::test::*;

// The line numbers that are lent: one for each of 1,024 rows and houses. It stands here too, so that the tests hold the library to it.
pub(crate) const NUMBERS: usize = 1048576;

// Fails with the note where the fact does not hold: for helpers that have no runtime to assert with.
pub(crate) fn check(holds: bool, note: &str) -> Result<(), Fail> {
    if holds { Ok(()) } else { Err(Fail::new(note)) }
}

// Right 3 alone is given.
fn right_3(delegable: bool, subject: Subject) -> Statement {
    Statement::Rights {
        rights: 8,
        delegable,
        subject,
    }
}

// Whoever is reached from a house by the first of six names.
pub(crate) fn subject(house: u16, names: [u16; 6], count: u8) -> Subject {
    Subject {
        house,
        names,
        count,
    }
}

// A house alone, or whoever is reached from it by one name, or by two.
pub(crate) fn plain(house: u16) -> Subject {
    subject(house, [0; 6], 0)
}

pub(crate) fn by(house: u16, name: u16) -> Subject {
    subject(house, [name, 0, 0, 0, 0, 0], 1)
}

pub(crate) fn by_two(house: u16, name: u16, then: u16) -> Subject {
    subject(house, [name, then, 0, 0, 0, 0], 2)
}

// A certificate valid from day 4 to day 9.
pub(crate) fn certificate(issuer: u16, statement: Statement) -> Certificate {
    Certificate {
        issuer,
        first: 4,
        last: 9,
        statement,
    }
}

pub(crate) fn names(issuer: u16, name: u16, subject: Subject) -> Certificate {
    certificate(issuer, Statement::Name { subject, name })
}

// Right 3 given to be passed on, or to be had only.
pub(crate) fn gives(issuer: u16, subject: Subject) -> Certificate {
    certificate(issuer, right_3(true, subject))
}

pub(crate) fn gives_only(issuer: u16, subject: Subject) -> Certificate {
    certificate(issuer, right_3(false, subject))
}

// The certificates, numbered as they stand.
pub(crate) fn registry_of(heap: Global, certificates: &[Certificate]) -> Result<Registry, Fail> {
    let mut registry = Registry::new(heap)?;
    for certificate in certificates {
        registry.issue(*certificate)?;
    }
    Ok(registry)
}

// Whether the house has the owner's right on day 9.
pub(crate) fn asked(owner: u16, right: u8, house: u16) -> Question {
    Question {
        access: Access {
            day: 9,
            owner,
            right,
        },
        house,
    }
}

pub(crate) fn may(house: u16) -> Question {
    asked(1, 3, house)
}

// The same on another day.
pub(crate) fn may_on(day: u32, house: u16) -> Question {
    let question = may(house);
    Question {
        access: question.access.on_day(day),
        ..question
    }
}

// The gate of house 1, as it begins.
pub(crate) fn new_gate(heap: Global) -> Result<Gate, Fail> {
    Ok(Gate::new(heap, 1)?)
}

// Deliveries as they come from files.
pub(crate) fn listed(heap: Global, deliveries: &[&[u8]]) -> Result<Vec<Vec<u8>>, Fail> {
    let mut list = Vec::new(heap);
    for bytes in deliveries {
        list.push(Vec::from_slice(heap, bytes)?)?;
    }
    Ok(list)
}

// Ways found by facts in memory: the least steps where several lead to a house, and houses to skip.
use crate::building::{registry_of, subject};
use certificates::{Certificate, Statement};
use facts::{is_shown, show};
use finding_frontier::Ways;
use finding_frontier::filled::FilledRows;
use registry::Registry;
use sheets::checking::MEMORY_WORDS;
use std::alloc::Global;
use std::test::*;

// A certificate by which a name of the issuer stands for a house's names. It is valid from day 0, unlike those that other tests build.
fn names(issuer: u16, name: u16, house: u16, names: [u16; 6], count: u8) -> Certificate {
    Certificate {
        issuer,
        first: 0,
        last: 9,
        statement: Statement::Name {
            name,
            subject: subject(house, names, count),
        },
    }
}

// The rows are: name 5 of house 1, name 6 of house 2, name 6 of house 7.
fn rows_of(heap: Global) -> Result<Registry, Fail> {
    let certificates = [(1, 5), (2, 6), (7, 6)].map(|(issuer, name)| names(
        issuer, name, 9, [0; 6], 0,
    ));
    registry_of(heap, &certificates)
}

// House 1's 5 means 2 and 7, 2's 6 means 64 and 900, and 7's 6 means 3 and 64.
fn memory_of(heap: Global) -> Result<Vec<u64>, Fail> {
    let mut memory = vec![in heap; 0; MEMORY_WORDS]?;
    for (row, house) in [(0, 7), (0, 2), (1, 900), (1, 64), (2, 64), (2, 3)] {
        show(&mut memory, row, house);
    }
    Ok(memory)
}

// Any word of the memory may hold houses.
fn facts_in(memory: &[u64]) -> Result<FilledRows, Fail> {
    let Some(facts) = FilledRows::of_any(memory) else {
        return Err(Fail::new("memory of another size"));
    };
    Ok(facts)
}

#[test]
fn least_steps(rt: HostRuntime) -> Result<(), Fail> {
    let heap = rt.alloc();
    let registry = rows_of(heap)?;
    let memory = memory_of(heap)?;
    let facts = facts_in(&memory)?;
    let mut ways = Ways::new(heap)?;
    let certificate = names(4, 4, 1, [5, 6, 0, 0, 0, 0], 2);
    let mut skip = [0; 16];
    show(&mut skip, 0, 900);
    let met = ways.reach(&registry, &facts, &certificate, skip);
    for (house, is_met) in [(3, true), (64, true), (900, false), (2, false), (1, false)] {
        assert_eq!(rt; is_shown(&met, 0, house), is_met);
    }
    // both 2 and 7 lead to 64: the smaller is taken
    assert_eq!(rt; ways.way_to(64).numbers, [2, 64, 0, 0, 0, 0]);
    assert_eq!(rt; ways.way_to(3).numbers, [7, 3, 0, 0, 0, 0]);
    assert_eq!(rt; ways.way_to(900).numbers, [0; 6]);
    Ok(())
}

#[test]
fn no_names(rt: HostRuntime) -> Result<(), Fail> {
    let heap = rt.alloc();
    let registry = rows_of(heap)?;
    let memory = memory_of(heap)?;
    let facts = facts_in(&memory)?;
    let mut ways = Ways::new(heap)?;
    let certificate = names(4, 4, 1023, [0; 6], 0);
    let mut skip = [0; 16];
    let met = ways.reach(&registry, &facts, &certificate, skip);
    assert!(rt; is_shown(&met, 0, 1023));
    show(&mut skip, 0, 1023);
    let met = ways.reach(&registry, &facts, &certificate, skip);
    assert!(rt; !is_shown(&met, 0, 1023));
    Ok(())
}

// Sheets whose bytes are written out by hand: each holds, or is refused with the fault that is told of it.
use crate::building::{
    asked, by, by_two, certificate, check, gives, gives_only, may, may_on, names, plain,
    registry_of,
};
use certificates::{Certificate, Statement};
use registry::Registry;
use sheets::checking;
use sheets::checking::{MEMORY_WORDS, Question};
use sheets::reading::skip_lines;
use std::alloc::Global;
use std::process::Abort;
use std::test::*;
use wire::faults::{Fault, Told};

// Memory is lent with every bit set, so that a check that doesn't wipe it takes every step for shown.
const ALL_SHOWN: u64 = u64::MAX;

// What is told of a whole sheet, of a line, and of a step.
fn of_all(number: u8) -> Told {
    Told {
        number,
        line: None,
        step: None,
    }
}

fn of_line(line: u32, number: u8) -> Told {
    Told {
        number,
        line: Some(line),
        step: None,
    }
}

fn of_step(line: u32, step: u8) -> Told {
    Told {
        number: 10,
        line: Some(line),
        step: Some(step),
    }
}

// Certificates, and the memory that each check is lent.
#[derive(Drop)]
struct Desk {
    registry: Registry,
    memory: Vec<u64>,
}

impl Desk {
    fn new(heap: Global, certificates: &[Certificate]) -> Result<Desk, Fail> {
        let registry = registry_of(heap, certificates)?;
        let memory = vec![in heap; ALL_SHOWN; MEMORY_WORDS]?;
        Ok(Desk { registry, memory })
    }

    fn answer(
        &mut self,
        question: Question,
        count: u32,
        lines: &[u8],
    ) -> Result<Result<(), Fault>, Fail> {
        let memory = self.memory.as_mut_slice();
        memory.fill(ALL_SHOWN);
        Ok(checking::check(&self.registry, &question, count, lines, memory)?)
    }

    fn holds(&mut self, question: Question, count: u32, lines: &[u8]) -> Result<(), Fail> {
        Ok(self.answer(question, count, lines)??)
    }

    fn refuses(
        &mut self,
        question: Question,
        count: u32,
        lines: &[u8],
        meant: Told,
    ) -> Result<(), Fail> {
        let Err(fault) = self.answer(question, count, lines)? else {
            return Err(Fail::new("not refused"));
        };
        check(fault.told() == meant, "another fault")
    }
}

#[test]
fn rights_passed_on(rt: HostRuntime) -> Result<(), Fail> {
    // the owner's name 5 stands for house 2 and has the right; the owner needs no line, and nobody else is shown
    let mut desk = Desk::new(rt.alloc(), &[names(1, 5, plain(2)), gives(1, by(1, 5))])?;
    desk.holds(may(2), 2, b"\x00\x00\x00\x01\x00\x02")?;
    desk.refuses(may(3), 2, b"\x00\x00\x00\x01\x00\x02", of_all(11))?;
    desk.holds(may(1), 0, b"")?;
    desk.refuses(may(2), 0, b"", of_all(11))?;
    // the line whose step is shown by the second only
    desk.refuses(may(2), 2, b"\x00\x01\x00\x02\x00\x00", of_step(0, 0))?;
    // given on by house 2, which may, and by house 3, which has it only
    let given = [
        gives(1, plain(2)),
        gives_only(2, plain(3)),
        gives(3, plain(4)),
    ];
    let mut desk = Desk::new(rt.alloc(), &given)?;
    desk.holds(may(2), 1, b"\x00\x00")?;
    desk.holds(may(3), 2, b"\x00\x00\x00\x01")?;
    desk.refuses(may(4), 3, b"\x00\x00\x00\x01\x00\x02", of_line(2, 9))?;
    // two names, each standing for the other
    let ring = [names(1, 5, by(2, 5)), names(2, 5, by(1, 5))];
    let mut desk = Desk::new(rt.alloc(), &ring)?;
    let lines = b"\x00\x00\x00\x02\x00\x01\x00\x02";
    desk.refuses(may(2), 2, lines, of_step(0, 0))?;
    let lines = b"\x00\x01\x00\x02\x00\x00\x00\x02";
    desk.refuses(may(2), 2, lines, of_step(0, 0))
}

#[test]
fn days(rt: HostRuntime) -> Result<(), Fail> {
    let mut desk = Desk::new(rt.alloc(), &[names(1, 5, plain(2)), gives(1, plain(2))])?;
    // the first day and the last, then the days beside them
    desk.holds(may_on(4, 2), 1, b"\x00\x01")?;
    desk.holds(may_on(9, 2), 1, b"\x00\x01")?;
    desk.refuses(may_on(3, 2), 1, b"\x00\x01", of_line(0, 7))?;
    desk.refuses(may_on(10, 2), 1, b"\x00\x01", of_line(0, 7))?;
    // one that is taken back, behind one that is not
    desk.registry.revoke(1)?;
    desk.refuses(may(2), 1, b"\x00\x01", of_line(0, 7))?;
    desk.refuses(may(2), 2, b"\x00\x00\x00\x01", of_line(1, 7))
}

// Certificates that a line may have trouble with.
fn troubled() -> [Certificate; 7] {
    let right_2 = Statement::Rights {
        rights: 4,
        delegable: true,
        subject: plain(2),
    };
    [
        names(1, 5, plain(2)),
        gives(1, by_two(1, 5, 6)),
        certificate(1, right_2),
        gives(3, plain(2)),
        gives(1, plain(2)),
        certificate(3, right_2),
        gives(3, by(1, 5)),
    ]
}

#[test]
fn every_fault(rt: HostRuntime) -> Result<(), Fail> {
    let mut desk = Desk::new(rt.alloc(), &troubled())?;
    // no line, half a number; behind a good line half a number, half a house
    desk.refuses(may(2), 1, b"", of_line(0, 1))?;
    desk.refuses(may(2), 1, b"\x00", of_line(0, 1))?;
    desk.refuses(may(2), 2, b"\x00\x04\x00", of_line(1, 1))?;
    desk.refuses(may(2), 2, b"\x00\x04\x00\x01\x00\x02\x00", of_line(1, 1))?;
    // house 1024, where house 1023 is only not shown
    let lines = b"\x00\x04\x00\x01\x00\x02\x04\x00";
    desk.refuses(may(2), 2, lines, of_line(1, 2))?;
    desk.refuses(may(2), 1, b"\x00\x01\x03\xff\x00\x02", of_step(0, 0))?;
    // numbers that no certificate has
    desk.refuses(may(2), 1, b"\x00\x07", of_line(0, 4))?;
    desk.refuses(may(2), 2, b"\x00\x04\xff\xff", of_line(1, 4))?;
    // another right, an issuer that is not shown, a second step
    desk.refuses(may(2), 2, b"\x00\x04\x00\x02", of_line(1, 8))?;
    desk.refuses(may(2), 1, b"\x00\x03", of_line(0, 9))?;
    let lines = b"\x00\x00\x00\x01\x00\x02\x00\x03";
    desk.refuses(may(2), 2, lines, of_step(1, 1))?;
    // good lines with a byte behind them, and without the right
    desk.refuses(may(2), 1, b"\x00\x04\xff", of_all(1))?;
    desk.refuses(may(2), 1, b"\x00\x00", of_all(11))?;
    // of several faults the lowest: not valid, and cut, with house 1024, of another right
    let late = may_on(10, 2);
    desk.refuses(late, 1, b"\x00\x01\x04\x00\x04", of_line(0, 1))?;
    desk.refuses(late, 1, b"\x00\x01\x00\x02\x04\x00", of_line(0, 2))?;
    desk.refuses(late, 1, b"\x00\x02", of_line(0, 7))?;
    // an issuer that is not shown, of another right, with a step that is not shown
    desk.refuses(may(2), 1, b"\x00\x05", of_line(0, 8))?;
    desk.refuses(may(2), 1, b"\x00\x06\x00\x02", of_line(0, 9))?;
    // a byte left over, and the house not shown
    desk.refuses(may(2), 1, b"\x00\x00\xff", of_all(1))?;
    // of two lines the first
    desk.refuses(may(2), 2, b"\x00\x03\x00", of_line(0, 9))
}

#[test]
fn facts_of_names(rt: HostRuntime) -> Result<(), Fail> {
    // one name for houses 1023, 2 and 3: each is shown by its own line
    let several = [
        names(1, 5, plain(1023)),
        names(1, 5, plain(2)),
        names(1, 5, plain(3)),
        gives(1, by(1, 5)),
    ];
    let mut desk = Desk::new(rt.alloc(), &several)?;
    desk.holds(may(1023), 3, b"\x00\x00\x00\x01\x00\x03\x03\xff")?;
    desk.holds(may(2), 4, b"\x00\x00\x00\x01\x00\x02\x00\x03\x00\x02")?;
    desk.refuses(may(2), 2, b"\x00\x00\x00\x03\x00\x02", of_step(1, 0))?;
    desk.refuses(may(1023), 2, b"\x00\x01\x00\x03\x03\xff", of_step(1, 0))?;
    // name 7 of house 1 stands for whoever is reached by two names, its name 8 for nobody
    let chained = [
        names(1, 5, plain(2)),
        names(2, 8, plain(3)),
        names(1, 7, by_two(1, 5, 8)),
        gives(1, by(1, 7)),
        gives(1, by(1, 8)),
    ];
    let mut desk = Desk::new(rt.alloc(), &chained)?;
    let lines = b"\x00\x00\x00\x01\x00\x02\x00\x02\x00\x03\x00\x03\x00\x03";
    desk.holds(may(3), 4, lines)?;
    desk.refuses(may(2), 4, lines, of_all(11))?;
    desk.refuses(may(3), 2, b"\x00\x01\x00\x04\x00\x03", of_step(1, 0))
}

fn all_are(rt: &impl Abort, words: &[u64], word: u64) -> Result<(), Fail> {
    for found in words {
        assert!(rt; *found == word, "another word in memory");
    }
    Ok(())
}

#[test]
fn memory_lent(rt: HostRuntime) -> Result<(), Fail> {
    let mut desk = Desk::new(rt.alloc(), &[names(1, 5, plain(2))])?;
    // the good line is remembered, and nothing of what was there
    desk.refuses(may(2), 2, b"\x00\x00\x00\x01", of_line(1, 4))?;
    let [first, rest @ ..] = desk.memory.as_slice() else {
        return Err(Fail::new("no memory"));
    };
    assert_eq!(rt; *first, 4);
    all_are(&rt, rest, 0)?;
    // the last houses and the last right that there are, then one above each
    desk.holds(asked(1023, 63, 1023), 0, b"")?;
    desk.refuses(asked(1023, 63, 1024), 1, b"\x00\x00", of_all(2))?;
    all_are(&rt, desk.memory.as_slice(), ALL_SHOWN)?;
    desk.refuses(asked(1024, 63, 1023), 1, b"\x00\x00", of_all(2))?;
    desk.refuses(asked(1023, 64, 1023), 1, b"\x00\x00", of_all(2))?;
    // one word too few
    let mut short = vec![in rt.alloc(); ALL_SHOWN; MEMORY_WORDS - 1]?;
    let answer = checking::check(&desk.registry, &may(1), 0, b"", short.as_mut_slice());
    assert!(rt; answer.is_err(), "checked with short memory");
    all_are(&rt, short.as_slice(), ALL_SHOWN)?;
    // as many certificates as there may be: the last has the last row, and house 1023 its last bit
    let mut desk = Desk::new(rt.alloc(), &[gives(1, by(1, 1023))])?;
    for name in 1..1023 {
        desk.registry.issue(names(1, name, plain(2)))?;
    }
    desk.registry.issue(names(1, 1023, plain(1023)))?;
    desk.holds(may(1023), 2, b"\x03\xff\x00\x00\x03\xff")?;
    desk.refuses(may(2), 2, b"\x03\xfe\x00\x00\x00\x02", of_step(1, 0))
}

#[test]
fn lines_skipped(rt: HostRuntime) -> Result<(), Fail> {
    let registry = registry_of(rt.alloc(), &[names(1, 5, plain(2)), gives(1, by(1, 5))])?;
    // two lines with a byte behind, of which the second names a house that there is not
    let bytes = b"\x00\x00\x00\x01\x04\x00\x07";
    let Some(rest) = skip_lines(&registry, 2, bytes) else {
        return Err(Fail::new("two lines not skipped"));
    };
    assert!(rt; rest == b"\x07".as_slice(), "another rest");
    let Some(rest) = skip_lines(&registry, 0, bytes) else {
        return Err(Fail::new("no lines not skipped"));
    };
    assert!(rt; rest == bytes.as_slice(), "no lines, but bytes skipped");
    // the third is cut; a house is cut; a number that no certificate has
    assert!(rt; skip_lines(&registry, 3, bytes).is_none(), "number cut");
    assert!(rt;
        skip_lines(&registry, 1, b"\x00\x01\x00").is_none(),
        "house cut"
    );
    assert!(rt;
        skip_lines(&registry, 1, b"\x00\x02\x00").is_none(),
        "unknown number"
    );
    Ok(())
}

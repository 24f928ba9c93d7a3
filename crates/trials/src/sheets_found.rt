// Sheets that are found: the request is written as the bytes that are written out by hand, and its sheet holds.
use crate::building::{
    NUMBERS, asked, by, by_two, check, gives, gives_only, may, may_on, names, plain, registry_of,
};
use certificates::Certificate;
use finding::growing;
use finding::sheets_found::{Unfound, find};
use registry::Registry;
use sheets::checking;
use sheets::checking::{MEMORY_WORDS, Question};
use std::alloc::Global;
use std::process::Abort;
use std::test::*;

// The bytes that a request is lent, and what stands where nothing is written.
const ROOM: usize = 48;

const FREE: u8 = 255;

// A request with the head's first bytes, some others, and free ones behind them.
fn request_of(heap: Global, others: &[u8]) -> Result<Vec<u8>, Fail> {
    let mut request = Vec::from_slice(heap, b"head")?;
    request.extend_from_slice(others)?;
    request.resize(ROOM, FREE)?;
    Ok(request)
}

// Certificates, and the memory that is lent; nothing in it is clear.
#[derive(Drop)]
pub(crate) struct Finder {
    pub(crate) heap: Global,
    pub(crate) registry: Registry,
    pub(crate) names: Vec<u64>,
    name_lines: Vec<u32>,
}

impl Finder {
    pub(crate) fn new(heap: Global, certificates: &[Certificate]) -> Result<Finder, Fail> {
        let registry = registry_of(heap, certificates)?;
        let names = vec![in heap; u64::MAX; MEMORY_WORDS]?;
        let name_lines = vec![in heap; u32::MAX; NUMBERS]?;
        Ok(Finder {
            heap,
            registry,
            names,
            name_lines,
        })
    }

    pub(crate) fn find(
        &mut self,
        question: &Question,
        request: &mut [u8],
    ) -> Result<usize, Unfound> {
        find(
            self.heap,
            &self.registry,
            question,
            self.names.as_mut_slice(),
            self.name_lines.as_mut_slice(),
            request,
        )
    }

    // The request is written as it is meant, and nothing behind it.
    fn written(&mut self, question: &Question, meant: &[u8]) -> Result<(), Fail> {
        let mut request = request_of(self.heap, b"")?;
        let long = self.find(question, request.as_mut_slice())?;
        check(long.checked_sub(4) == Some(meant.len()), "another length")?;
        let whole = request_of(self.heap, meant)?;
        check(request.as_slice() == whole.as_slice(), "another request")
    }

    fn holds(&mut self, question: &Question, meant: &[u8]) -> Result<(), Fail> {
        let [_, _, _, count, lines @ ..] = meant else {
            return Err(Fail::new("no number of lines"));
        };
        let count = u32::from(*count);
        let memory = self.names.as_mut_slice();
        Ok(checking::check(&self.registry, question, count, lines, memory)??)
    }

    // Whether the house may is told without a sheet too.
    fn tells(&mut self, question: &Question, meant: bool) -> Result<(), Fail> {
        let told = growing::may(
            self.heap,
            &self.registry,
            question,
            self.names.as_mut_slice(),
            self.name_lines.as_mut_slice(),
        );
        check(told == Ok(meant), "told otherwise")
    }

    // The number of lines and the lines that are written, which hold; and the house may.
    pub(crate) fn finds(&mut self, question: Question, meant: &[u8]) -> Result<(), Fail> {
        self.written(&question, meant)?;
        self.tells(&question, true)?;
        self.holds(&question, meant)
    }

    // There is no sheet, and the request is left as it was; and the house may not.
    pub(crate) fn finds_none(&mut self, question: Question) -> Result<(), Fail> {
        let mut request = request_of(self.heap, b"")?;
        let found = self.find(&question, request.as_mut_slice());
        check(
            found == Err(Unfound::NoSheet),
            "a sheet, or another refusal",
        )?;
        let before = request_of(self.heap, b"")?;
        check(request.as_slice() == before.as_slice(), "request written")?;
        self.tells(&question, false)
    }
}

#[test]
fn worked_cases(rt: HostRuntime) -> Result<(), Fail> {
    // a right that comes by a name; the owner needs no line
    let by_name = [names(1, 5, plain(2)), gives_only(1, by(1, 5))];
    let mut finder = Finder::new(rt.alloc(), &by_name)?;
    finder.finds(may(2), b"\x00\x00\x00\x02\x00\x00\x00\x01\x00\x02")?;
    finder.finds(may(1), b"\x00\x00\x00\x00")?;
    finder.finds_none(may(3))?;
    // had only: the house may, and its own certificate gives nothing
    let had_only = [gives_only(1, plain(2)), gives(2, plain(4))];
    let mut finder = Finder::new(rt.alloc(), &had_only)?;
    finder.finds(may(2), b"\x00\x00\x00\x01\x00\x00")?;
    finder.finds_none(may(4))?;
    // the first day and the last, then the days beside them
    finder.finds(may_on(4, 2), b"\x00\x00\x00\x01\x00\x00")?;
    finder.finds_none(may_on(3, 2))?;
    finder.finds_none(may_on(10, 2))
}

#[test]
fn rings(rt: HostRuntime) -> Result<(), Fail> {
    // two names that stand for each other mean nobody, and with a way out the house there
    let two = [
        names(1, 5, by(2, 5)),
        names(2, 5, by(1, 5)),
        gives(1, by(1, 5)),
    ];
    let mut finder = Finder::new(rt.alloc(), &two)?;
    finder.finds_none(may(4))?;
    finder.registry.issue(names(2, 5, plain(4)))?;
    let lines = b"\x00\x00\x00\x03\x00\x03\x00\x00\x00\x04\x00\x02\x00\x04";
    finder.finds(may(4), lines)?;
    // the same with three
    let three = [
        names(1, 5, by(2, 5)),
        names(2, 5, by(3, 5)),
        names(3, 5, by(1, 5)),
        gives(1, by(1, 5)),
    ];
    let mut finder = Finder::new(rt.alloc(), &three)?;
    finder.finds_none(may(4))?;
    finder.registry.issue(names(3, 5, plain(4)))?;
    let lines = b"\x00\x00\x00\x04\x00\x04\x00\x01\x00\x04\x00\x00\x00\x04\x00\x03\x00\x04";
    finder.finds(may(4), lines)
}

#[test]
fn ways(rt: HostRuntime) -> Result<(), Fail> {
    // names met twice, with other names after them
    let doubled = [
        names(1, 1, by_two(1, 2, 2)),
        names(1, 2, by_two(1, 3, 3)),
        names(1, 3, plain(1)),
        gives(7, by(1, 1)),
    ];
    let mut finder = Finder::new(rt.alloc(), &doubled)?;
    let lines =
        b"\x00\x00\x00\x04\x00\x02\x00\x01\x00\x01\x00\x01\x00\x00\x00\x01\x00\x01\x00\x03\x00\x01";
    finder.finds(asked(7, 3, 1), lines)?;
    // two ways to house 4, of which the one over house 2 is smaller
    let forked = [
        names(1, 5, plain(3)),
        names(1, 5, plain(2)),
        names(3, 6, plain(4)),
        names(2, 6, plain(4)),
        gives(1, by_two(1, 5, 6)),
    ];
    let mut finder = Finder::new(rt.alloc(), &forked)?;
    let lines = b"\x00\x00\x00\x03\x00\x01\x00\x03\x00\x04\x00\x02\x00\x04";
    finder.finds(may(4), lines)
}

#[test]
fn taken_back(rt: HostRuntime) -> Result<(), Fail> {
    // had only, and had to be passed on: the second is shown as long as it can be
    let both = [gives_only(1, plain(2)), gives(1, plain(2))];
    let mut finder = Finder::new(rt.alloc(), &both)?;
    finder.finds(may(2), b"\x00\x00\x00\x01\x00\x01")?;
    finder.registry.revoke(1)?;
    finder.finds(may(2), b"\x00\x00\x00\x01\x00\x00")?;
    finder.registry.revoke(0)?;
    finder.finds_none(may(2))
}

#[test]
fn too_short(rt: HostRuntime) -> Result<(), Fail> {
    let mut finder = Finder::new(rt.alloc(), &[names(1, 5, plain(2)), gives(1, by(1, 5))])?;
    // one byte too few of fourteen, then no head
    let mut request = [FREE; 13];
    let found = finder.find(&may(2), &mut request);
    assert_eq!(rt; found, Err(Unfound::TooShort { needed: 14 }));
    assert_eq!(rt; request, [FREE; 13]);
    let found = finder.find(&may(1), &mut []);
    assert_eq!(rt; found, Err(Unfound::TooShort { needed: 8 }));
    Ok(())
}

// Another size of the lent memory is refused.
fn wrong_size(rt: &impl Abort, heap: Global, words: usize, numbers: usize) -> Result<(), Fail> {
    let mut finder = Finder::new(heap, &[])?;
    finder.names.resize(words, 0)?;
    finder.name_lines.resize(numbers, 0)?;
    let mut request = [FREE; 8];
    let found = finder.find(&may(1), &mut request);
    assert_eq!(rt; found, Err(Unfound::WrongSize));
    assert_eq!(rt; request, [FREE; 8]);
    Ok(())
}

#[test]
fn memory_of_another_size(rt: HostRuntime) -> Result<(), Fail> {
    for (words, numbers) in [
        (MEMORY_WORDS - 1, NUMBERS),
        (MEMORY_WORDS + 1, NUMBERS),
        (MEMORY_WORDS, NUMBERS - 1),
        (MEMORY_WORDS, NUMBERS + 1),
    ] {
        wrong_size(&rt, rt.alloc(), words, numbers)?;
    }
    Ok(())
}

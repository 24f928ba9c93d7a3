// Sheets that are found over a thousand names, and for a name that means as many houses.
use crate::building::{by, check, gives_only, may, names, plain};
use crate::sheets_found::Finder;
use certificates::Certificate;
use sheets::checking;
use std::test::*;

// Each of a thousand names stands for the next, and the last for house 2.
const NAMES: u16 = 1000;

fn link(name: u16) -> Certificate {
    if name < NAMES - 1 {
        names(1, name, by(1, name + 1))
    } else {
        names(1, name, plain(2))
    }
}

impl Finder {
    fn issue(&mut self, certificate: Certificate) -> Result<(), Fail> {
        Ok(self.registry.issue(certificate)?)
    }

    // House 2 has the right by the first name, on a sheet of 1,001 lines, which holds.
    fn finds_chain(&mut self) -> Result<(), Fail> {
        self.issue(gives_only(1, by(1, 0)))?;
        let mut request = vec![in self.heap; 0; 4010]?;
        let long = self.find(&may(2), request.as_mut_slice())?;
        check(long == 4010, "of another length")?;
        let [_, _, _, _, 0, 0, 3, 233, lines @ ..] = request.as_slice() else {
            return Err(Fail::new("another number of lines"));
        };
        let memory = self.names.as_mut_slice();
        Ok(checking::check(&self.registry, &may(2), 1001, lines, memory)??)
    }
}

#[test]
fn a_thousand_names(rt: HostRuntime) -> Result<(), Fail> {
    // each certificate after the one that it rests on: one round finds all
    let mut finder = Finder::new(rt.alloc(), &[])?;
    for name in (0..NAMES).rev() {
        finder.issue(link(name))?;
    }
    finder.finds_chain()?;
    // each before it: a round for each name
    let mut finder = Finder::new(rt.alloc(), &[])?;
    for name in 0..NAMES {
        finder.issue(link(name))?;
    }
    finder.finds_chain()
}

#[test]
fn a_thousand_houses(rt: HostRuntime) -> Result<(), Fail> {
    let mut finder = Finder::new(rt.alloc(), &[])?;
    for house in 0..1023 {
        finder.issue(names(1, 5, plain(house)))?;
    }
    finder.issue(gives_only(1, by(1, 5)))?;
    finder.finds(may(0), b"\x00\x00\x00\x02\x00\x00\x03\xff\x00\x00")?;
    finder.finds(may(1022), b"\x00\x00\x00\x02\x03\xfe\x03\xff\x03\xfe")?;
    finder.finds_none(may(1023))
}

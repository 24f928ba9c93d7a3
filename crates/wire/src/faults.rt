// Why something is refused, and what is told of it.
ghost use Rattle.std.specs.Prelude.{◌≡◌, Some};
ghost use Rattle.wire.specs.Faults.{told_of, text_of};

use std::fmt;

#[derive(Clone, Copy, Debug, PartialEq, Eq)]
pub enum Fault {
    // an unknown kind or tag, or bytes that end too early: the event's length can't be known
    Malformed,
    // a house above 1,023, a right above 63, more than six names, or an empty set of rights
    OutOfRange,
    // a 1,025th certificate, in all that ever came
    TooManyCertificates,
    // a number that no certificate has
    UnknownCertificate,
    // the last day of all would pass
    LastDay,
    // a request has more lines than certificates times 1,024
    TooManyLines,
    // a line of a sheet is cut
    LineCut { line: u32 },
    // a line has a house above 1,023
    LineOutOfRange { line: u32 },
    // a line names a number that no certificate has
    LineUnknown { line: u32 },
    // a line's certificate is not valid on the day
    NotValid { line: u32 },
    // a line's certificate does not give the right
    NotGiven { line: u32 },
    // a line's issuer is not shown to have the right and be able to pass it on
    IssuerNotShown { line: u32 },
    // a step of a line is not shown
    StepNotShown { line: u32, step: u8 },
    // the house is not shown to have the right
    HouseNotShown,
    // there is no sheet for the house, since it may not
    NoSheet,
}

// What is told of a fault: its number, and its line and step where it has them. Lines and steps count from 0.
#[derive(Clone, Copy, Debug, PartialEq, Eq)]
pub struct Told {
    pub number: u8,
    pub line: Option<u32>,
    pub step: Option<u8>,
}

impl Fault {
    // What is told of it; the same reason has the same number, of an event and of a line.
    // A method and no `From`: the numbers stand here, beside the cases that they are told of.
    pub fn told(self) -> Told
        ensures { result ≡ told_of self }
    {
        let (number, line, step) = match self {
            Fault::Malformed => (1, None, None),
            Fault::OutOfRange => (2, None, None),
            Fault::TooManyCertificates => (3, None, None),
            Fault::UnknownCertificate => (4, None, None),
            Fault::LastDay => (5, None, None),
            Fault::TooManyLines => (6, None, None),
            Fault::LineCut { line } => (1, Some(line), None),
            Fault::LineOutOfRange { line } => (2, Some(line), None),
            Fault::LineUnknown { line } => (4, Some(line), None),
            Fault::NotValid { line } => (7, Some(line), None),
            Fault::NotGiven { line } => (8, Some(line), None),
            Fault::IssuerNotShown { line } => (9, Some(line), None),
            Fault::StepNotShown { line, step } => (10, Some(line), Some(step)),
            Fault::HouseNotShown => (11, None, None),
            Fault::NoSheet => (12, None, None),
        };
        Told { number, line, step }
    }
}

impl fmt::Display for Fault {
    ghost output = { λ fault. Some (text_of fault) };

    fn fmt<W: fmt::Write>(&self, f: &mut fmt::Formatter<W>) -> fmt::Result {
        let told = self.told();
        let number = told.number;
        match (told.line, told.step) {
            (Some(line), Some(step)) => write!(f, "{number} {line} {step}"),
            (Some(line), None) => write!(f, "{number} {line}"),
            _ => write!(f, "{number}"),
        }
    }
}

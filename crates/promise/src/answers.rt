// What a gate answers. Not a `Result`, since it is printed in words of its own, and `Display` can't be written for a `Result`.
ghost use Rattle.promise.specs.Answers.{text_of};
ghost use Rattle.std.specs.Prelude.{Some};

use std::fmt;
use wire::faults::Fault;

#[derive(Clone, Copy)]
pub enum Answer {
    // the request's sheet holds, and the gate opens
    Open,
    // an event or a request is refused
    Refused(Fault),
}

impl fmt::Display for Answer {
    ghost output = { λ answer. Some (text_of answer) };

    fn fmt<W: fmt::Write>(&self, f: &mut fmt::Formatter<W>) -> fmt::Result {
        match self {
            Answer::Open => write!(f, "open"),
            Answer::Refused(fault) => write!(f, "{fault}"),
        }
    }
}

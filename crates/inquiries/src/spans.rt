// Spans of days, and how they are told.
ghost use Rattle.inquiries.specs.Spans.{so_far, ended, gone_on, text_of};
ghost use Rattle.std.specs.Prelude.{◌≡◌, [], IfOk, Some, None};

use std::alloc::{AllocError, Global};
use std::fmt;

// The days from the first to the last, both included.
#[derive(Clone, Copy)]
pub struct Span {
    pub first: u32,
    pub last: u32,
}

impl fmt::Display for Span {
    ghost output = { λ span. Some (text_of span) };

    fn fmt<W: fmt::Write>(&self, f: &mut fmt::Formatter<W>) -> fmt::Result {
        let first = self.first;
        let last = self.last;
        if last == u32::MAX {
            write!(f, "{first} on")
        } else {
            write!(f, "{first} {last}")
        }
    }
}

// What is known before a day: the spans that ended, and the first day of one that lasts.
#[derive(Drop)]
pub(crate) struct SpansSoFar {
    pub(crate) done: Vec<Span>,
    pub(crate) since: Option<u32>,
}

impl SpansSoFar {
    // Before the first day nothing is known.
    pub(crate) fn new(heap: Global) -> SpansSoFar
        ensures { so_far result ≡ ([], None) }
    {
        SpansSoFar {
            done: Vec::new(heap),
            since: None,
        }
    }

    // From `day` on the house may, or may not: a span begins or lasts, or ends on the day before.
    pub(crate) fn go_on(&mut self, day: u32, may: bool) -> Result<(), AllocError>
        ensures { IfOk result (λ _. so_far self.new ≡ gone_on self.old.done.items self.old.since day may) }
    {
        if may {
            self.since = self.since.or(Some(day));
            return Ok(());
        }
        self.end(day.saturating_sub(1))
    }

    // Ends the span that lasts, if there is one.
    pub(crate) fn end(&mut self, last: u32) -> Result<(), AllocError>
        ensures { IfOk result (λ _. so_far self.new ≡ (ended self.old.done.items self.old.since last, None)) }
    {
        let Some(first) = self.since.take() else {
            return Ok(());
        };
        self.done.push(Span { first, last })?;
        Ok(())
    }
}

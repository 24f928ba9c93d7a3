// How programs tell the answers to refused events.
ghost use Rattle.std.specs.Prelude.{◌<◌};

use crate::files::PIECE;
use crate::places::begin_of;
use promise::answers::Answer;
use wire::reading::LONGEST_EVENT;

// A part of a file of which events were taken.
#[derive(Clone, Copy)]
pub(crate) struct Part<'a> {
    // the file
    pub(crate) name: &'a str,
    // how many bytes of the file stand in front of the part
    pub(crate) before: u64,
    pub(crate) bytes: &'a [u8],
    // how many bytes of the part are not taken
    pub(crate) left: usize,
}

impl Part<'_> {
    // The place in the file where the last event that was taken begins.
    fn last_begin(&self) -> u64 {
        self.before
            .saturating_add(begin_of(self.bytes, self.left) as u64)
    }
}

// A way to tell the answers to refused events.
pub(crate) trait Telling {
    // How many answers are held at once.
    fn answers_held(&self) -> usize
        ensures { 0 < result };

    // Tells the answers to the events of a part. It prints only, and no contract speaks of printed text.
    fn tell(&self, rt: &HostRuntime, part: &Part<'_>, answers: &[Answer]) -> anyhow::Result<()>;
}

// On standard output, by their number; all of a piece are held at once.
pub(crate) struct ByNumber;

impl Telling for ByNumber {
    fn answers_held(&self) -> usize {
        2 * PIECE + LONGEST_EVENT
    }

    fn tell(&self, rt: &HostRuntime, _part: &Part<'_>, answers: &[Answer]) -> anyhow::Result<()> {
        let mut lines = String::new(rt.alloc());
        for answer in answers {
            writeln!(lines, "{answer}")?;
        }
        print!(rt; "{lines}")?;
        Ok(())
    }
}

// On standard error, with the file and the place where the event begins; one is held at a time, so that its place is known.
pub(crate) struct ByPlace;

impl Telling for ByPlace {
    fn answers_held(&self) -> usize {
        1
    }

    fn tell(&self, rt: &HostRuntime, part: &Part<'_>, answers: &[Answer]) -> anyhow::Result<()> {
        let name = part.name;
        for answer in answers {
            let place = part.last_begin();
            eprintln!(rt; "{name}: byte {place}: {answer}")?;
        }
        Ok(())
    }
}

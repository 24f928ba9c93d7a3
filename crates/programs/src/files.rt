// Files of the programs, read in pieces.
ghost use Rattle.promise.specs.Happened.{is_request};
ghost use Rattle.programs.specs.Files.{ReadOn, ReadPast, last_bytes};
ghost use Rattle.std.specs.Prelude.{◌≡◌, ◌+◌, ◌-◌, ◌^◌, ◌<◌, ◌≤◌, true, [], IfOk, min, length};

use anyhow::anyhow;
use promise::heads::is_request;
use std::fs::File;
use std::io::Read;
use std::{fs, io};

// The most bytes that are read at once.
pub const PIECE: usize = 16384;

// A message that names the file. It is one text: a context would print apart from its cause.
fn trouble(name: &str, error: io::Error) -> anyhow::Error {
    anyhow!("{name}: {error}")
}

// Opens a file, which is no folder. No contract speaks of files, so only a run shows that it is the one named.
pub fn open_file(rt: &HostRuntime, name: &str) -> anyhow::Result<File> {
    let found = fs::metadata(rt, name).map_err(|error| trouble(name, error))?;
    if found.is_dir() {
        return Err(anyhow!("{name}: is a folder"));
    }
    fs::open(rt, name).map_err(|error| trouble(name, error))
}

// Reads on behind the bytes that are there; false at the end of the file. Which bytes come, only a run shows.
pub fn read_on(file: &mut File, name: &str, bytes: &mut Vec<u8>) -> anyhow::Result<bool>
    ensures { ReadOn bytes.old.items bytes.new.items result }
{
    let mut piece = [0u8; PIECE];
    let count = file.read(&mut piece).map_err(|error| trouble(name, error))?;
    bytes.extend_from_slice(&piece[0..count])?;
    Ok(count > 0)
}

// A file that is read as a delivery.
#[derive(Drop)]
pub(crate) struct Delivery<'a> {
    pub(crate) name: &'a str,
    file: File,
    // the bytes that are held
    pub(crate) bytes: Vec<u8>,
    // how many bytes of the file stand in front of them
    pub(crate) before: u64,
}

impl<'a> Delivery<'a> {
    // Opens the file; no byte is read yet.
    pub(crate) fn open(rt: &HostRuntime, name: &'a str) -> anyhow::Result<Delivery<'a>>
        ensures named { IfOk result (λ d. d.name.now ≡ name.entry.now) }
        ensures bytes { IfOk result (λ d. d.bytes.items ≡ []) }
        ensures before { IfOk result (λ d. d.before ≡ 0) }
    {
        let file = open_file(rt, name)?;
        let bytes = Vec::new(rt.alloc());
        Ok(Delivery {
            name,
            file,
            bytes,
            before: 0,
        })
    }

    // Reads on by a piece; false at the end of the file. The place of what is held stays.
    pub(crate) fn read_on(&mut self) -> anyhow::Result<bool>
        ensures bytes { ReadOn self.old.bytes.items self.new.bytes.items result }
        ensures before { self.new.before ≡ self.old.before }
    {
        read_on(&mut self.file, self.name, &mut self.bytes)
    }

    // Whether it is a request: its first byte says so.
    pub(crate) fn is_request(&self) -> bool
        ensures { result ≡ is_request self.now.bytes.items }
    {
        is_request(self.bytes.as_slice())
    }

    // Reads on until there are more bytes than `longest`, enough to see that it is longer; false where the file ends before.
    // Where a file ends, only a run shows.
    pub(crate) fn read_past(&mut self, longest: usize) -> anyhow::Result<bool>
        ensures bytes { ReadPast self.old.bytes.items self.new.bytes.items longest }
        ensures past { IfOk result (λ more. more ≡ true → longest < length self.new.bytes.items) }
        ensures before { self.new.before ≡ self.old.before }
    {
        // each turn but the last brings a byte at least
        while self.bytes.len() <= longest {
            if !self.read_on()? {
                return Ok(false);
            }
        }
        Ok(true)
    }

    // Reads on until a full piece came behind what is held; false where the file ends before.
    pub(crate) fn read_piece(&mut self) -> anyhow::Result<bool>
        ensures bytes { ReadPast self.old.bytes.items self.new.bytes.items (length self.old.bytes.items + 16383) }
        ensures full { IfOk result (λ more. more ≡ true → length self.old.bytes.items + 16384 ≤ length self.new.bytes.items) }
        ensures before { self.new.before ≡ self.old.before }
    {
        let held = self.bytes.len();
        self.read_past(held + (PIECE - 1))
    }

    // Holds only the last bytes, so many; what is dropped stands in front of them.
    pub(crate) fn keep(&mut self, left: usize)
        ensures bytes { self.new.bytes.items ≡ last_bytes left self.old.bytes.items }
        ensures before { self.new.before ≡ min (self.old.before + (length self.old.bytes.items - left)) (2 ^ 64 - 1) }
    {
        let count = self.bytes.len().saturating_sub(left);
        self.bytes.drain(..count);
        self.before = self.before.saturating_add(count as u64);
    }
}

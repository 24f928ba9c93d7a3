// Requests without lines, as the last of a program's files.
use crate::arguments::{Call, read_call};
use crate::files::Delivery;
use crate::taking::{new_gate, open_all, take_file};
use anyhow::{Context, anyhow};
use finding::sheets_found::Unfound;
use finding_lines::lines::NUMBERS;
use gates::Gate;
use promise::heads::HEAD;
use sheets::checking::MEMORY_WORDS;
use std::process::ExitCode;

// What follows the name of a program that answers a request.
const USAGE: &str = "OWNER FILE... REQUEST";

// A gate that took all deliveries, the request that follows them, and memory for finding.
#[derive(Drop)]
pub(crate) struct Inquiry {
    pub(crate) gate: Gate,
    pub(crate) request: Vec<u8>,
    pub(crate) names: Vec<u64>,
    pub(crate) name_lines: Vec<u32>,
}

// The front of a file that holds a request; no more of it is read than shows that it is longer than a request without lines.
fn read_request(rt: &HostRuntime, name: &str) -> anyhow::Result<Vec<u8>> {
    let mut delivery = Delivery::open(rt, name)?;
    let _ = delivery.read_past(HEAD)?;
    Ok(delivery.bytes)
}

// Takes the deliveries, and reads the request.
fn take_files(rt: &HostRuntime, call: &Call, name: &str) -> anyhow::Result<Inquiry> {
    let [deliveries @ .., last] = call.files.as_slice() else {
        return Err(anyhow!("usage: {name} {USAGE}"));
    };
    open_all(rt, call.files.as_slice())?;
    let mut gate = new_gate(rt, call.owner)?;
    for file in deliveries {
        gate = take_file(rt, gate, file.as_str())?;
    }
    let request = read_request(rt, last.as_str())?;
    let names = vec![in rt.alloc(); 0u64; MEMORY_WORDS]?;
    let name_lines = vec![in rt.alloc(); 0u32; NUMBERS]?;
    Ok(Inquiry {
        gate,
        request,
        names,
        name_lines,
    })
}

// What a program is asked; none where only its usage or version was asked for.
pub(crate) fn read_inquiry(rt: &HostRuntime, name: &str) -> anyhow::Result<Option<Inquiry>> {
    let Some(call) = read_call(rt, name, USAGE)? else {
        return Ok(None);
    };
    Ok(Some(take_files(rt, &call, name)?))
}

// Prints the number of a refusal; want of memory has none.
pub(crate) fn refuse(rt: &HostRuntime, unfound: Unfound) -> anyhow::Result<ExitCode> {
    let fault = unfound.fault().context("out of memory")?;
    println!(rt; "{fault}")?;
    Ok(ExitCode::FAILURE)
}

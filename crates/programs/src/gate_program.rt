// The program `gate`: takes each file as a delivery, and prints what the gate answers, one answer to a line.
use crate::arguments::read_call;
use crate::files::Delivery;
use crate::taking::{new_gate, open_all, take_events};
use crate::telling::ByNumber;
use gates::Gate;
use gates::troubles::Trouble;
use sheets::checking::MEMORY_WORDS;
use std::process::ExitCode;

// Answers a request. No more of it is read than shows that it is longer than any can be at this gate.
fn answer_request(
    rt: &HostRuntime,
    gate: &Gate,
    memory: &mut [u64],
    mut delivery: Delivery<'_>,
) -> anyhow::Result<()> {
    let _ = delivery.read_past(gate.longest_request())?;
    let answer = gate
        .answer(delivery.bytes.as_slice(), memory)
        .map_err(Trouble::from)?;
    println!(rt; "{answer}")?;
    Ok(())
}

// Takes a file as a delivery.
fn receive_file(
    rt: &HostRuntime,
    gate: Gate,
    memory: &mut [u64],
    name: &str,
) -> anyhow::Result<Gate> {
    let mut delivery = Delivery::open(rt, name)?;
    let _ = delivery.read_on()?;
    if delivery.is_request() {
        answer_request(rt, &gate, memory, delivery)?;
        return Ok(gate);
    }
    take_events(rt, gate, &ByNumber, delivery)
}

// Every file is opened before the first is taken, so that a name that is wrong prints no answers.
pub fn run(rt: &HostRuntime) -> anyhow::Result<ExitCode> {
    let Some(call) = read_call(rt, "gate", "OWNER FILE...")? else {
        return Ok(ExitCode::SUCCESS);
    };
    let mut gate = new_gate(rt, call.owner)?;
    open_all(rt, call.files.as_slice())?;
    let mut memory = vec![in rt.alloc(); 0u64; MEMORY_WORDS]?;
    for name in &call.files {
        gate = receive_file(rt, gate, memory.as_mut_slice(), name.as_str())?;
    }
    Ok(ExitCode::SUCCESS)
}

// gate OWNER FILE...: takes each file as a delivery, and prints what it answers, one answer to a line.
#![tactic(auto)]

use programs::ending::end;
use programs::gate_program::run;
use std::process::ExitCode;

fn main(rt: HostRuntime) -> ExitCode {
    let done = run(&rt);
    end(&rt, "gate", done)
}

// find OWNER FILE... REQUEST: writes the request with the sheet that is found for it.
#![tactic(auto)]

use programs::ending::end;
use programs::find_program::run;
use std::process::ExitCode;

fn main(rt: HostRuntime) -> ExitCode {
    let done = run(&rt);
    end(&rt, "find", done)
}

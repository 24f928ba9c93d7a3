// until OWNER FILE... REQUEST: prints the spans of days on which the house of the request may.
#![tactic(auto)]

use programs::ending::end;
use programs::until_program::run;
use std::process::ExitCode;

fn main(rt: HostRuntime) -> ExitCode {
    let done = run(&rt);
    end(&rt, "until", done)
}

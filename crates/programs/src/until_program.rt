// The program `until`: prints the spans of days on which the house of a request may.
use crate::requests::{read_inquiry, refuse};
use inquiries::days::days_for;
use std::process::ExitCode;

// Reading what is asked and refusing are shared with `find`; what is left here differs by the call and by what is written.
pub fn run(rt: &HostRuntime) -> anyhow::Result<ExitCode> {
    let Some(mut asked) = read_inquiry(rt, "until")? else {
        return Ok(ExitCode::SUCCESS);
    };
    match days_for(
        rt.alloc(),
        &asked.gate,
        asked.names.as_mut_slice(),
        asked.name_lines.as_mut_slice(),
        asked.request.as_slice(),
    ) {
        Ok(spans) => {
            for span in &spans {
                println!(rt; "{span}")?;
            }
            Ok(ExitCode::SUCCESS)
        }
        Err(unfound) => refuse(rt, unfound),
    }
}

// The program `find`: writes the request with the sheet that is found for it.
use crate::requests::{read_inquiry, refuse};
use inquiries::sheet::sheet_for;
use std::io::Write;
use std::process::ExitCode;

// Reading what is asked and refusing are shared with `until`; what is left here differs by the call and by what is written.
pub fn run(rt: &HostRuntime) -> anyhow::Result<ExitCode> {
    let Some(mut asked) = read_inquiry(rt, "find")? else {
        return Ok(ExitCode::SUCCESS);
    };
    match sheet_for(
        rt.alloc(),
        &asked.gate,
        asked.names.as_mut_slice(),
        asked.name_lines.as_mut_slice(),
        asked.request.as_slice(),
    ) {
        Ok(whole) => {
            rt.stdout().write_all(whole.as_slice())?;
            Ok(ExitCode::SUCCESS)
        }
        Err(unfound) => refuse(rt, unfound),
    }
}

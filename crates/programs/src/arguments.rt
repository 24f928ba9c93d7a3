// Arguments of the programs.
ghost use Rattle.programs.specs.Arguments.{HouseText, house_of};
ghost use Rattle.std.specs.Option.{SomeIff};

use anyhow::anyhow;
use certificates::LAST_HOUSE;
use std::env;

// The version of the programs.
const VERSION: &str = "1.0.0";

// What a program is asked to do with its files.
#[derive(Drop)]
pub(crate) struct Call {
    pub(crate) owner: u16,
    pub(crate) files: Vec<String>,
}

// The house that an argument names. A function and no `FromStr`: a house is a number like others, with no type of its own.
pub fn parse_house(text: &str) -> Option<u16>
    ensures { SomeIff result (HouseText text.now) (house_of text.now) }
{
    text.parse::<u16>()
        .ok()
        .filter(|house| *house <= LAST_HOUSE)
}

// Reads the arguments; none where the usage or the version was asked for, which is printed then.
pub(crate) fn read_call(rt: &HostRuntime, name: &str, usage: &str) -> anyhow::Result<Option<Call>> {
    let mut arguments = env::args(rt)?;
    let _ = arguments.next();
    let first = arguments
        .next()
        .ok_or_else(|| anyhow!("usage: {name} {usage}"))?;
    match first.as_str() {
        "--help" => {
            println!(rt; "usage: {name} {usage}")?;
            Ok(None)
        }
        "--version" => {
            println!(rt; "{name} {VERSION}")?;
            Ok(None)
        }
        text => {
            let owner = parse_house(text).ok_or_else(|| anyhow!(
                "OWNER is a house, a number from 0 to {LAST_HOUSE}"
            ))?;
            let files = arguments.collect(rt.alloc())?;
            Ok(Some(Call { owner, files }))
        }
    }
}

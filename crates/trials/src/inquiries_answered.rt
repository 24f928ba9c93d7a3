// Requests without lines, asked at a gate that took some deliveries: the days that are told, and the sheet that opens the gate.
use crate::building::{NUMBERS, check, listed, new_gate};
use finding::sheets_found::Unfound;
use gates::Gate;
use gates_deliveries::receiving::receive_all;
use inquiries::days::days_for;
use inquiries::sheet::sheet_for;
use sheets::checking::MEMORY_WORDS;
use std::alloc::Global;
use std::test::*;

// House 1 gives right 3 to house 2 on days 4 to 9, then on days 10 to 12.
const TOUCHING: &[u8] =
    b"\x01\x00\x01\x00\x00\x00\x04\x00\x00\x00\x09\x00\x02\x00\x01\x00\x00\x00\x00\x00\x00\x00\x08\x01\x00\x01\x00\x00\x00\x0a\x00\x00\x00\x0c\x00\x02\x00\x01\x00\x00\x00\x00\x00\x00\x00\x08";

// The same right on the last day of all, and from day 9 to day 8, which is never.
const LAST_AND_NEVER: &[u8] =
    b"\x01\x00\x01\xff\xff\xff\xff\xff\xff\xff\xff\x00\x02\x00\x01\x00\x00\x00\x00\x00\x00\x00\x08\x01\x00\x01\x00\x00\x00\x09\x00\x00\x00\x08\x00\x02\x00\x01\x00\x00\x00\x00\x00\x00\x00\x08";

// Certificate 0 is taken back.
const TAKEN_BACK: &[u8] = b"\x02\x00\x00";

const FOUR_DAYS: &[u8] = b"\x03\x03\x03\x03";

// Houses 1, 2 and 3 ask for right 3.
const BY_OWNER: &[u8] = b"\x04\x00\x01\x03\x00\x00\x00\x00";

const BY_2: &[u8] = b"\x04\x00\x02\x03\x00\x00\x00\x00";

const BY_3: &[u8] = b"\x04\x00\x03\x03\x00\x00\x00\x00";

// The gate of house 1 after some deliveries, and memory for finding.
#[derive(Drop)]
struct Asked {
    heap: Global,
    gate: Gate,
    names: Vec<u64>,
    name_lines: Vec<u32>,
}

impl Asked {
    fn after(heap: Global, deliveries: &[&[u8]]) -> Result<Asked, Fail> {
        let gate = new_gate(heap)?;
        let list = listed(heap, deliveries)?;
        let mut names = vec![in heap; u64::MAX; MEMORY_WORDS]?;
        let name_lines = vec![in heap; u32::MAX; NUMBERS]?;
        let (gate, _) = receive_all(gate, heap, list.as_slice(), names.as_mut_slice())?;
        Ok(Asked {
            heap,
            gate,
            names,
            name_lines,
        })
    }

    // The text of the days that are told, or the number of the refusal.
    fn days(&mut self, request: &[u8]) -> Result<String, Fail> {
        let mut text = String::new(self.heap);
        let told = days_for(
            self.heap,
            &self.gate,
            self.names.as_mut_slice(),
            self.name_lines.as_mut_slice(),
            request,
        );
        match told {
            Ok(spans) => {
                for span in &spans {
                    write!(text, "{span};")?;
                }
            }
            Err(unfound) => tell_refusal(&mut text, unfound)?,
        }
        Ok(text)
    }

    fn tells(&mut self, request: &[u8], meant: &str) -> Result<(), Fail> {
        let text = self.days(request)?;
        check(text.as_str() == meant, meant)
    }

    // The sheet that is found has the bytes that are meant.
    fn finds(&mut self, request: &[u8], meant: &[u8]) -> Result<(), Fail> {
        let whole = sheet_for(
            self.heap,
            &self.gate,
            self.names.as_mut_slice(),
            self.name_lines.as_mut_slice(),
            request,
        )?;
        check(whole.as_slice() == meant, "another sheet")
    }
}

fn tell_refusal(text: &mut String, unfound: Unfound) -> Result<(), Fail> {
    let Some(fault) = unfound.fault() else {
        return Err(Fail::new("no answer"));
    };
    write!(text, "{fault}")?;
    Ok(())
}

#[test]
fn days_told(rt: HostRuntime) -> Result<(), Fail> {
    let mut asked = Asked::after(rt.alloc(), &[TOUCHING, FOUR_DAYS])?;
    asked.tells(BY_2, "4 12;")?;
    asked.tells(BY_OWNER, "0 on;")?;
    asked.tells(BY_3, "")?;
    let mut asked = Asked::after(rt.alloc(), &[TOUCHING, LAST_AND_NEVER, TAKEN_BACK])?;
    asked.tells(BY_2, "10 12;4294967295 on;")?;
    // cut, of no known house, for no known right, with a line to come, with a byte behind it, no request at all
    asked.tells(b"\x04\x00\x02\x03\x00\x00\x00", "1")?;
    asked.tells(b"\x04\x04\x00\x03\x00\x00\x00\x00", "2")?;
    asked.tells(b"\x04\x00\x02\x40\x00\x00\x00\x01", "2")?;
    asked.tells(b"\x04\x00\x02\x03\x00\x00\x00\x01", "1")?;
    asked.tells(b"\x04\x00\x02\x03\x00\x00\x00\x00\x00", "1")?;
    asked.tells(b"\x03", "1")
}

#[test]
fn sheet_opens(rt: HostRuntime) -> Result<(), Fail> {
    let mut asked = Asked::after(rt.alloc(), &[TOUCHING, FOUR_DAYS])?;
    asked.finds(BY_OWNER, BY_OWNER)?;
    let whole = b"\x04\x00\x02\x03\x00\x00\x00\x01\x00\x00";
    asked.finds(BY_2, whole)?;
    let answer = asked.gate.answer(whole, asked.names.as_mut_slice())?;
    let text = format!(in rt.alloc(); "{answer}")?;
    assert_eq!(rt; text.as_str(), "open");
    // the same bytes behind the kind of something else are no request
    let other = b"\x09\x00\x02\x03\x00\x00\x00\x01\x00\x00";
    let answer = asked.gate.answer(other, asked.names.as_mut_slice())?;
    let text = format!(in rt.alloc(); "{answer}")?;
    assert_eq!(rt; text.as_str(), "1");
    Ok(())
}

// Bytes that are no event, or an event with a value that it may not have.
use std::process::Abort;
use std::test::*;
use wire::faults::Fault;
use wire::reading::read_event;

// The number of the fault, and that this many bytes are read on.
fn refused(rt: &impl Abort, bytes: &[u8], number: u8, left: usize) -> Result<(), Fail> {
    let (fault, rest) = match read_event(bytes) {
        None => (Fault::Malformed, &bytes[..0]),
        Some((Err(fault), rest)) => (fault, rest),
        Some((Ok(_), _)) => return Err(Fail::new("not refused")),
    };
    assert_eq!(rt; fault.told().number, number);
    assert_eq!(rt; rest.len(), left);
    Ok(())
}

// A name of house 1 for house 2 without names.
const PLAIN: [u8; 17] = [1, 0, 1, 0, 0, 0, 0, 0, 0, 0, 9, 0, 2, 0, 0, 0, 5];

#[test]
fn cut_anywhere(rt: HostRuntime) -> Result<(), Fail> {
    for kept in 0..PLAIN.len() {
        refused(&rt, &PLAIN[..kept], 1, 0)?;
    }
    refused(&rt, b"\x02", 1, 0)?;
    refused(&rt, b"\x02\x00", 1, 0)
}

#[test]
fn malformed(rt: HostRuntime) -> Result<(), Fail> {
    let cases: [&[u8]; 5] = [
        // unknown kinds, then an unknown tag
        b"\x00\x03",
        b"\x04\x03",
        b"\xff\x03",
        b"\x01\x00\x01\x00\x00\x00\x00\x00\x00\x00\x09\x00\x02\x00\x03\x00\x05\x03",
        // more names than there are bytes, though a house is out of range too
        b"\x01\xff\xff\x00\x00\x00\x00\x00\x00\x00\x09\x00\x02\xff\x00\x00\x05\x03",
    ];
    for bytes in cases {
        refused(&rt, bytes, 1, 0)?;
    }
    Ok(())
}

#[test]
fn out_of_range(rt: HostRuntime) -> Result<(), Fail> {
    // a day follows each
    let cases: [&[u8]; 5] = [
        // house 1024 as issuer, then as subject
        b"\x01\x04\x00\x00\x00\x00\x00\x00\x00\x00\x09\x00\x02\x00\x00\x00\x05\x03",
        b"\x01\x00\x01\x00\x00\x00\x00\x00\x00\x00\x09\x04\x00\x00\x00\x00\x05\x03",
        // seven names
        b"\x01\x00\x01\x00\x00\x00\x00\x00\x00\x00\x09\x00\x02\x07\x00\x01\x00\x02\x00\x03\x00\x04\x00\x05\x00\x06\x00\x07\x00\x00\x05\x03",
        // no rights, with and without the flag
        b"\x01\x00\x01\x00\x00\x00\x00\x00\x00\x00\x09\x00\x02\x00\x01\x00\x00\x00\x00\x00\x00\x00\x00\x03",
        b"\x01\x00\x01\x00\x00\x00\x00\x00\x00\x00\x09\x00\x02\x00\x02\x00\x00\x00\x00\x00\x00\x00\x00\x03",
    ];
    for bytes in cases {
        refused(&rt, bytes, 2, 1)?;
    }
    Ok(())
}

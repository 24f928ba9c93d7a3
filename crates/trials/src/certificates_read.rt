// Certificates whose bytes are written out by hand: each is read as it is meant, and written as it was read.
use crate::building::subject;
use certificates::{Certificate, Statement};
use std::process::Abort;
use std::test::*;
use wire::events::Event;
use wire::reading::read_event;
use writing::event_bytes;

// The bytes are read as the certificate that is meant, and it is written as they stand.
fn read_and_written(
    rt: &(impl Abort + AllocGlobal),
    bytes: &[u8],
    meant: Certificate,
) -> Result<(), Fail> {
    let Some((Ok(event), rest)) = read_event(bytes) else {
        return Err(Fail::new("refused"));
    };
    assert!(rt; rest.is_empty(), "bytes left over");
    let written = event_bytes(rt.alloc(), &event)?;
    assert_eq!(rt; written.as_slice(), bytes);
    assert_eq!(rt; event, Event::Issued(meant));
    Ok(())
}

#[test]
fn read_as_written(rt: HostRuntime) -> Result<(), Fail> {
    // the smallest value of every field
    let smallest = Certificate {
        issuer: 0,
        first: 0,
        last: 0,
        statement: Statement::Name {
            name: 0,
            subject: subject(0, [0, 0, 0, 0, 0, 0], 0),
        },
    };
    read_and_written(
        &rt,
        b"\x01\x00\x00\x00\x00\x00\x00\x00\x00\x00\x00\x00\x00\x00\x00\x00\x00",
        smallest,
    )?;
    // the largest value of every field
    let most = 65535;
    let largest = Certificate {
        issuer: 1023,
        first: 4294967295,
        last: 4294967295,
        statement: Statement::Rights {
            rights: 18446744073709551615,
            delegable: true,
            subject: subject(1023, [most, most, most, most, most, most], 6),
        },
    };
    let bytes =
        b"\x01\x03\xff\xff\xff\xff\xff\xff\xff\xff\xff\x03\xff\x06\xff\xff\xff\xff\xff\xff\xff\xff\xff\xff\xff\xff\x02\xff\xff\xff\xff\xff\xff\xff\xff";
    read_and_written(&rt, bytes, largest)?;
    // every byte another, so that no two can change places
    let uneven = Certificate {
        issuer: 258,
        first: 151653132,
        last: 219025168,
        statement: Statement::Name {
            name: 4370,
            subject: subject(772, [1286, 1800, 0, 0, 0, 0], 2),
        },
    };
    let bytes =
        b"\x01\x01\x02\x09\x0a\x0b\x0c\x0d\x0e\x0f\x10\x03\x04\x02\x05\x06\x07\x08\x00\x11\x12";
    read_and_written(&rt, bytes, uneven)?;
    // rights without the flag, the last day before the first
    let plain = Certificate {
        issuer: 5,
        first: 9,
        last: 3,
        statement: Statement::Rights {
            rights: 72623859790382856,
            delegable: false,
            subject: subject(6, [7, 0, 0, 0, 0, 0], 1),
        },
    };
    let bytes =
        b"\x01\x00\x05\x00\x00\x00\x09\x00\x00\x00\x03\x00\x06\x01\x00\x07\x01\x01\x02\x03\x04\x05\x06\x07\x08";
    read_and_written(&rt, bytes, plain)
}

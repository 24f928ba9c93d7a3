// Deliveries taken together, and one in pieces.
use crate::building::{check, listed, new_gate};
use gates_deliveries::receiving::receive_all;
use gates_pieces::take_piece;
use promise::answers::Answer;
use sheets::checking::MEMORY_WORDS;
use std::alloc::Global;
use std::test::*;

// House 1's name 5 stands for house 2 on day 0; house 1 gives right 3 to whom its name 5 means; a number that none has; an unknown kind.
const EVENTS: &[u8] =
    b"\x01\x00\x01\x00\x00\x00\x00\x00\x00\x00\x00\x00\x02\x00\x00\x00\x05\x01\x00\x01\x00\x00\x00\x00\xff\xff\xff\xff\x00\x01\x01\x00\x05\x01\x00\x00\x00\x00\x00\x00\x00\x08\x02\x00\x07\x09\x03";

const DAY: &[u8] = b"\x03";

// House 2 asks for right 3.
const REQUEST: &[u8] = b"\x04\x00\x02\x03\x00\x00\x00\x02\x00\x00\x00\x01\x00\x02";

// The text of the answers, one to a line.
fn told(heap: Global, answers: &[Answer]) -> Result<String, Fail> {
    let mut text = String::new(heap);
    for answer in answers {
        writeln!(text, "{answer}")?;
    }
    Ok(text)
}

// What a new gate of house 1 answers to some deliveries.
fn answers_to(heap: Global, deliveries: &[&[u8]], memory: &mut [u64]) -> Result<String, Fail> {
    let list = listed(heap, deliveries)?;
    let (_, answers) = receive_all(new_gate(heap)?, heap, list.as_slice(), memory)?;
    told(heap, answers.as_slice())
}

#[test]
fn list_of_deliveries(rt: HostRuntime) -> Result<(), Fail> {
    let mut memory = vec![in rt.alloc(); 0u64; MEMORY_WORDS]?;
    let text = answers_to(
        rt.alloc(),
        &[EVENTS, REQUEST, DAY, REQUEST],
        memory.as_mut_slice(),
    )?;
    assert_eq!(rt; text.as_str(), "4\n1\nopen\n7 0\n");
    Ok(())
}

// What a new gate of house 1 tells of a piece that more may follow, and how many bytes it leaves.
fn piece_taken(heap: Global, piece: &[u8], told_is: &str, left: Option<usize>) -> Result<(), Fail> {
    let mut answers = Vec::with_capacity(heap, 8)?;
    let (_, rest) = take_piece(new_gate(heap)?, piece, false, &mut answers);
    check(rest.map(|rest| rest.len()) == left, "another rest")?;
    let text = told(heap, answers.as_slice())?;
    check(text.as_str() == told_is, told_is)
}

#[test]
fn pieces_taken(rt: HostRuntime) -> Result<(), Fail> {
    let heap = rt.alloc();
    // an event is taken as soon as it can be read, however few bytes there are
    piece_taken(heap, DAY, "", Some(0))?;
    piece_taken(heap, b"\x02\x00\x00\x03", "4\n", Some(0))?;
    // one that is cut waits, behind those that are whole
    piece_taken(heap, b"\x03\x02\x00", "", Some(2))?;
    piece_taken(heap, b"\x01\x00", "", Some(2))?;
    // so does an unknown kind, until there are as many bytes as the longest event has
    let mut unknown = vec![in heap; 9u8; 532]?;
    piece_taken(heap, unknown.as_slice(), "", Some(532))?;
    unknown.push(9)?;
    piece_taken(heap, unknown.as_slice(), "1\n", None)
}

#[test]
fn longest_requests(rt: HostRuntime) -> Result<(), Fail> {
    let mut memory = vec![in rt.alloc(); 0u64; MEMORY_WORDS]?;
    let gate = new_gate(rt.alloc())?;
    assert_eq!(rt; gate.longest_request(), 8);
    let list = listed(rt.alloc(), &[EVENTS])?;
    let (gate, _) = receive_all(gate, rt.alloc(), list.as_slice(), memory.as_mut_slice())?;
    // two certificates, of which one has a subject with a name: lines of two and of four bytes
    assert_eq!(rt; gate.longest_request(), 8 + 2 * 1024 * 4);
    Ok(())
}

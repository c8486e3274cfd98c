// What the library says, held against what the Rust said. Each function takes a place in the Rust's answer and gives the place behind what agrees with it,
// or NOWHERE, which lies behind every answer's end.
use crate::list;
use crate::list::Request;
use probe_by_number::{lent, told};

const NOWHERE: usize = usize::MAX;

const LAST_REFUSAL: u64 = 12;

fn number(said: &[u8], at: usize, x: u64) -> usize {
    if said.len() <= at {
        return NOWHERE;
    }
    if list::number(said, at) == x {
        return list::past(said, at);
    }
    NOWHERE
}

// The answer begins with the block's numbers from kind to counts.
fn numbers(said: &[u8], block: &[u8]) -> usize {
    let mut at = 0;
    for i in told::KIND..told::ZERO {
        at = number(said, at, told::number(block, i));
    }
    at
}

fn bytes(said: &[u8], at: usize, c: &[u8]) -> usize {
    if said.len() < at {
        return NOWHERE;
    }
    if said[at..].starts_with(c) {
        return at + c.len();
    }
    NOWHERE
}

// The contents that an entry points at, which stand behind their length.
fn string(said: &[u8], at: usize, stream: &[u8], start: u64, len: u64) -> usize {
    if start < 8 {
        return NOWHERE;
    }
    if lent::number(stream, (start - 8) as usize) != len {
        return NOWHERE;
    }
    let c = lent::part(stream, start as usize, len as usize);
    if c.len() as u64 != len {
        return NOWHERE;
    }
    bytes(said, number(said, at, len), c)
}

fn entry(said: &[u8], at: usize, a: &[u8], b: &[u8], of_a: bool, start: u64, len: u64) -> usize {
    if of_a {
        return string(said, at, a, start, len);
    }
    string(said, at, b, start, len)
}

// Of the entries the first so many point into a, the others into b.
fn strings(said: &[u8], from: usize, entries: &[u8], of_a: u64, a: &[u8], b: &[u8]) -> usize {
    let mut at = from;
    for i in 0..entries.len() / lent::ENTRY {
        let start = lent::number(entries, lent::ENTRY * i);
        let len = lent::number(entries, lent::ENTRY * i + 8);
        at = entry(said, at, a, b, (i as u64) < of_a, start, len);
    }
    at
}

// In a handshake b is the daemon's.
fn entries_of_a(call: u64, block: &[u8]) -> u64 {
    match call {
        7 => told::number(block, told::FIRST_COUNT),
        8 => 0,
        _ => u64::MAX,
    }
}

// All of the answer, and lent memory beyond it as it was lent.
pub fn is_answer<'a, 'b>(
    q: Request,
    list: &'b [u8],
    entries: &'a [u8],
    room: &'a [u8],
    block: &'a [u8],
) -> bool {
    let c = q.call;
    let call = c.number;
    let said = list::string(list, q.said);
    let output = lent::part(room, 0, told::number(block, told::OUTPUT) as usize);
    let at = strings(
        said,
        numbers(said, block),
        told::strings(call, entries, block),
        entries_of_a(call, block),
        list::string(list, q.a),
        list::string(list, q.b),
    );
    (bytes(said, at, output) == said.len()) & told::is_kept(call, entries, room, block)
}

// A refusal for want of slots or room is none of the Rust's, and a greater number is no refusal.
fn is_of_stream(refusal: u64) -> bool {
    (refusal != 4) & (refusal != 5) & (refusal != 10) & (refusal <= LAST_REFUSAL)
}

// Where the Rust refuses, its answer is empty.
pub fn is_refusal(said: &[u8], refusal: u64, entries: &[u8], room: &[u8]) -> bool {
    (said.len() == 0) & is_of_stream(refusal) & lent::is_kept(entries, 0) & lent::is_kept(room, 0)
}

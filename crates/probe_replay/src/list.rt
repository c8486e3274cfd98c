// The list: requests one after the other, each with what the Rust answers. compare/README.md, "The list", has its form. Nothing here can fail: past the end
// a number is 0 and a string is empty, and what was cut differs from what the library says.
use probe_by_number::{Call, lent};

// Before a number of eight bytes; a smaller byte is the number itself.
const LONG: u8 = 255;

// Of a, b and the answer the places.
#[derive(Clone, Copy)]
pub struct Request {
    pub call: Call,
    pub slots: usize,
    pub room: usize,
    pub a: usize,
    pub b: usize,
    pub said: usize,
    pub next: usize,
}

fn wide(b: u8) -> u64 {
    b as u64
}

pub fn number(s: &[u8], at: usize) -> u64 {
    if s.len() <= at {
        return 0;
    }
    if s[at] < LONG {
        return wide(s[at]);
    }
    lent::number(s, at + 1)
}

// The place behind a number.
pub fn past(s: &[u8], at: usize) -> usize {
    if s.len() <= at {
        return s.len();
    }
    if s[at] < LONG {
        return at + 1;
    }
    if s.len() - at < 9 {
        return s.len();
    }
    at + 9
}

// The string at a place: its length, then its bytes.
pub fn string(s: &[u8], at: usize) -> &[u8] {
    lent::part(s, past(s, at), number(s, at) as usize)
}

// The place behind a string.
fn behind(s: &[u8], at: usize) -> usize {
    let from = past(s, at);
    let n = number(s, at) as usize;
    if s.len() < from {
        return s.len();
    }
    if s.len() - from < n {
        return s.len();
    }
    from + n
}

pub fn next(s: &[u8], at: usize) -> Request {
    let operation = past(s, at);
    let major = past(s, operation);
    let minor = past(s, major);
    let slots = past(s, minor);
    let room = past(s, slots);
    let a = past(s, room);
    let b = behind(s, a);
    let said = behind(s, b);
    Request {
        call: probe_by_number::asked(
            number(s, at),
            number(s, operation),
            (number(s, major) % 65536) as u16,
            (number(s, minor) % 256) as u8,
        ),
        slots: number(s, slots) as usize,
        room: number(s, room) as usize,
        a,
        b,
        said,
        next: behind(s, said),
    }
}

// A request: eight-byte numbers call, operation, major, minor, slots, room, length of a; a; length of b; b.
use probe_by_number::{Call, lent};

const HEAD: usize = 56;

// Of a and b the lengths: they stand in the streams, b behind a.
#[derive(Clone, Copy)]
pub struct Request {
    pub call: Call,
    pub slots: usize,
    pub room: usize,
    pub a: usize,
    pub b: usize,
}

#[derive(Drop)]
pub enum Asked {
    For(Request),
    End,
    Stopped,
}

fn of_head(head: &[u8]) -> Request {
    Request {
        call: probe_by_number::asked(
            lent::number(head, 0),
            lent::number(head, 8),
            (lent::number(head, 16) % 65536) as u16,
            (lent::number(head, 24) % 256) as u8,
        ),
        slots: lent::number(head, 32) as usize,
        room: lent::number(head, 40) as usize,
        a: lent::number(head, 48) as usize,
        b: 0,
    }
}

// Reads n bytes into s from a place on. No, where they don't fit or the input has fewer.
fn take(s: &mut [u8], from: usize, n: usize) -> bool {
    if s.len() < from {
        return false;
    }
    if s.len() - from < n {
        return false;
    }
    let to = from + n;
    io::read_full(0, &mut s[from..to]) == n
}

fn take_length() -> u64 {
    let mut length = [0u8; 8];
    let n = io::read_full(0, &mut length);
    if n < 8 {
        return u64::MAX;
    }
    lent::number(&length, 0)
}

// Both streams.
fn take_streams(q: Request, streams: &mut [u8]) -> Asked {
    let mut whole = q;
    let a = q.a;
    if !take(streams, 0, a) {
        return Asked::Stopped;
    }
    let b = take_length() as usize;
    if !take(streams, a, b) {
        return Asked::Stopped;
    }
    whole.b = b;
    Asked::For(whole)
}

// The next request, for at most so many slots and so much room.
pub fn read(streams: &mut [u8], slots: usize, room: usize) -> Asked {
    let mut head = [0u8; HEAD];
    let n = io::read_full(0, &mut head);
    if n == 0 {
        return Asked::End;
    }
    if n < HEAD {
        return Asked::Stopped;
    }
    let q = of_head(&head);
    if (slots < q.slots) | (room < q.room) {
        return Asked::Stopped;
    }
    take_streams(q, streams)
}

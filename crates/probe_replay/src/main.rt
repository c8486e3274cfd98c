#![tactic(auto)]
// Replays a list of requests that the Rust answered once: makes each call by the C boundary and holds the answer against the Rust's. compare/README.md,
// "The list", says how the list is made.
mod hold;
mod list;

use list::Request;
use probe_by_number::lent;

// More than the list has, and more than any of its requests asks for.
const LIST: usize = 1048576;

// 256 slots.
const ENTRIES: usize = 4096;

const ROOM: usize = 4096;

const BLOCK: usize = 200;

// `first` is the first request that differs, counted from 0; without one it is no request's number.
#[derive(Clone, Copy)]
struct Tally {
    requests: u64,
    same: u64,
    refused: u64,
    first: u64,
}

fn one_more(n: u64, is_one: bool) -> u64 {
    if n == u64::MAX {
        return n;
    }
    if is_one {
        return n + 1;
    }
    n
}

fn first_of(t: Tally, is_same: bool) -> u64 {
    if is_same | (t.first < t.requests) {
        return t.first;
    }
    t.requests
}

fn counted(t: Tally, is_same: bool, is_refusal: bool) -> Tally {
    Tally {
        requests: one_more(t.requests, true),
        same: one_more(t.same, is_same),
        refused: one_more(t.refused, is_same & is_refusal),
        first: first_of(t, is_same),
    }
}

fn call(q: Request, list: &[u8], entries: &mut [u8], room: &mut [u8], block: &mut [u8]) -> u64 {
    let a = list::string(list, q.a);
    let b = list::string(list, q.b);
    probe_by_number::answer(q.call, a, b, entries, room, block)
}

// One call on lent memory that holds the pattern.
fn is_same(q: Request, list: &[u8], entries: &mut [u8], room: &mut [u8], block: &mut [u8]) -> bool {
    lent::fill(entries);
    lent::fill(room);
    let refusal = call(q, list, entries, room, block);
    if refusal == 0 {
        return hold::is_answer(q, list, entries, room, block);
    }
    hold::is_refusal(list::string(list, q.said), refusal, entries, room)
}

fn replay(list: &[u8], q: Request, entries: &mut [u8], room: &mut [u8], block: &mut [u8]) -> bool {
    is_same(
        q,
        list,
        lent::some_slots(entries, q.slots),
        lent::some(room, q.room),
        block,
    )
}

// Each turn takes a byte at least, but no proof has to say so: turns are counted down.
fn replay_all(
    list: &[u8],
    entries: &mut [u8; ENTRIES],
    room: &mut [u8; ROOM],
    block: &mut [u8; BLOCK],
) -> Tally {
    let mut t = Tally {
        requests: 0,
        same: 0,
        refused: 0,
        first: u64::MAX,
    };
    let mut at = 0;
    let mut turns = list.len();
    while turns > 0 && at < list.len() {
        let q = list::next(list, at);
        let is_same = replay(list, q, entries, room, block);
        let said = list::string(list, q.said);
        t = counted(t, is_same, said.len() == 0);
        at = q.next;
        turns -= 1;
    }
    t
}

fn say(x: u64, words: &[u8]) {
    io::print_decimal(1, x);
    io::write_all(1, words);
}

fn report(t: Tally) {
    say(t.requests, b" requests, ");
    say(t.same, b" as the Rust answers, ");
    say(t.refused, b" of these refused\n");
    if t.first < t.requests {
        io::write_all(1, b"the first that differs: ");
        say(t.first, b"\n");
    }
}

fn replay_input(
    list: &mut [u8; LIST],
    entries: &mut [u8; ENTRIES],
    room: &mut [u8; ROOM],
    block: &mut [u8; BLOCK],
) {
    let n = io::read_full(0, list);
    let t = replay_all(lent::part(list, 0, n), entries, room, block);
    report(t);
}

fn main() {
    let mut list = [0u8; LIST];
    let mut entries = [0u8; ENTRIES];
    let mut room = [0u8; ROOM];
    let mut block = [0u8; BLOCK];
    replay_input(&mut list, &mut entries, &mut room, &mut block);
}

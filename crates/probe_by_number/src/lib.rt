#![tactic(auto)]
// The calls by the numbers of the probe's table, over the C boundary: for the programs `probe` and `probe_replay`, and no part of the library that is shipped. Each
// writes its answer into the block and gives 0, the refusal's number or NO_CALL. No contracts: what is proved is that each ends without a fault.
pub mod lent;
pub mod told;

use lintelow::{reads, writes};

// No refusal has this number.
pub const NO_CALL: u64 = 99;

pub const ENTRY_VIEW: u64 = 32;

// The record of a call to be written: twelve numbers and three counts.
const RECORD: usize = 120;

// `operation` is also the number that a call takes.
#[derive(Clone, Copy)]
pub struct Call {
    pub mode: u8,
    pub number: u64,
    pub operation: u64,
    pub major: u16,
    pub minor: u8,
}

// Calls from this number on, and as many, are those below it in published mode.
const PUBLISHED: u64 = 64;

pub fn asked(number: u64, operation: u64, major: u16, minor: u8) -> Call {
    if number / PUBLISHED == 1 {
        return Call {
            mode: 1,
            number: number % PUBLISHED,
            operation,
            major,
            minor,
        };
    }
    Call {
        mode: 0,
        number,
        operation,
        major,
        minor,
    }
}

fn operation(c: Call, a: &[u8], entries: &mut [u8], room: &mut [u8], block: &mut [u8]) -> u64 {
    let number = c.number;
    let mode = c.mode;
    let op = c.operation;
    let major = c.major;
    let minor = c.minor;
    match number {
        1 => lintelow::lintelow_read_op_args(mode, op, major, minor, a, entries, room, block),
        2 => lintelow::lintelow_skip_op_args(mode, op, major, minor, a, block),
        3 => lintelow::lintelow_read_daemon_result(op, major, minor, a, entries, room, block),
        _ => lintelow::lintelow_skip_daemon_result(op, major, minor, a, block),
    }
}

fn conversation(c: Call, a: &[u8], b: &[u8], entries: &mut [u8], block: &mut [u8]) -> u64 {
    let number = c.number;
    match number {
        5 => lintelow::lintelow_read_stderr_loop(a, block),
        6 => lintelow::lintelow_read_stderr_with_error(c.mode, c.major, c.minor, a, entries, block),
        7 => lintelow::lintelow_parse_handshake(a, b, entries, block),
        _ => lintelow::lintelow_parse_daemon_handshake(c.major, c.minor, b, entries, block),
    }
}

// Calls that share few slices are apart: the time of a function's proof grows with its slices and its ways together.
fn plain_reader(call: u64, a: &[u8], block: &mut [u8]) -> u64 {
    match call {
        9 => reads::lintelow_read_u64(a, 0, block),
        10 => reads::lintelow_read_u32(a, 0, block),
        11 => reads::lintelow_read_bytes(a, 0, block),
        12 => reads::lintelow_read_string(a, 0, block),
        13 => reads::lintelow_skip_string(a, 0, block),
        15 => reads::lintelow_skip_string_set(a, 0, block),
        17 => reads::lintelow_skip_framed(a, 0, block),
        _ => reads::lintelow_peek_u64(a, 0, block),
    }
}

fn reader(call: u64, a: &[u8], entries: &mut [u8], room: &mut [u8], block: &mut [u8]) -> u64 {
    match call {
        14 => reads::lintelow_read_string_set(a, 0, entries, block),
        16 => reads::lintelow_read_framed(a, 0, room, block),
        _ => plain_reader(call, a, block),
    }
}

fn number_writer(call: u64, x: u64, room: &mut [u8], block: &mut [u8]) -> u64 {
    match call {
        20 => writes::lintelow_write_u64(room, x, block),
        21 => writes::lintelow_write_u32(room, (x % 4294967296) as u32, block),
        26 => writes::lintelow_write_mode(room, x, block),
        27 => writes::lintelow_write_paths(room, x, block),
        _ => writes::lintelow_write_overrides(room, x, block),
    }
}

// A set's entries are b.
fn writer(call: u64, x: u64, a: &[u8], b: &[u8], room: &mut [u8], block: &mut [u8]) -> u64 {
    match call {
        22 => writes::lintelow_write_bytes(room, a, block),
        23 => writes::lintelow_write_string(room, a, block),
        24 => writes::lintelow_write_string_set(room, a, b, x as usize, block),
        25 => writes::lintelow_write_framed(room, a, block),
        _ => number_writer(call, x, room, block),
    }
}

// b is the record, the length of the entries, the entries and the payload.
fn call_writer(c: Call, a: &[u8], b: &[u8], room: &mut [u8], block: &mut [u8]) -> u64 {
    let rest = lent::behind(b, RECORD);
    let n = lent::number(rest, 0) as usize;
    let strings = lent::behind(rest, 8);
    writes::lintelow_write_op_args(
        c.mode,
        c.operation,
        c.major,
        c.minor,
        lent::first(b, RECORD),
        a,
        lent::first(strings, n),
        lent::behind(strings, n),
        room,
        block,
    )
}

// A view's entries are b.
fn test(call: u64, x: u64, a: &[u8], b: &[u8], block: &mut [u8]) -> u64 {
    match call {
        30 => reads::lintelow_extract_store_path(a, block),
        31 => reads::lintelow_op_has_client_framed_data(x, block),
        ENTRY_VIEW => reads::lintelow_entry(a, b, x as usize, block),
        _ => reads::lintelow_version_from_wire(x, block),
    }
}

pub fn answer(
    c: Call,
    a: &[u8],
    b: &[u8],
    entries: &mut [u8],
    room: &mut [u8],
    block: &mut [u8],
) -> u64 {
    let number = c.number;
    match number {
        1..=4 => operation(c, a, entries, room, block),
        5..=8 => conversation(c, a, b, entries, block),
        9..=18 => reader(number, a, entries, room, block),
        20..=28 => writer(number, c.operation, a, b, room, block),
        30..=33 => test(number, c.operation, a, b, block),
        34 => call_writer(c, a, b, room, block),
        _ => NO_CALL,
    }
}

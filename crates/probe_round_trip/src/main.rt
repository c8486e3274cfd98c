#![tactic(auto)]
// Writes strings, a set, framed data and calls, reads them back, and says what came back. A string of 268,435,456 bytes does not fit in a test's memory;
// the theorems speak of it, and here a string of 1 MiB is run.
ghost use Rattle.std.specs.Prelude.{◌≤◌};

use layouts::{Mode, Record, Refusal};
use walk_judge::Answer;
use wire::Cursor;
use writers::Written;

const MIB: usize = 1048576;

const MIB_WRITTEN: usize = 1048584;

// Room for a call.
const CALL: usize = 160;

fn say(words: &[u8]) {
    io::write_all(1, words);
}

fn number(n: u64) {
    io::print_decimal(1, n);
    say(b" ");
}

// Words and a number.
fn tell(words: &[u8], n: u64) {
    say(words);
    number(n);
}

fn refused(r: Refusal) {
    tell(b"refused ", r.which);
    number(r.place as u64);
    say(b"\n");
}

// Letters of the alphabet over and over, so that a shifted byte shows.
fn letters(out: &mut [u8]) {
    for (i, b) in out.iter_mut().enumerate() {
        *b = b'a' + (i % 26) as u8;
    }
}

// How many bytes of a and b differ, as far as both go.
fn differences(a: &[u8], b: &[u8]) -> u64 {
    a.iter().zip(b).filter(|(x, y)| x != y).count() as u64
}

fn written(w: Written) -> usize {
    match w {
        Ok(n) => {
            tell(b"written ", n as u64);
            n
        }
        Err(r) => {
            refused(r);
            0
        }
    }
}

fn past(value: u64, next: Cursor) {
    tell(b"read ", value);
    tell(b"ends ", next.at as u64);
}

fn compared(a: &[u8], b: &[u8]) {
    tell(b"differences ", differences(a, b));
    say(b"\n");
}

// The contents from a place on, held against what was written.
fn contents_back(s: &[u8], start: usize, c: &[u8]) {
    if start <= s.len() {
        compared(c, &s[start..]);
        return;
    }
    say(b"\n");
}

// The string at the start of a stream, held against what was written.
fn string_back(s: &[u8], c: &[u8]) {
    let start = Cursor { at: 0 };
    match start.read_string(s) {
        Ok(k) => {
            past(k.len as u64, k.next);
            contents_back(s, k.start, c);
        }
        Err(r) => refused(r),
    }
}

// Arrays of a known length are lent as such: so nothing has to be computed of a list of a million bytes.
fn large_string(c: &mut [u8; MIB], out: &mut [u8; MIB_WRITTEN]) {
    say(b"a string of 1 MiB: ");
    letters(c);
    written(writers::write_string(out, c));
    string_back(out, c);
}

fn a_mebibyte() {
    let mut c = [0u8; MIB];
    let mut out = [0u8; MIB_WRITTEN];
    large_string(&mut c, &mut out);
}

fn write(words: &[u8], out: &mut [u8], c: &[u8]) {
    say(words);
    written(writers::write_string(out, c));
}

// Three bytes are followed by five of padding; a byte less of room is refused by 10 and changes nothing.
fn short_strings() {
    let mut out = [0xFFu8; 16];
    write(b"a string of 3 bytes: ", &mut out, b"bin");
    string_back(&out, b"bin");
    tell(
        b"its padding: ",
        differences(&out, b"\x03\0\0\0\0\0\0\0bin\0\0\0\0\0"),
    );
    refused_strings(&mut out);
}

fn refused_strings(out: &mut [u8]) {
    write(
        b"differences\nwith room for 15: ",
        &mut [0xFFu8; 15],
        b"bin",
    );
    write(b"a byte FF, which is no text: ", out, b"\xFF");
}

// Two strings out of one slice, read back by their entries and written again from there.
fn a_set() {
    say(b"a set of bin7 and silo: ");
    let mut out = [0u8; 40];
    written(writers::write_string_set(&mut out, b"bin7silo", &[0u64, 4, 4, 4], 2));
    let mut found = [0u64; 4];
    set_back(&out, &mut found);
    set_again(&out, &found);
}

fn set_back(out: &[u8], found: &mut [u64]) {
    let start = Cursor { at: 0 };
    match start.read_string_set(out, found) {
        Ok(k) => {
            past(k.value, k.next);
            set_shown(out, found);
        }
        Err(r) => refused(r),
    }
}

fn set_shown(out: &[u8], found: &[u64]) {
    io::write_all(1, views::entry(out, found, 0));
    say(b" ");
    io::write_all(1, views::entry(out, found, 1));
    say(b"\n");
}

fn set_again(out: &[u8], found: &[u64]) {
    say(b"the same, from the stream and its entries: ");
    let mut again = [0xFFu8; 40];
    written(writers::write_string_set(&mut again, out, found, 2));
    compared(out, &again);
}

// Two chunks of 32768 bytes, one of 4464, and the zero.
fn framed() {
    let mut c = [0u8; 70000];
    let mut out = [0u8; 70032];
    let mut back = [0u8; 70000];
    frames(&mut c, &mut out, &mut back);
}

fn frames(c: &mut [u8; 70000], out: &mut [u8; 70032], back: &mut [u8; 70000]) {
    say(b"framed data of 70000 bytes: ");
    letters(c);
    written(writers::write_framed(out, c));
    frames_back(out, back, c);
}

fn frames_back(s: &[u8], back: &mut [u8], c: &[u8]) {
    let start = Cursor { at: 0 };
    match start.read_framed(s, back) {
        Ok(k) => {
            past(k.value, k.next);
            compared(c, back);
        }
        Err(r) => refused(r),
    }
}

// A count of 2^64 - 1 with nothing behind it is refused at once.
fn a_large_count() {
    say(b"a set of 2^64 - 1 strings: ");
    let mut none = [0u64; 0];
    let start = Cursor { at: 0 };
    match start.read_string_set(b"\xFF\xFF\xFF\xFF\xFF\xFF\xFF\xFF", &mut none) {
        Ok(k) => number(k.value),
        Err(r) => refused(r),
    }
}

fn text(words: &[u8], out: &[u8], w: Written) {
    say(words);
    line(out, written(w));
}

fn mode(words: &[u8], n: u64) {
    let mut out = [b'.'; 24];
    let w = writers::write_mode(&mut out, n);
    text(words, &out, w);
}

fn paths(words: &[u8], n: u64) {
    let mut out = [b'.'; 24];
    let w = writers::write_paths(&mut out, n);
    text(words, &out, w);
}

fn texts() {
    mode(b"mode 1: ", 1);
    mode(b"mode 2^64 - 1: ", 18446744073709551615);
    paths(b"10 paths: ", 10);
}

// Numbers 0 and 1, and a count.
fn record(first: u64, second: u64, count: u64) -> Record {
    Record {
        numbers: [first, second, 0, 0, 0, 0, 0, 0, 0, 0, 0, 0],
        counts: [count, 0, 0],
        present: false,
        entries: 0,
        payload: 0,
    }
}

// Written, and read back.
fn call_in(mode: Mode, words: &[u8], op: u64, minor: u8, record: Record, payload: &[u8]) {
    say(words);
    let mut out = [0u8; CALL];
    let w = writers_calls::write_op_args(
        mode,
        op,
        1,
        minor,
        record,
        b"bin7silo",
        &[0u64, 4, 4, 4, 0, 8],
        payload,
        &mut out,
    );
    match w {
        Ok(_) => {
            written(w);
            call_back(mode, op, minor, &out);
        }
        Err(r) => refused(r),
    }
}

fn call_back(mode: Mode, op: u64, minor: u8, out: &[u8]) {
    let mut found = [0u64; 8];
    let mut room = [0u8; 8];
    let a = protocol::read_op_args(mode, op, 1, minor, out, &mut found, &mut room);
    let o = a.outcome;
    match o {
        Ok(_) => call_again(mode, op, minor, a, out, &found, &room),
        Err(r) => refused(r),
    }
}

// The first n bytes, or all where there are fewer.
fn first(s: &[u8], n: usize) -> &[u8] {
    if n <= s.len() {
        return &s[..n];
    }
    s
}

// What was read, written again from the stream and its entries.
fn call_again(mode: Mode, op: u64, minor: u8, a: Answer, out: &[u8], found: &[u64], room: &[u8]) {
    let record = a.found;
    tell(b"kind ", a.kind);
    tell(b"ends ", a.ends as u64);
    tell(b"strings ", record.entries as u64);
    let payload = record.payload;
    let mut again = [0u8; CALL];
    written(writers_calls::write_op_args(
        mode,
        op,
        1,
        minor,
        record,
        out,
        found,
        first(room, payload),
        &mut again,
    ));
    compared(out, &again);
}

fn call(words: &[u8], op: u64, minor: u8, record: Record, payload: &[u8]) {
    call_in(Mode::Ported, words, op, minor, record, payload);
}

fn published(words: &[u8], op: u64, minor: u8, count: u64) {
    call_in(Mode::Published, words, op, minor, record(0, 0, count), b"");
}

fn calls() {
    call(b"IsValidPath: ", 1, 38, record(0, 0, 0), b"");
    call(b"SyncWithGC: ", 13, 38, record(0, 0, 0), b"");
    call(b"SetOptions at 1.9: ", 19, 9, record(1, 2, 0), b"");
    call(b"SetOptions: ", 19, 38, record(1, 2, 1), b"");
    call(b"CollectGarbage: ", 20, 38, record(3, 1, 2), b"");
    call(b"AddSignatures: ", 37, 38, record(0, 0, 2), b"");
    call(b"AddToStore: ", 7, 25, record(1, 0, 1), b"ab");
    call(b"AddToStore at 1.24: ", 7, 24, record(1, 0, 1), b"ab");
    call(b"a flag at 1.26: ", 31, 26, record(1, 0, 2), b"");
    call(b"too few entries: ", 37, 38, record(0, 0, 3), b"");
    published(
        b"QuerySubstitutablePathInfos, published, at 1.21: ",
        30,
        21,
        1,
    );
    published(
        b"QuerySubstitutablePathInfos, published, at 1.22: ",
        30,
        22,
        1,
    );
    published(b"RegisterDrvOutput, published, at 1.30: ", 42, 30, 0);
    published(b"RegisterDrvOutput, published, at 1.31: ", 42, 31, 0);
}

fn line(s: &[u8], n: usize) {
    if n <= s.len() {
        io::write_all(1, &s[..n]);
    }
    say(b"\n");
}

fn main() {
    a_mebibyte();
    short_strings();
    a_set();
    framed();
    a_large_count();
    texts();
    calls();
}

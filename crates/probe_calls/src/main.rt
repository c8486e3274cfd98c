#![tactic(auto)]
// Reads and skips the arguments and the reply of every operation number from 0 to 48 at versions 1.9 to 1.38, 0.255, 2.0 and 65535.255, over two streams:
// one of zeros (empty strings and sets, false flags), and one whose every number is 1; then the arguments that published mode has otherwise. Each line says from
// which version on the answer is what. Then the stderr loop, error blocks and both handshakes, with entries in memory of numbers: each line ends with all that was lent, sevens
// before the call.
use layouts::{Mode, Refusal};
use protocol::Arguments;
use walk_judge::Answer;

#[derive(Clone, Copy)]
struct Version {
    major: u16,
    minor: u8,
}

// What is shown of an answer: the refusal's number, 0 for none, and its place; else kind, end, entries and payload.
#[derive(Clone, Copy, PartialEq, Eq)]
struct Seen {
    which: u64,
    place: usize,
    kind: u64,
    ends: usize,
    entries: usize,
    payload: usize,
}

fn say(words: &[u8]) {
    io::write_all(1, words);
}

fn number(n: u64) {
    io::print_decimal(1, n);
}

fn version_at(i: usize) -> Version {
    match i {
        30 => Version {
            major: 0,
            minor: 255,
        },
        31 => Version { major: 2, minor: 0 },
        32 => Version {
            major: 65535,
            minor: 255,
        },
        _ => Version {
            major: 1,
            minor: 9 + (i % 30) as u8,
        },
    }
}

fn refused(which: u64, place: usize) -> Seen {
    Seen {
        which,
        place,
        kind: 0,
        ends: 0,
        entries: 0,
        payload: 0,
    }
}

fn answered(a: Answer) -> Seen {
    let o = a.outcome;
    let found = a.found;
    match o {
        Err(r) => refused(r.which, r.place),
        Ok(_) => Seen {
            which: 0,
            place: 0,
            kind: a.kind,
            ends: a.ends,
            entries: found.entries,
            payload: found.payload,
        },
    }
}

fn skipped_arguments(a: Arguments) -> Seen {
    let o = a.outcome;
    match o {
        Err(r) => refused(r.which, r.place),
        Ok(_) => Seen {
            which: 0,
            place: 0,
            kind: a.kind,
            ends: a.ends,
            entries: a.start as usize,
            payload: a.len as usize,
        },
    }
}

fn skipped_reply(k: Result<usize, Refusal>) -> Seen {
    match k {
        Err(r) => refused(r.which, r.place),
        Ok(ends) => Seen {
            which: 0,
            place: 0,
            kind: 0,
            ends,
            entries: 0,
            payload: 0,
        },
    }
}

fn see(mode: Mode, call: u8, op: u64, v: Version, s: &[u8]) -> Seen {
    let mut entries = [0u64; 32];
    let mut payload = [0u8; 32];
    match call {
        0 => answered(protocol::read_op_args(
            mode,
            op,
            v.major,
            v.minor,
            s,
            &mut entries,
            &mut payload,
        )),
        1 => skipped_arguments(protocol::skip_op_args(mode, op, v.major, v.minor, s)),
        2 => answered(protocol::read_daemon_result(
            op,
            v.major,
            v.minor,
            s,
            &mut entries,
            &mut payload,
        )),
        _ => skipped_reply(protocol::skip_daemon_result(op, v.major, v.minor, s)),
    }
}

fn show(v: Version, x: Seen) {
    say(b" ");
    number(v.major as u64);
    say(b".");
    number(v.minor as u64);
    if x.which == 0 {
        say(b": kind ");
        number(x.kind);
        say(b" end ");
        number(x.ends as u64);
        say(b" ");
        number(x.entries as u64);
        say(b"/");
        number(x.payload as u64);
        return;
    }
    say(b": no ");
    number(x.which);
    say(b" at ");
    number(x.place as u64);
}

fn name(call: u8) {
    match call {
        0 => say(b" arguments"),
        1 => say(b" skipped  "),
        2 => say(b" reply    "),
        _ => say(b" skipped  "),
    }
}

// One call of an operation at all versions.
fn line(mode: Mode, call: u8, op: u64, s: &[u8]) {
    number(op);
    name(call);
    let mut last = refused(0, 0);
    for i in 0..33 {
        let v = version_at(i);
        let x = see(mode, call, op, v, s);
        if (i == 0) | (x != last) {
            show(v, x);
        }
        last = x;
    }
    say(b"\n");
}

fn operations(s: &[u8]) {
    for op in 0..=48 {
        line(Mode::Ported, 0, op, s);
        line(Mode::Ported, 1, op, s);
        line(Mode::Ported, 2, op, s);
        line(Mode::Ported, 3, op, s);
    }
}

// The arguments that published mode has otherwise.
fn published(s: &[u8]) {
    line(Mode::Published, 0, 30, s);
    line(Mode::Published, 1, 30, s);
    line(Mode::Published, 0, 42, s);
    line(Mode::Published, 1, 42, s);
}

fn byte_of_one(i: usize) -> u8 {
    if i % 8 == 0 {
        return 1;
    }
    0
}

// Every number of the stream is 1.
fn ones(out: &mut [u8]) {
    for (i, b) in out.iter_mut().enumerate() {
        *b = byte_of_one(i);
    }
}

fn numbers(x: &[u64]) {
    for n in x {
        say(b" ");
        number(*n);
    }
}

fn told(a: Answer, lent: &[u64]) {
    let o = a.outcome;
    let found = a.found;
    match o {
        Err(r) => {
            say(b"no");
            numbers(&[r.which, r.place as u64, r.stream]);
        }
        Ok(_) => {
            say(b"kind");
            numbers(&[a.kind]);
            say(b" ends");
            numbers(&[a.ends as u64, a.ends2 as u64]);
            say(b" numbers");
            numbers(&found.numbers);
            say(b" counts");
            numbers(&found.counts);
            say(b" entries");
            numbers(&[found.entries as u64]);
        }
    }
    say(b" lent");
    numbers(lent);
    say(b"\n");
}

fn erred(mode: Mode, minor: u8, s: &[u8]) {
    let mut few = [7u64; 4];
    let a = stderr::read_stderr_with_error(mode, 1, minor, s, &mut few);
    told(a, &few);
    let mut entries = [7u64; 8];
    let a = stderr::read_stderr_with_error(mode, 1, minor, s, &mut entries);
    told(a, &entries);
}

fn stopped(s: &[u8]) {
    told(stderr::read_stderr_loop(s), &[]);
    erred(Mode::Ported, 38, s);
}

fn greeted(client: &[u8], daemon: &[u8]) {
    let mut few = [7u64; 4];
    let a = handshake::parse_handshake(client, daemon, &mut few);
    told(a, &few);
    let mut entries = [7u64; 8];
    let a = handshake::parse_handshake(client, daemon, &mut entries);
    told(a, &entries);
    let mut heard = [7u64; 8];
    let a = handshake::parse_daemon_handshake(1, 38, daemon, &mut heard);
    told(a, &heard);
}

// In published mode: an error with a trace, and the same bytes as an error below 1.26; positions of the error and of the trace that are not 0.
fn traces() {
    let traced =
        b"ptxc\0\0\0\0\x05\0\0\0\0\0\0\0Error\0\0\0\x01\0\0\0\0\0\0\0\0\0\0\0\0\0\0\0\x04\0\0\0\0\0\0\0damp\0\0\0\0\0\0\0\0\0\0\0\0\x01\0\0\0\0\0\0\0\0\0\0\0\0\0\0\0\x04\0\0\0\0\0\0\0silo\0\0\0\0";
    erred(Mode::Published, 26, traced);
    erred(Mode::Published, 25, traced);
    erred(
        Mode::Published,
        26,
        b"ptxc\0\0\0\0\x05\0\0\0\0\0\0\0Error\0\0\0\x01\0\0\0\0\0\0\0\0\0\0\0\0\0\0\0\x04\0\0\0\0\0\0\0damp\0\0\0\0\x02\0\0\0\0\0\0\0",
    );
    erred(
        Mode::Published,
        26,
        b"ptxc\0\0\0\0\x05\0\0\0\0\0\0\0Error\0\0\0\x01\0\0\0\0\0\0\0\0\0\0\0\0\0\0\0\x04\0\0\0\0\0\0\0damp\0\0\0\0\0\0\0\0\0\0\0\0\x01\0\0\0\0\0\0\0\x02\0\0\0\0\0\0\0",
    );
}

// A message and the end; an error with a place in a file; one that is cut in the length of its text; version 1.38 with a feature of each side, and the
// same where the daemon's last number is another.
fn conversations() {
    stopped(b"gmlo\0\0\0\0\x04\0\0\0\0\0\0\0damp\0\0\0\0stla\0\0\0\0");
    stopped(
        b"ptxc\0\0\0\0\x05\0\0\0\0\0\0\0Error\0\0\0\x01\0\0\0\0\0\0\0\0\0\0\0\0\0\0\0\x04\0\0\0\0\0\0\0damp\0\0\0\0\x01\0\0\0\0\0\0\0\x08\0\0\0\0\0\0\0silo.nix\x03\0\0\0\0\0\0\0\x09\0\0\0\0\0\0\0",
    );
    stopped(b"ptxc\0\0\0\0\x05\0\0\0\0\0\0\0Error\0\0\0\x01\0\0\0\0\0\0\0\0\0\0\0\0\0\0\0\x04\0\0");
    let client =
        b"cxin\0\0\0\0&\x01\0\0\0\0\0\0\x01\0\0\0\0\0\0\0\x03\0\0\0\0\0\0\0bin\0\0\0\0\0\0\0\0\0\0\0\0\0\0\0\0\0\0\0\0\0";
    greeted(
        client,
        b"oixd\0\0\0\0&\x01\0\0\0\0\0\0\x01\0\0\0\0\0\0\0\x04\0\0\0\0\0\0\0silo\0\0\0\0\x04\0\0\0\0\0\0\02.26\0\0\0\0\x01\0\0\0\0\0\0\0stla\0\0\0\0",
    );
    greeted(
        client,
        b"oixd\0\0\0\0&\x01\0\0\0\0\0\0\x01\0\0\0\0\0\0\0\x04\0\0\0\0\0\0\0silo\0\0\0\0\x04\0\0\0\0\0\0\02.26\0\0\0\0\x01\0\0\0\0\0\0\0gmlo\0\0\0\0",
    );
}

// A bad byte behind three good ones: in arguments, which are read and skipped, and in a reply; in an error's message, whose last character the string's end cuts; and
// in a feature of each side.
fn bad_bytes() {
    let s = b"\x05\0\0\0\0\0\0\0a\xC3\xA9\xFFb\0\0\0";
    line(Mode::Ported, 0, 1, s);
    line(Mode::Ported, 1, 1, s);
    line(Mode::Ported, 2, 18, s);
    line(Mode::Ported, 3, 18, s);
    stopped(
        b"ptxc\0\0\0\0\x05\0\0\0\0\0\0\0Error\0\0\0\x01\0\0\0\0\0\0\0\0\0\0\0\0\0\0\0\x06\0\0\0\0\0\0\0damp\xE2\x82\0\0\0\0\0\0\0\0\0\0",
    );
    greeted(
        b"cxin\0\0\0\0&\x01\0\0\0\0\0\0\x01\0\0\0\0\0\0\0\x04\0\0\0\0\0\0\0bin\xFF\0\0\0\0\0\0\0\0\0\0\0\0\0\0\0\0\0\0\0\0",
        b"oixd\0\0\0\0&\x01\0\0\0\0\0\0\x01\0\0\0\0\0\0\0\x04\0\0\0\0\0\0\0sil\xFF\0\0\0\0",
    );
}

fn main() {
    say(b"zeros\n");
    let mut s = [0u8; 256];
    operations(&s);
    say(b"zeros in published mode\n");
    published(&s);
    say(b"ones\n");
    ones(&mut s);
    operations(&s);
    say(b"ones in published mode\n");
    published(&s);
    say(b"conversations\n");
    conversations();
    say(b"bad bytes\n");
    bad_bytes();
    say(b"traces\n");
    traces();
}

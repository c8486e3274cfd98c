// One line for each answer, put together in a buffer. Each function takes how much of the buffer is in use and answers how much is in use after it.
use probe_by_number::{lent, told};

const READ_FRAMED: u64 = 16;

// A full buffer is written out first.
fn put_byte(text: &mut [u8], n: usize, b: u8) -> usize {
    if n < text.len() {
        text[n] = b;
        return n + 1;
    }
    io::write_all(1, text);
    if text.len() == 0 {
        return 0;
    }
    text[0] = b;
    1
}

fn put(text: &mut [u8], n: usize, words: &[u8]) -> usize {
    let mut m = n;
    for b in words {
        m = put_byte(text, m, *b);
    }
    m
}

// Before each but the first of a list.
fn put_between(text: &mut [u8], n: usize, b: u8, is_first: bool) -> usize {
    if is_first {
        return n;
    }
    put_byte(text, n, b)
}

fn put_number(text: &mut [u8], n: usize, x: u64) -> usize {
    let mut digits = [0u8; 20];
    let k = io::decimal(x, &mut digits);
    put(text, n, &digits[..k])
}

// Which number of the block the line has as number i: a string of the block's own is an entry in the line, or the payload, and of a refused view the refusal is
// number 0 and its place number 1.
fn shown(call: u64, i: usize) -> usize {
    if (call == READ_FRAMED) & (i == told::FIRST_NUMBER) {
        return told::OUTPUT;
    }
    if (call == probe_by_number::ENTRY_VIEW) & (i == told::FIRST_NUMBER) {
        return told::REFUSAL;
    }
    if (call == probe_by_number::ENTRY_VIEW) & (i == told::OWN_START) {
        return told::PLACE;
    }
    if told::is_own(call) & ((i == told::OWN_START) | (i == told::OWN_LENGTH)) {
        return told::ZERO;
    }
    i
}

// The numbers of the block from one up to another, behind a word.
fn put_numbers(
    text: &mut [u8],
    n: usize,
    name: &[u8],
    between: u8,
    call: u64,
    block: &[u8],
    from: usize,
    to: usize,
) -> usize {
    let mut m = put(text, n, name);
    for i in from..to {
        m = put_between(text, m, between, i == from);
        m = put_number(text, m, told::number(block, shown(call, i)));
    }
    m
}

fn put_entries(text: &mut [u8], n: usize, entries: &[u8]) -> usize {
    let mut m = put(text, n, b" e=");
    for i in 0..entries.len() / lent::ENTRY {
        m = put_between(text, m, b',', i == 0);
        m = put_number(text, m, lent::number(entries, lent::ENTRY * i));
        m = put_byte(text, m, b':');
        m = put_number(text, m, lent::number(entries, lent::ENTRY * i + 8));
    }
    m
}

fn digit(x: u8) -> u8 {
    let d = x % 16;
    if d < 10 {
        return 48 + d;
    }
    87 + d
}

fn put_hex(text: &mut [u8], n: usize, bytes: &[u8]) -> usize {
    let mut m = put(text, n, b" p=");
    for b in bytes {
        m = put_byte(text, m, digit(*b / 16));
        m = put_byte(text, m, digit(*b));
    }
    m
}

fn put_told(text: &mut [u8], call: u64, block: &[u8]) -> usize {
    let c = b',';
    let mut n = put_numbers(text, 0, b"ok kind=", c, call, block, told::KIND, told::END);
    n = put_numbers(text, n, b" end=", c, call, block, told::END, told::END2);
    n = put_numbers(
        text,
        n,
        b" end2=",
        c,
        call,
        block,
        told::END2,
        told::ENTRIES,
    );
    n = put_numbers(
        text,
        n,
        b" n=",
        c,
        call,
        block,
        told::FIRST_NUMBER,
        told::FIRST_COUNT,
    );
    put_numbers(
        text,
        n,
        b" c=",
        c,
        call,
        block,
        told::FIRST_COUNT,
        told::ZERO,
    )
}

pub fn put_fine(
    text: &mut [u8],
    call: u64,
    block: &[u8],
    entries: &[u8],
    payload: &[u8],
    is_kept: bool,
) -> usize {
    let mut n = put_told(text, call, block);
    n = put_entries(text, n, entries);
    n = put_hex(text, n, payload);
    if is_kept {
        return put(text, n, b" kept=1");
    }
    put(text, n, b" kept=0")
}

pub fn put_refusal(text: &mut [u8], block: &[u8], is_kept: bool) -> usize {
    let n = put_numbers(text, 0, b"no ", b' ', 0, block, told::REFUSAL, told::KIND);
    if is_kept {
        return n;
    }
    put(text, n, b" touched")
}

pub fn put_no_call(text: &mut [u8]) -> usize {
    put(text, 0, b"no call")
}

pub fn end(text: &mut [u8], n: usize) {
    let m = put_byte(text, n, b'\n');
    if m <= text.len() {
        io::write_all(1, &text[..m]);
    }
}

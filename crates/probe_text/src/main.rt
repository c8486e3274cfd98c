#![tactic(auto)]
// Runs vectors of RFC 3629 over the crate `text`, one to a line: how many octets lie before the first that begins no character of section 4's
// grammar, and whether all of them are text. The file `stdin` has the vectors, and the reason for each group of them in a comment. A vector is
// octets and a colon, or a name, a colon and octets. The file `stdout` has what is right.

// More bytes than the list has, and more octets than any vector of it.
const LIST: usize = 16384;

const OCTETS: usize = 72;

fn write_number(n: usize) {
    io::print_decimal(1, n as u64);
}

fn write_answer(is_text: bool) {
    if is_text {
        io::write_all(1, b", text\n");
    } else {
        io::write_all(1, b", not text\n");
    }
}

// The number comes from `text_end` and the word from `is_text`, so that each line runs both.
fn write_judged(s: &[u8]) {
    io::write_all(1, b": ");
    write_number(text::text_end(s));
    io::write_all(1, b" of ");
    write_number(s.len());
    write_answer(text::is_text(s));
}

fn byte_at(s: &[u8], at: usize) -> u8 {
    if at < s.len() {
        return s[at];
    }
    0
}

// What a hexadecimal digit stands for. The code of A is 41, so its last half is 1 and not 10.
fn value(digit: u8) -> u8 {
    if digit < b'A' {
        return digit % 16;
    }
    digit % 16 + 9
}

fn octet(high: u8, low: u8) -> u8 {
    (value(high) << 4) | value(low)
}

// Takes three bytes for each octet: its digits, and a space or the end of the line.
fn judge(digits: &[u8]) {
    let mut octets = [0u8; OCTETS];
    let n = OCTETS.min(digits.len() / 3);
    for i in 0..n {
        octets[i] = octet(byte_at(digits, 3 * i), byte_at(digits, 3 * i + 1));
    }
    write_judged(&octets[..n]);
}

// A vector without a name is written as its octets are.
fn show_vector(name: &[u8], octets: &[u8]) {
    io::write_all(1, name);
    if octets.len() == 0 {
        judge(name);
    } else {
        judge(octets);
    }
}

// Comments are passed over, headings written as they are.
fn show_line(line: &[u8]) {
    if byte_at(line, 0) == b'/' {
        return;
    }
    let colon = line.iter().position(|&b| b == b':').unwrap_or(line.len());
    let behind = colon + 2;
    if line.len() < behind {
        io::write_all(1, line);
    } else {
        show_vector(&line[0..colon], &line[behind..]);
    }
}

// A line keeps its end.
fn show_lines(list: &[u8]) {
    let mut start = 0;
    for at in 0..list.len() {
        if list[at] == b'\n' {
            let end = at + 1;
            show_line(&list[start..end]);
            start = end;
        }
    }
}

fn show_list() {
    let mut list = [0u8; LIST];
    let n = io::read_full(0, &mut list);
    show_lines(&list[..n]);
}

// The last six bits of c behind the mark of a tail, 10.
fn tail(c: u32) -> u8 {
    0x80 + (c % 0x40) as u8
}

fn is_one(c: u32) -> bool {
    let s = [(c % 0x80) as u8];
    text::is_text(&s)
}

fn is_two(c: u32) -> bool {
    let s = [0xC0 + ((c / 0x40) % 0x20) as u8, tail(c)];
    text::is_text(&s)
}

fn is_three(c: u32) -> bool {
    let s = [0xE0 + ((c / 0x1000) % 0x10) as u8, tail(c / 0x40), tail(c)];
    text::is_text(&s)
}

fn is_four(c: u32) -> bool {
    let s = [
        0xF0 + ((c / 0x4_0000) % 8) as u8,
        tail(c / 0x1000),
        tail(c / 0x40),
        tail(c),
    ];
    text::is_text(&s)
}

// Is c text in the octets that the table of section 3 has for it? Surrogates are laid out like any other number, to be refused.
fn is_char(c: u32) -> bool {
    if c < 0x80 {
        return is_one(c);
    }
    if c < 0x800 {
        return is_two(c);
    }
    if c < 0x1_0000 {
        return is_three(c);
    }
    is_four(c)
}

// For how many code points from `first` to `last` `is_char` gives this answer.
fn count_chars(first: u32, last: u32, answer: bool) -> u64 {
    let mut n = 0;
    for c in first..=last {
        if is_char(c) == answer {
            n += 1;
        }
    }
    n
}

fn show_count(words: &[u8], first: u32, last: u32) {
    io::write_all(1, words);
    io::print_decimal(1, count_chars(first, last, true));
    io::write_all(1, b" are text, ");
    io::print_decimal(1, count_chars(first, last, false));
    io::write_all(1, b" are not\n");
}

// No code point is missed: there are 0x110000, and all are text but the 0x800 surrogates.
fn count_all() {
    show_count(b"code points 0 to D7FF: ", 0, 0xD7FF);
    show_count(b"code points D800 to DFFF: ", 0xD800, 0xDFFF);
    show_count(b"code points E000 to 10FFFF: ", 0xE000, 0x10_FFFF);
    show_count(b"code points 0 to 10FFFF: ", 0, 0x10_FFFF);
}

fn main() {
    show_list();
    count_all();
}

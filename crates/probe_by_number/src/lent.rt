// Memory that is lent to a call: filled with a pattern before it, and held against the pattern after it. Parts that would pass the end are empty, and a
// number there is 0.

pub const ENTRY: usize = 16;

// Never 0, so that zeros show that were written; 251 is prime, so that a shift shows.
fn pattern(i: usize) -> u8 {
    (1 + i % 251) as u8
}

// The pattern's next byte, without a division.
fn after(b: u8) -> u8 {
    if b < 251 {
        return b + 1;
    }
    1
}

pub fn fill(s: &mut [u8]) {
    for (i, b) in s.iter_mut().enumerate() {
        *b = pattern(i);
    }
}

// Is all as it was lent, from a place on that it has?
pub fn is_kept(s: &[u8], from: usize) -> bool {
    if s.len() < from {
        return false;
    }
    let mut expected = pattern(from);
    for b in &s[from..] {
        if *b != expected {
            return false;
        }
        expected = after(expected);
    }
    true
}

// The first n bytes, or none.
pub fn some(s: &mut [u8], n: usize) -> &mut [u8] {
    if n <= s.len() {
        return &mut s[..n];
    }
    &mut s[..0]
}

// So many slots, or none.
pub fn some_slots(s: &mut [u8], slots: usize) -> &mut [u8] {
    if slots <= s.len() / ENTRY {
        let n = ENTRY * slots;
        return &mut s[..n];
    }
    &mut s[..0]
}

// n bytes from a place on.
pub fn part(s: &[u8], from: usize, n: usize) -> &[u8] {
    if s.len() < from {
        return &s[..0];
    }
    if s.len() - from < n {
        return &s[..0];
    }
    let to = from + n;
    &s[from..to]
}

// The first n bytes, or all where there are fewer.
pub fn first(s: &[u8], n: usize) -> &[u8] {
    if n <= s.len() {
        return &s[..n];
    }
    s
}

// What follows the first n bytes.
pub fn behind(s: &[u8], n: usize) -> &[u8] {
    if n <= s.len() {
        return &s[n..];
    }
    &s[..0]
}

// The eight bytes at a place as a number.
pub fn number(s: &[u8], at: usize) -> u64 {
    if s.len() < at {
        return 0;
    }
    numbers::read(&s[at..]).unwrap_or(0)
}

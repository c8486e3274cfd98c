// What a call told in its block: include/lintelow.h has the layout.
use crate::lent;

pub const REFUSAL: usize = 0;

pub const PLACE: usize = 1;

pub const STREAM: usize = 2;

pub const KIND: usize = 3;

pub const END: usize = 4;

pub const END2: usize = 5;

pub const ENTRIES: usize = 6;

pub const OUTPUT: usize = 7;

pub const FIRST_NUMBER: usize = 8;

// Where a block has an entry of its own: its numbers 1 and 2.
pub const OWN_START: usize = 9;

pub const OWN_LENGTH: usize = 10;

pub const FIRST_COUNT: usize = 20;

// Behind the counts: 0, kept for later.
pub const ZERO: usize = 23;

const MOST_ENTRIES: u64 = 65536;

pub fn number(block: &[u8], i: usize) -> u64 {
    if ZERO < i {
        return 0;
    }
    lent::number(block, 8 * i)
}

// The entry stands in the answer itself: no slot is used.
pub fn is_own(call: u64) -> bool {
    (call == 2) | (call == 11) | (call == 12) | (call == crate::ENTRY_VIEW)
}

// The bytes of the entries that are reported; more than any program lends are none.
fn entries_length(block: &[u8]) -> usize {
    let n = number(block, ENTRIES);
    if n < MOST_ENTRIES {
        return lent::ENTRY * n as usize;
    }
    0
}

// The entries that are reported.
pub fn strings<'a>(call: u64, entries: &'a [u8], block: &'a [u8]) -> &'a [u8] {
    let n = entries_length(block);
    if is_own(call) {
        return lent::part(block, 8 * OWN_START, n);
    }
    lent::part(entries, 0, n)
}

fn slots_used(call: u64, block: &[u8]) -> usize {
    if is_own(call) {
        return 0;
    }
    entries_length(block)
}

// Is lent memory beyond what is reported as it was lent?
pub fn is_kept(call: u64, entries: &[u8], room: &[u8], block: &[u8]) -> bool {
    lent::is_kept(entries, slots_used(call, block))
        & lent::is_kept(room, number(block, OUTPUT) as usize)
}

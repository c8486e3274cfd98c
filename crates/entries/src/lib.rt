#![tactic(auto)]
// Entries in lent memory: start and length of a string, as two numbers or as sixteen bytes. An entry may hold any numbers: the tests come before every sum.
ghost use Rattle.std.specs.Prelude.{ℕ, List, ◌*◌, ◌<◌, ◌≡◌, refl, get_or};
ghost use Rattle.layouts.specs.Primitive.{no_such_entry};
ghost use Rattle.layouts.specs.Refusal.{plain};
ghost use Rattle.layouts.specs.Writers.{slots_of, entry_start, entry_length};
ghost use Rattle.entries.specs.Entries.{slots_in, slots_in_both, entries_in, numbers_in, place_of, found};
ghost use Rattle.entries.specs.Forms.{bytes_counted};

use layouts::Refusal;

// How many numbers an entry is, and how many bytes.
pub const NUMBERS: usize = 2;

pub const BYTES: usize = 16;

// How many bytes a number takes.
const WIDTH: usize = 8;

// Where a string lies.
#[derive(Clone, Copy)]
pub struct Located {
    pub start: usize,
    pub len: usize,
}

// What entries are made of: numbers, two to an entry, or bytes, sixteen.
pub trait Form {
    // How many entries there are, or is room for.
    ghost slots: { List Self → ℕ };

    // Start and length of each, one after the other.
    ghost numbers: { List Self → List ℕ };

    fn slots(entries: &[Self]) -> usize
        ensures slots { result ≡ slots entries.now }
        ensures few { 2 * result < 18446744073709551616 };

    // Number k of all, or 0 where there are not so many.
    fn number(entries: &[Self], k: usize) -> u64
        ensures { result ≡ get_or (numbers entries.now) k 0 };

    ghost counted: { (es : List Self) → slots es ≡ slots_of (numbers es) };
}

impl Form for u64 {
    ghost slots = { slots_of };

    ghost numbers = { λ es. es };

    ghost counted = { λ es. refl };

    fn slots(entries: &[u64]) -> usize {
        entries.len() / NUMBERS
    }

    fn number(entries: &[u64], k: usize) -> u64 {
        if k < entries.len() {
            return entries[k];
        }
        0
    }
}

impl Form for u8 {
    ghost slots = { slots_in };

    ghost numbers = { entries_in };

    ghost counted = { bytes_counted };

    fn slots(entries: &[u8]) -> usize {
        entries.len() / BYTES
    }

    fn number(entries: &[u8], k: usize) -> u64 {
        if k < NUMBERS * (entries.len() / BYTES) {
            return pieces::number_at(entries, WIDTH * k).unwrap_or(0);
        }
        0
    }
}

fn no_such(i: usize) -> Refusal
    ensures { result ≡ plain no_such_entry i }
{
    layouts::refuse(layouts::NO_SUCH_ENTRY, i)
}

// Where a string lies in s whose entry, number i of some, says start and length, or why there is none.
fn locate(s: &[u8], start: u64, len: u64, i: usize) -> Result<Located, Refusal>
    ensures { (es : List ℕ) → i < slots_of es → start ≡ entry_start es i → len ≡ entry_length es i → found result ≡ place_of s.now es i }
{
    let n = s.len() as u64;
    if n < start {
        return Err(layouts::refuse(layouts::BAD_ENTRY, i));
    }
    if n - start < len {
        return Err(layouts::refuse(layouts::BAD_ENTRY, i));
    }
    Ok(Located {
        start: start as usize,
        len: len as usize,
    })
}

// Where string number i lies in s, or why there is none.
pub fn find<T: Form>(s: &[u8], entries: &[T], i: usize) -> Result<Located, Refusal>
    ensures { found result ≡ place_of s.now (T.numbers entries.now) i }
{
    if T::slots(entries) <= i {
        return Err(no_such(i));
    }
    let start = T::number(entries, NUMBERS * i);
    let len = T::number(entries, NUMBERS * i + 1);
    locate(s, start, len, i)
}

// Of entries lent in both forms, the numbers before the bytes: how many there are, or is room for.
pub fn slots(words: &[u64], bytes: &[u8]) -> usize
    ensures { result ≡ slots_in_both words.now bytes.now }
{
    u64::slots(words) + u8::slots(bytes)
}

// Number k of them, or 0 where there are not so many.
fn number_of_both(words: &[u64], bytes: &[u8], k: usize) -> u64
    ensures { result ≡ get_or (numbers_in words.now bytes.now) k 0 }
{
    if k < words.len() {
        return words[k];
    }
    u8::number(bytes, k - words.len())
}

// Where string number i lies in s by them, or why there is none.
pub fn find_in_both(s: &[u8], words: &[u64], bytes: &[u8], i: usize) -> Result<Located, Refusal>
    ensures { found result ≡ place_of s.now (numbers_in words.now bytes.now) i }
{
    if slots(words, bytes) <= i {
        return Err(no_such(i));
    }
    let start = number_of_both(words, bytes, NUMBERS * i);
    let len = number_of_both(words, bytes, NUMBERS * i + 1);
    locate(s, start, len, i)
}

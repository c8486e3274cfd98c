#![tactic(auto)]
// What is put into a lent room, from a place on: bytes, and an entry as two numbers or as sixteen bytes. What lies past the end of the room falls away, so that
// nothing is asked for; what comes next goes to the place that is answered.
ghost use Rattle.std.specs.Prelude.{ℕ, List, ◌≡◌, refl, [], ◌∷◌, ◌++◌, ◌+◌, ◌*◌, ◌/◌, ◌≤◌, min, length, take};
ghost use Rattle.std.proofs.lemmas.List.Edits.{sets};
ghost use Rattle.writers_output.specs.Numbers.{bytes_of};
ghost use Rattle.walk_rooms.specs.Rooms.{Put};
ghost use Rattle.writers_output.proofs.Numbers.{bytes_none, bytes_join};

use entries::Form;

// A form in which entries are put into a room.
pub trait Room: Form {
    // Start and length of each, one after the other, as they stand there.
    ghost laid: { List ℕ → List Self };

    fn put_entry(out: &mut [Self], at: usize, start: usize, len: usize) -> usize
        ensures { Put out.old at (laid (start ∷ len ∷ [])) out.new result };

    ghost nothing: { laid [] ≡ [] };

    ghost joined: { (xs ys : List ℕ) → laid (xs ++ ys) ≡ laid xs ++ laid ys };
}

impl Room for u64 {
    ghost laid = { λ ns. ns };

    ghost nothing = { refl };

    ghost joined = { λ xs ys. refl };

    fn put_entry(out: &mut [u64], at: usize, start: usize, len: usize) -> usize {
        let second = put(out, at, start as u64);
        put(out, second, len as u64)
    }
}

// The room may hold a beginning of an entry.
impl Room for u8 {
    ghost laid = { bytes_of };

    ghost nothing = { bytes_none };

    ghost joined = { bytes_join };

    fn put_entry(out: &mut [u8], at: usize, start: usize, len: usize) -> usize {
        if out.len() < at {
            return put_cut_entry(out, at, start, len);
        }
        if out.len() - at < entries::BYTES {
            return put_cut_entry(out, at, start, len);
        }
        writers_output::put_number(out, at, start as u64);
        writers_output::put_number(out, at + 8, len as u64);
        at + entries::BYTES
    }
}

// A number.
fn put(out: &mut [u64], at: usize, x: u64) -> usize
    ensures { Put out.old at (x ∷ []) out.new result }
{
    if at < out.len() {
        out[at] = x;
        return at + 1;
    }
    at
}

// The first n bytes of c, into a part of the room that holds them.
fn copy_front(out: &mut [u8], at: usize, c: &[u8], n: usize)
    requires { (n ≤ length c.now) × (at + n ≤ length out.old) }
    ensures { out.new ≡ sets out.old at (take n c.now) }
{
    out[at..at + n].copy_from_slice(&c[0..n]);
}

// Bytes, from where the last ones stopped.
pub fn put_bytes(out: &mut [u8], at: usize, c: &[u8]) -> usize
    ensures { Put out.old at c.now out.new result }
{
    let size = out.len();
    if size <= at {
        return at;
    }
    let room = size - at;
    let n = c.len();
    if room < n {
        copy_front(out, at, c, room);
        return size;
    }
    copy_front(out, at, c, n);
    at + n
}

// An entry as sixteen bytes, of which the room may hold a beginning.
fn put_cut_entry(out: &mut [u8], at: usize, start: usize, len: usize) -> usize
    ensures { Put out.old at (bytes_of (start ∷ len ∷ [])) out.new result }
{
    let mut entry = [0u8; 16];
    writers_output::put_number(&mut entry, 0, start as u64);
    writers_output::put_number(&mut entry, 8, len as u64);
    put_bytes(out, at, &entry)
}

// The first n entries of a window, two numbers each, into a room.
pub fn put_window<T: Room>(window: &[u64], n: usize, out: &mut [T])
    ensures { out.new ≡ sets out.old 0 (T.laid (take (2 * min n (length window.now / 2)) window.now)) }
{
    let mut at: usize = 0;
    for i in 0..n.min(window.len() / entries::NUMBERS) {
        let start = window[entries::NUMBERS * i] as usize;
        let len = window[entries::NUMBERS * i + 1] as usize;
        at = T::put_entry(out, at, start, len);
    }
}

// The same into a room of numbers and one of bytes.
pub fn put_window_in_both(window: &[u64], n: usize, words: &mut [u64], bytes: &mut [u8])
    ensures words { words.new ≡ sets words.old 0 (take (2 * min n (length window.now / 2)) window.now) }
    ensures bytes { bytes.new ≡ sets bytes.old 0 (bytes_of (take (2 * min n (length window.now / 2)) window.now)) }
{
    put_window(window, n, words);
    put_window(window, n, bytes);
}

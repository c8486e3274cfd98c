#![tactic(auto)]
// The writer of sets of strings. The strings are entries of some bytes, in either form; all is judged before anything is written.
ghost use Rattle.std.specs.Prelude.{◌≡◌, ◌-◌, ◌≤◌, length};
ghost use Rattle.layouts.specs.Writers.{set_bytes, texts_from, texts_of, write_string_set};
ghost use Rattle.writers_output.specs.Answer.{meaning};
ghost use Rattle.writers_output.specs.Placed.{placed};
ghost use Rattle.entries.specs.Entries.{entries_in, numbers_in};
ghost use Rattle.writers_sets.specs.Sets.{fitting, text_taken, entry_taken, grown, strings_judged, set_judged, parts_from, strings_put, set_output};

use entries::Form;
use writers_output::Written;

// How many bytes c takes as a string, if it is text. It is number i.
fn judge_text(c: &[u8], i: usize) -> Written
    ensures { meaning result ≡ text_taken i c.now }
{
    if text::is_text(c) {
        return Ok(writers_output::string_length(c));
    }
    Err(layouts::refuse(layouts::BAD_TEXT, i))
}

// How many bytes entry i takes as a string.
fn judge_entry<T: Form>(s: &[u8], entries: &[T], i: usize) -> Written
    ensures { meaning result ≡ entry_taken s.now (T.numbers entries.now) i }
{
    let k = entries::find(s, entries, i)?;
    let end = k.start + k.len;
    judge_text(&s[k.start..end], i)
}

// More than any room.
const BEYOND: usize = 18446744073709551615;

// The sum, or more than any room where it passes this one: entries may overlap, so the sum itself can pass 2^64.
pub fn grow(room: usize, total: usize, n: usize) -> usize
    ensures { result ≡ grown room total n }
{
    if room < total {
        return total;
    }
    if room - total < n {
        return BEYOND;
    }
    total + n
}

fn fit(n: usize, room: usize) -> Written
    ensures { meaning result ≡ fitting n room }
{
    if room < n {
        return Err(layouts::refuse(layouts::OUTPUT_FULL, 0));
    }
    Ok(n)
}

// How many bytes the first entries take as strings behind some other bytes of an output, or the refusal; nothing is written yet.
pub fn judge_strings<T: Form>(
    out: &[u8],
    before: usize,
    s: &[u8],
    entries: &[T],
    count: usize,
) -> Written
    ensures { meaning result ≡ strings_judged (length out.now) before (texts_from s.now (T.numbers entries.now) count 0) }
{
    let room = out.len();
    let mut total = before;
    for i in 0..count {
        let n = judge_entry(s, entries, i)?;
        total = grow(room, total, n);
    }
    fit(total, room)
}

// The set's length, or the refusal.
fn judge_set<T: Form>(out: &[u8], s: &[u8], entries: &[T], count: usize) -> Written
    ensures { meaning result ≡ set_judged (length out.now) (texts_of s.now (T.numbers entries.now) count) }
{
    if T::slots(entries) < count {
        return Err(layouts::refuse(layouts::NO_SUCH_ENTRY, count));
    }
    judge_strings(out, 8, s, entries, count)
}

// The entries from number i up to another, as strings at a place; the place after them. It stops before one that does not fit.
pub fn put_strings<T: Form>(
    out: &mut [u8],
    at: usize,
    s: &[u8],
    entries: &[T],
    i: usize,
    next: usize,
) -> usize
    ensures place { result ≡ (strings_put at (parts_from s.now (T.numbers entries.now) (next - i) i) out.old).0 }
    ensures out { out.new ≡ (strings_put at (parts_from s.now (T.numbers entries.now) (next - i) i) out.old).1 }
{
    let mut at = at;
    for k in i..next {
        let c = views::part(s, entries, k);
        let n = writers_output::string_length(c);
        if !writers_output::has_room(out.len(), at, n) {
            return at;
        }
        writers_output::put_string(out, at, c);
        at += n;
    }
    at
}

fn put_set<T: Form>(out: &mut [u8], s: &[u8], entries: &[T], count: usize)
    requires { length (set_bytes (parts_from s.now (T.numbers entries.now) count 0)) ≤ length out.old }
    ensures { out.new ≡ placed 0 (set_bytes (parts_from s.now (T.numbers entries.now) count 0)) out.old }
{
    writers_output::put_number(out, 0, count as u64);
    put_strings(out, 8, s, entries, 0, count);
}

fn write<T: Form>(out: &mut [u8], s: &[u8], entries: &[T], count: usize) -> Written
    ensures answer { meaning result ≡ write_string_set s.now (T.numbers entries.now) count out.old }
    ensures lent { out.new ≡ set_output s.now (T.numbers entries.now) count out.old }
{
    let n = judge_set(out, s, entries, count)?;
    put_set(out, s, entries, count);
    Ok(n)
}

pub fn write_string_set(out: &mut [u8], bytes: &[u8], entries: &[u64], count: usize) -> Written
    ensures answer { meaning result ≡ write_string_set bytes.now entries.now count out.old }
    ensures lent { out.new ≡ set_output bytes.now entries.now count out.old }
{
    write(out, bytes, entries, count)
}

// The same with entries of sixteen bytes.
pub fn write_string_set_bytes(out: &mut [u8], bytes: &[u8], entries: &[u8], count: usize) -> Written
    ensures answer { meaning result ≡ write_string_set bytes.now (entries_in entries.now) count out.old }
    ensures lent { out.new ≡ set_output bytes.now (entries_in entries.now) count out.old }
{
    write(out, bytes, entries, count)
}

// How many bytes entry i takes as a string, with entries in both forms, the numbers before the bytes.
fn judge_entry_in_both(s: &[u8], words: &[u64], bytes: &[u8], i: usize) -> Written
    ensures { meaning result ≡ entry_taken s.now (numbers_in words.now bytes.now) i }
{
    let place = entries::find_in_both(s, words, bytes, i)?;
    let end = place.start + place.len;
    judge_text(&s[place.start..end], i)
}

// The same as judge_strings, with entries in both forms.
pub fn judge_strings_in_both(
    out: &[u8],
    before: usize,
    s: &[u8],
    words: &[u64],
    bytes: &[u8],
    count: usize,
) -> Written
    ensures { meaning result ≡ strings_judged (length out.now) before (texts_from s.now (numbers_in words.now bytes.now) count 0) }
{
    let room = out.len();
    let mut sum = before;
    for i in 0..count {
        let n = judge_entry_in_both(s, words, bytes, i)?;
        sum = grow(room, sum, n);
    }
    fit(sum, room)
}

// The same as put_strings, with entries in both forms.
pub fn put_strings_in_both(
    out: &mut [u8],
    at: usize,
    s: &[u8],
    words: &[u64],
    bytes: &[u8],
    i: usize,
    next: usize,
) -> usize
    ensures place { result ≡ (strings_put at (parts_from s.now (numbers_in words.now bytes.now) (next - i) i) out.old).0 }
    ensures out { out.new ≡ (strings_put at (parts_from s.now (numbers_in words.now bytes.now) (next - i) i) out.old).1 }
{
    let mut at = at;
    for k in i..next {
        let c = views::part_in_both(s, words, bytes, k);
        let n = writers_output::string_length(c);
        if !writers_output::has_room(out.len(), at, n) {
            return at;
        }
        writers_output::put_string(out, at, c);
        at += n;
    }
    at
}

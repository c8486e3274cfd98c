#![tactic(auto)]
// A string, a series of strings, framed data, a number that is dropped: judged one by one, for the fold of `walk_judge`. Text and room are judged here, and not by the
// iterator. The first entries go into a window.
ghost use Rattle.std.specs.Prelude.{◌≡◌, ℕ, ◌+◌, ◌-◌, ◌≤◌, length, List, ◌∷◌};
ghost use Rattle.layouts.specs.Primitive.{Result};
ghost use Rattle.layouts.specs.Refusal.{refused_by};
ghost use Rattle.layouts.specs.declared.Record.{Record};
ghost use Rattle.layouts.specs.Shape.{ask, say, dropped};
ghost use Rattle.layouts.specs.Record.{with_entries, with_payload};
ghost use Rattle.layouts.specs.Judge.{Ended, text_taken, half_taken, chunk_taken};
ghost use Rattle.pieces.specs.Pieces.{text_to};
ghost use Rattle.table.specs.Table.{role_of};
ghost use Rattle.walk_strings.specs.Strings.{series};
ghost use Rattle.walk_take.specs.Taking.{in_window, taken, TakenIn, Takes, SeriesFrom, SeriesTook, TakesFrames};

use layouts::Refusal;
use pieces::{Chunk, Text};

// How many entries a window holds, two numbers each: few calls keep more strings, and who fills in needs no second fold where they fit.
pub const WINDOW: usize = 8;

// Where a series of strings ends, and the entries then.
#[derive(Clone, Copy)]
pub struct Series {
    pub at: usize,
    pub entries: usize,
}

// Where the text of a string ends: with its contents, or earlier where it is to be text and is not.
fn text_to(s: &[u8], role: u8, start: usize, len: usize) -> usize
    requires { start + len ≤ length s.now }
    ensures { result ≡ text_to s.now (role_of role) start len }
{
    let end = start + len;
    if role == table::PASSED {
        return end;
    }
    start + text::text_end(&s[start..end])
}

// The entry of a string with n entries before it, as far as the window goes.
fn keep(window: &mut [u64; 16], n: usize, start: usize, len: usize)
    ensures { (es : List ℕ) → in_window window.old n (start ∷ len ∷ es) ≡ in_window window.new (n + 1) es }
{
    if n < WINDOW {
        window[entries::NUMBERS * n] = start as u64;
        window[entries::NUMBERS * n + 1] = len as u64;
        return;
    }
}

// A whole string, with n entries before it: 3, then 4, or the entries with the string counted where it is kept.
fn take_text(
    s: &[u8],
    slots: usize,
    n: usize,
    role: u8,
    start: usize,
    len: usize,
    window: &mut [u64; 16],
) -> Result<usize, Refusal>
    requires { start + len ≤ length s.now }
    ensures law { (r : Record) → r.entries ≡ n → taken (with_entries r) result ≡ text_taken s.now slots r (role_of role) start len }
    ensures window { TakenIn window.old n (role_of role) start len window.new result }
{
    let to = text_to(s, role, start, len);
    if to < start + len {
        return Err(layouts::refuse(layouts::BAD_TEXT, to));
    }
    if role < table::KEPT {
        return Ok(n);
    }
    if slots <= n {
        // at its length
        return Err(layouts::refuse(layouts::NO_ENTRY_ROOM, start.saturating_sub(8)));
    }
    keep(window, n, start, len);
    Ok(n + 1)
}

// A string whose contents are whole and whose padding is cut short: 3, then 1.
fn half_string(s: &[u8], role: u8, start: usize, len: usize) -> Refusal
    requires { start + len ≤ length s.now }
    ensures { ◌≡◌ {A = Result Ended} (refused_by result) (half_taken s.now (role_of role) start len) }
{
    let to = text_to(s, role, start, len);
    if to < start + len {
        return layouts::refuse(layouts::BAD_TEXT, to);
    }
    layouts::refuse(layouts::CUT_SHORT, start + len)
}

// A series of strings, with n entries before it: where it ends, and the entries then.
pub fn judge_series(
    s: &[u8],
    from: usize,
    role: u8,
    pend: u64,
    extra: u64,
    left: u64,
    slots: usize,
    n: usize,
    window: &mut [u64; 16],
) -> Result<Series, Refusal>
    ensures law { Takes s.now slots from (series (role_of role) pend extra left) window.old n window.new result }
    ensures on { SeriesFrom from result }
{
    let mut at = from;
    let mut p = pend;
    let mut l = left;
    let mut entries = n;
    while let Some(more) = walk_strings::after_next(p, extra, l) {
        let t = judge_text(s, at, role, slots, entries, window)?;
        at = t.at;
        entries = t.entries;
        p = more.pend;
        l = more.left;
    }
    Ok(Series { at, entries })
}

// One string.
pub fn judge_text(
    s: &[u8],
    at: usize,
    role: u8,
    slots: usize,
    n: usize,
    window: &mut [u64; 16],
) -> Result<Series, Refusal>
    ensures law { Takes s.now slots at (say (role_of role)) window.old n window.new result }
    ensures on { SeriesTook s.now at result }
{
    match pieces::text_at(s, at)? {
        Text::Half { start, len } => Err(half_string(s, role, start, len)),
        Text::Whole { start, len, next } => {
            let entries = take_text(s, slots, n, role, start, len, window)?;
            Ok(Series { at: next, entries })
        }
    }
}

// A number that is dropped.
pub fn drop_number(s: &[u8], at: usize, n: usize) -> Result<Series, Refusal>
    ensures law { (slots : ℕ) (w : List ℕ) → Takes s.now slots at (λ k. ask dropped (λ v. k tt)) w n w result }
    ensures on { SeriesTook s.now at result }
{
    pieces::number_or_cut(s, at)?;
    Ok(Series {
        at: at + 8,
        entries: n,
    })
}

// A chunk, with n bytes before it: 5, or the bytes with its own.
fn take_chunk(room: usize, n: usize, start: usize, len: usize) -> Result<usize, Refusal>
    ensures { (r : Record) → r.payload ≡ n → taken (with_payload r) result ≡ chunk_taken room r start len }
{
    // of its length
    let place = start.saturating_sub(8);
    if room < n {
        return Err(layouts::refuse(layouts::NO_PAYLOAD_ROOM, place));
    }
    if room - n < len {
        return Err(layouts::refuse(layouts::NO_PAYLOAD_ROOM, place));
    }
    Ok(n + len)
}

// Chunks up to the empty one, with n bytes of payload before them: where they end, and the bytes then.
pub fn judge_frames(s: &[u8], from: usize, room: usize, n: usize) -> Result<Series, Refusal>
    ensures law { TakesFrames s.now room from n result }
    ensures on { SeriesTook s.now from result }
{
    let mut at = from;
    let mut total = n;
    loop {
        match pieces::chunk_at(s, at)? {
            Chunk::Last(next) => {
                return Ok(Series {
                    at: next,
                    entries: total,
                });
            }
            Chunk::Part { start, len, next } => {
                total = take_chunk(room, total, start, len)?;
                at = next;
            }
        }
    }
}

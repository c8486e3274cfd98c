#![tactic(auto)]
// Filling: what the pieces of a layout report goes into lent memory, the entries and the payload, in one fold over items. It only copies: lengths, text and room
// were judged before, and nothing is refused here. All that it asks of a piece is whether the stream has it. Of a layout that was not judged it fills in what
// stands before the first piece that is not there. Entries stand in their room as numbers or as bytes. What lies past the end of a room falls away.
ghost use Rattle.std.specs.Prelude.{◌≡◌, [], ◌+◌, ◌≤◌, length, take, drop, leb};
ghost use Rattle.std.proofs.lemmas.List.Edits.{sets};
ghost use Rattle.layouts.specs.Primitive.{number_at, pad_of};
ghost use Rattle.layouts.specs.Shape.{Target, Tree, ask, say, units};
ghost use Rattle.layouts.specs.Record.{is_kept};
ghost use Rattle.layouts.specs.Judge.{entry, entries_of, payload_of};
ghost use Rattle.table.specs.Table.{role_of};
ghost use Rattle.writers_output.specs.Numbers.{bytes_of};
ghost use Rattle.walk_items.specs.Items.{after_number};
ghost use Rattle.walk_rooms.specs.Rooms.{Put};
ghost use Rattle.walk_fill.specs.There.{run_there, pieces_there};
ghost use Rattle.walk_fill.specs.Fill.{rooms, Alike, Lists, Copies, FillsField};

use walk_items::Layout;
use walk_rooms::Room;

// Where strings end, with the place after their entries. Where one is not there, that is the stream's end, from which on nothing is.
#[derive(Drop)]
struct Listed {
    at: usize,
    place: usize,
}

// Where framed data ends, with the place after its payload.
#[derive(Drop)]
struct Copied {
    at: usize,
    place: usize,
}

// Where a field ends, with the places after its entries and after its payload.
#[derive(Drop)]
struct Filled {
    at: usize,
    place: usize,
    payload: usize,
}

// Are contents of n bytes and their padding there? Together they are a multiple of eight bytes, so one test tells, and no sum can be too large.
fn has_contents(s: &[u8], start: usize, n: u64) -> bool
    requires { start ≤ length s.now }
    ensures { result ≡ leb (start + n + pad_of n) (length s.now) }
{
    let left = s.len() - start;
    n <= (left - left % 8) as u64
}

// The entry of a string, if it is kept.
fn put_kept<T: Room>(role: u8, start: usize, len: usize, entries: &mut [T], place: usize) -> usize
    ensures { Put entries.old place (T.laid (entry (is_kept (role_of role)) start len [])) entries.new result }
{
    if role < table::KEPT {
        return place;
    }
    T::put_entry(entries, place, start, len)
}

// A string, whose length is n.
fn fill_text<T: Room>(
    s: &[u8],
    at: usize,
    n: u64,
    role: u8,
    entries: &mut [T],
    place: usize,
) -> Listed
    requires { (at + 8 ≤ length s.now) × (n ≡ number_at s.now at) }
    ensures law { Lists T.laid s.now at (say (role_of role)) entries.old place entries.new result }
    ensures on { at + 8 ≤ result.at }
{
    let start = at + 8;
    if has_contents(s, start, n) {
        let len = n as usize;
        return Listed {
            at: start + len + pieces::padding(len),
            place: put_kept(role, start, len, entries, place),
        };
    }
    Listed { at: s.len(), place }
}

// A series of strings: `count` times `extra` + 1 of them.
fn fill_series<T: Room>(
    s: &[u8],
    from: usize,
    role: u8,
    extra: u64,
    count: u64,
    entries: &mut [T],
    place: usize,
) -> Listed
    requires { from ≤ length s.now }
    ensures law { Lists T.laid s.now from (units (role_of role) extra count) entries.old place entries.new result }
    ensures on { from ≤ result.at }
{
    let mut at = from;
    let mut p: u64 = 0;
    let mut l = count;
    let mut e = place;
    while let Some(more) = walk_strings::after_next(p, extra, l) {
        let Some(n) = pieces::number_at(s, at) else {
            return Listed {
                at: s.len(),
                place: e,
            };
        };
        let t = fill_text(s, at, n, role, entries, e);
        at = t.at;
        e = t.place;
        p = more.pend;
        l = more.left;
    }
    Listed { at, place: e }
}

// The place after a number.
fn past_number(s: &[u8], at: usize) -> usize
    requires { at ≤ length s.now }
    ensures law { (i : Target) (k : Unit {0} → Tree) → Alike s.now (run_there (ask i (λ v. k tt)) s.now at) (run_there (k tt) s.now result) }
    ensures on { at ≤ result }
{
    match pieces::number_at(s, at) {
        None => s.len(),
        Some(_) => at + 8,
    }
}

// What follows the number n of a field.
fn fill_after<T: Room>(
    s: &[u8],
    at: usize,
    kind: u8,
    role: u8,
    n: u64,
    entries: &mut [T],
    place: usize,
) -> Listed
    requires { at ≤ length s.now }
    ensures law { Lists T.laid s.now at (after_number kind role n) entries.old place entries.new result }
    ensures on { at ≤ result.at }
{
    if kind == table::SET {
        return fill_series(s, at, role, 0, n, entries, place);
    }
    if kind == table::PAIRS {
        return fill_series(s, at, role, 1, n, entries, place);
    }
    if kind == table::MAYBE {
        if n == 0 {
            return Listed { at, place };
        }
        return Listed {
            at: past_number(s, at),
            place,
        };
    }
    if kind == table::TYPED {
        if n == 0 {
            return Listed {
                at: past_number(s, at),
                place,
            };
        }
        return fill_series(s, at, table::PASSED, 0, 1, entries, place);
    }
    if kind == table::POSITION {
        if n == 0 {
            return Listed { at, place };
        }
        return Listed { at: s.len(), place };
    }
    Listed { at, place }
}

// A chunk of the stream, into the room from where the last one stopped, and the place after it.
fn put_chunk(s: &[u8], start: usize, len: usize, out: &mut [u8], filled: usize) -> usize
    requires { start + len ≤ length s.now }
    ensures { Put out.old filled (take len (drop start s.now)) out.new result }
{
    let end = start + len;
    walk_rooms::put_bytes(out, filled, &s[start..end])
}

// The payload of framed data, whose first length is n: each chunk from where the last one stopped.
fn copy_frames(s: &[u8], from: usize, n: u64, payload: &mut [u8], place: usize) -> Copied
    requires { (from + 8 ≤ length s.now) × (n ≡ number_at s.now from) }
    ensures law { Copies s.now from payload.old place payload.new result }
    ensures on { from + 8 ≤ result.at }
{
    let mut at = from;
    let mut size = n;
    let mut filled = place;
    loop {
        let start = at + 8;
        if size == 0 {
            return Copied {
                at: start,
                place: filled,
            };
        }
        if ((s.len() - start) as u64) < size {
            return Copied {
                at: s.len(),
                place: filled,
            };
        }
        let len = size as usize;
        filled = put_chunk(s, start, len, payload, filled);
        at = start + len;
        let Some(next) = pieces::number_at(s, at) else {
            return Copied {
                at: s.len(),
                place: filled,
            };
        };
        size = next;
    }
}

// A field that begins with the number n.
fn fill_field<T: Room>(
    s: &[u8],
    at: usize,
    n: u64,
    kind: u8,
    role: u8,
    entries: &mut [T],
    place: usize,
    payload: &mut [u8],
    filled: usize,
) -> Filled
    requires { (at + 8 ≤ length s.now) × (n ≡ number_at s.now at) }
    ensures law { FillsField T.laid s.now at kind role (rooms entries.old place payload.old filled)
        entries.new payload.new result }
    ensures on { at + 8 ≤ result.at }
{
    if kind == table::FRAMES {
        let c = copy_frames(s, at, n, payload, filled);
        return Filled {
            at: c.at,
            place,
            payload: c.place,
        };
    }
    if kind == table::STR {
        let t = fill_text(s, at, n, role, entries, place);
        return Filled {
            at: t.at,
            place: t.place,
            payload: filled,
        };
    }
    let r = fill_after(s, at + 8, kind, role, n, entries, place);
    Filled {
        at: r.at,
        place: r.place,
        payload: filled,
    }
}

// What the layout reports that begins at a place of the stream: entries from a place of their room on, the payload at the start of its room.
pub fn fill<T: Room>(
    s: &[u8],
    from: usize,
    layout: Layout,
    entries: &mut [T],
    place: usize,
    payload: &mut [u8],
) -> usize
    ensures entries { Put entries.old place (T.laid (entries_of (pieces_there layout s.now from))) entries.new result }
    ensures payload { payload.new ≡ sets payload.old 0 (payload_of s.now (pieces_there layout s.now from)) }
{
    let f = walk_items::begin(layout);
    let mut at = from;
    let mut pc = f.pc;
    let mut reps = f.reps;
    let mut body = f.body;
    let mut group = f.group;
    let mut e = place;
    let mut p: usize = 0;
    loop {
        let f = walk_items::next(layout, pc, reps, body, group);
        pc = f.pc;
        reps = f.reps;
        body = f.body;
        group = f.group;
        if f.kind == table::END {
            return e;
        }
        if f.kind != walk_items::QUIET {
            let Some(n) = pieces::number_at(s, at) else {
                return e;
            };
            if walk_items::QUIET < f.kind {
                at = at + 8;
                reps = walk_items::times(f.kind, n);
            } else {
                let k = fill_field(s, at, n, f.kind, f.role, entries, e, payload, p);
                at = k.at;
                e = k.place;
                p = k.payload;
            }
        }
    }
}

// The entries alone.
pub fn fill_entries<T: Room>(
    s: &[u8],
    from: usize,
    layout: Layout,
    entries: &mut [T],
    place: usize,
) -> usize
    ensures { Put entries.old place (T.laid (entries_of (pieces_there layout s.now from))) entries.new result }
{
    let mut none: [u8; 0] = [];
    fill(s, from, layout, entries, place, &mut none)
}

// The payload alone. With bytes for entries it is the one fold that the exported calls have.
pub fn fill_payload(s: &[u8], from: usize, layout: Layout, payload: &mut [u8])
    ensures { payload.new ≡ sets payload.old 0 (payload_of s.now (pieces_there layout s.now from)) }
{
    let mut none: [u8; 0] = [];
    fill(s, from, layout, &mut none, 0, payload);
}

// The places after the entries, in a room of numbers and in one of bytes.
#[derive(Drop)]
pub struct Places {
    pub words: usize,
    pub bytes: usize,
}

// The same as `fill` into a room of numbers and one of bytes.
pub fn fill_in_both(
    s: &[u8],
    from: usize,
    layout: Layout,
    words: &mut [u64],
    word: usize,
    bytes: &mut [u8],
    byte: usize,
    payload: &mut [u8],
) -> Places
    ensures words { Put words.old word (entries_of (pieces_there layout s.now from)) words.new result.words }
    ensures bytes { Put bytes.old byte (bytes_of (entries_of (pieces_there layout s.now from))) bytes.new result.bytes }
    ensures payload { payload.new ≡ sets payload.old 0 (payload_of s.now (pieces_there layout s.now from)) }
{
    Places {
        words: fill(s, from, layout, words, word, payload),
        bytes: fill_entries(s, from, layout, bytes, byte),
    }
}

// The entries alone into a room of numbers and one of bytes.
pub fn fill_entries_in_both(
    s: &[u8],
    from: usize,
    layout: Layout,
    words: &mut [u64],
    word: usize,
    bytes: &mut [u8],
    byte: usize,
) -> Places
    ensures words { Put words.old word (entries_of (pieces_there layout s.now from)) words.new result.words }
    ensures bytes { Put bytes.old byte (bytes_of (entries_of (pieces_there layout s.now from))) bytes.new result.bytes }
{
    let mut none: [u8; 0] = [];
    fill_in_both(s, from, layout, words, word, bytes, byte, &mut none)
}

#![tactic(auto)]
// The readers of nix-wire's wire_async.rs, under its names and in its order. A cursor by value stands for the place in the stream: each method
// answers what it read with the next cursor, or the refusal with its place. A cursor past the end is refused like any stream that is cut short.
ghost use Rattle.std.specs.Prelude.{◌≡◌, length};
ghost use Rattle.layouts.specs.Judge.{lent_after};
ghost use Rattle.layouts.specs.Calls.{read_number, read_u32, peek_number, skip_string, read_string_set, skip_string_set, read_framed, skip_framed};
ghost use Rattle.layouts.specs.Demands.{Held};
ghost use Rattle.wire.specs.Answers.{number_read, count_read, total_read, peeked, spanned, skipped_to, read_bytes, read_text, framed_payload, set_filled, set_read, set_read_bytes};
ghost use Rattle.pieces.specs.Pieces.{string_at};

use layouts::Refusal;
use walk_rooms::Room;

#[derive(Clone, Copy)]
pub struct Cursor {
    pub at: usize,
}

// A number: the one that stands there, a count or a total.
#[derive(Clone, Copy)]
pub struct Read {
    pub value: u64,
    pub next: Cursor,
}

// A string, by start and length of its contents in the stream.
#[derive(Clone, Copy)]
pub struct Spanned {
    pub start: usize,
    pub len: usize,
    pub next: Cursor,
}

// A string, with the cursor after it.
fn string_at(s: &[u8], at: usize, decoded: bool) -> Result<Spanned, Refusal>
    ensures { spanned result ≡ string_at s.now decoded at }
{
    let c = pieces::string_at(s, at, decoded)?;
    Ok(Spanned {
        start: c.start,
        len: c.len,
        next: Cursor { at: c.next },
    })
}

// A set's count and its strings, with so many slots for entries.
fn judge_set(s: &[u8], at: usize, slots: usize) -> Result<Read, Refusal>
    ensures { count_read result ≡ read_string_set s.now at slots }
{
    let value = pieces::number_or_cut(s, at)?;
    let first = at + 8;
    let mut window = [0u64; 16];
    let t = walk_take::judge_series(s, first, table::KEPT, 0, 0, value, slots, 0, &mut window)?;
    Ok(Read {
        value,
        next: Cursor { at: t.at },
    })
}

// A set, with entries as numbers or as bytes. All is judged before entries are written: a refusal changes nothing.
fn read_set<T: Room>(s: &[u8], at: usize, entries: &mut [T]) -> Result<Read, Refusal>
    ensures answer { count_read result ≡ (set_filled T.laid s.now at (T.slots entries.old) entries.old).answer }
    ensures entries { entries.new ≡ (set_filled T.laid s.now at (T.slots entries.old) entries.old).entries }
{
    let k = judge_set(s, at, T::slots(entries))?;
    let layout = walk_items::layout(0, 0, table::STRING_SET);
    walk_fill::fill_entries(s, at, layout, entries, 0);
    Ok(k)
}

// The chunks up to the empty one, and their total, with so much room for payload.
fn judge_framed(s: &[u8], at: usize, room: usize) -> Result<Read, Refusal>
    ensures { total_read result ≡ read_framed s.now at room }
{
    let t = walk_take::judge_frames(s, at, room, 0)?;
    Ok(Read {
        value: t.entries as u64,
        next: Cursor { at: t.at },
    })
}

impl Cursor {
    pub fn read_u64(self, s: &[u8]) -> Result<Read, Refusal>
        ensures { number_read result ≡ read_number s.now self.at }
    {
        let value = pieces::number_or_cut(s, self.at)?;
        Ok(Read {
            value,
            next: Cursor { at: self.at + 8 },
        })
    }

    // A u32 answers as a number too: it has the same meaning.
    pub fn read_u32(self, s: &[u8]) -> Result<Read, Refusal>
        ensures { number_read result ≡ read_u32 s.now self.at }
    {
        let Some(value) = pieces::four_at(s, self.at) else {
            return Err(layouts::refuse(layouts::CUT_SHORT, self.at));
        };
        Ok(Read {
            value,
            next: Cursor { at: self.at + 4 },
        })
    }

    // Nothing is consumed: the stderr loop looks at a number before it takes it.
    pub fn peek_u64(self, s: &[u8]) -> Option<u64>
        ensures { peeked result ≡ peek_number s.now self.at }
    {
        pieces::number_at(s, self.at)
    }

    pub fn read_bytes(self, s: &[u8]) -> Result<Spanned, Refusal>
        ensures answer { spanned result ≡ read_bytes s.now self.at }
        ensures held { Held s.now }
    {
        string_at(s, self.at, false)
    }

    pub fn read_string(self, s: &[u8]) -> Result<Spanned, Refusal>
        ensures answer { spanned result ≡ read_text s.now self.at }
        ensures held { Held s.now }
    {
        string_at(s, self.at, true)
    }

    // No text is looked at.
    pub fn skip_string(self, s: &[u8]) -> Result<Cursor, Refusal>
        ensures { skipped_to result ≡ skip_string s.now self.at }
    {
        let k = string_at(s, self.at, false)?;
        Ok(k.next)
    }

    // Answers the count; start and length of each string stand in the room.
    pub fn read_string_set(self, s: &[u8], entries: &mut [u64]) -> Result<Read, Refusal>
        ensures answer { count_read result ≡ (set_read s.now self.at entries.old).answer }
        ensures room { entries.new ≡ (set_read s.now self.at entries.old).entries }
        ensures held { Held s.now }
    {
        read_set(s, self.at, entries)
    }

    // The same with entries of sixteen bytes.
    pub fn read_string_set_bytes(self, s: &[u8], entries: &mut [u8]) -> Result<Read, Refusal>
        ensures answer { count_read result ≡ (set_read_bytes s.now self.at entries.old).answer }
        ensures room { entries.new ≡ (set_read_bytes s.now self.at entries.old).entries }
        ensures held { Held s.now }
    {
        read_set(s, self.at, entries)
    }

    // Answers the count.
    pub fn skip_string_set(self, s: &[u8]) -> Result<Read, Refusal>
        ensures { number_read result ≡ skip_string_set s.now self.at }
    {
        let value = pieces::number_or_cut(s, self.at)?;
        let next = walk_strings::pass(s, self.at + 8, 0, 0, value)?;
        Ok(Read {
            value,
            next: Cursor { at: next },
        })
    }

    // Answers the payload's length; the chunks, joined, stand in the room. All is judged before anything is written.
    pub fn read_framed(self, s: &[u8], out: &mut [u8]) -> Result<Read, Refusal>
        ensures answer { total_read result ≡ read_framed s.now self.at (length out.old) }
        ensures room { out.new ≡ lent_after (read_framed s.now self.at (length out.old)) (framed_payload s.now self.at) out.old }
    {
        let k = judge_framed(s, self.at, out.len())?;
        let layout = walk_items::layout(0, 0, table::FRAMED_DATA);
        walk_fill::fill_payload(s, self.at, layout, out);
        Ok(k)
    }

    // Answers the payload's length. The stream itself is room enough for all its chunks.
    pub fn skip_framed(self, s: &[u8]) -> Result<Read, Refusal>
        ensures { number_read result ≡ skip_framed s.now self.at }
    {
        judge_framed(s, self.at, s.len())
    }
}

#![tactic(auto)]
// One piece at a place of a stream: a number, a string, a chunk. A part is handed on only after a test that the stream has it, so no place is too large.
ghost use Rattle.std.specs.Prelude.{◌≡◌, ◌+◌, ◌<◌, ◌≤◌, length, IfOk, IfErr};
ghost use Rattle.layouts.specs.Primitive.{number_at, pad_of, cut_short};
ghost use Rattle.layouts.specs.Refusal.{plain};
ghost use Rattle.layouts.specs.Pieces.{text_of, chunk_of};
ghost use Rattle.layouts.specs.Calls.{peek_number};
ghost use Rattle.pieces.specs.Pieces.{num_read, word_at, text_found, chunk_found, judged_read, role_of, text_to, string_at};

use layouts::Refusal;

pub const MAX_WIRE_STRING_LEN: u64 = 268435456;

// A string whose contents are whole and whose padding is not is a case of its own: its text is judged before its padding.
#[derive(Clone, Copy)]
pub enum Text {
    Whole {
        start: usize,
        len: usize,
        next: usize,
    },
    Half {
        start: usize,
        len: usize,
    },
}

// A string that was judged, by start and length of its contents and the place after it.
#[derive(Clone, Copy)]
pub struct Contents {
    pub start: usize,
    pub len: usize,
    pub next: usize,
}

#[derive(Clone, Copy)]
pub enum Chunk {
    Part {
        start: usize,
        len: usize,
        next: usize,
    },
    Last(usize),
}

pub fn number_at(s: &[u8], at: usize) -> Option<u64>
    ensures { num_read result ≡ peek_number s.now at }
{
    if s.len() < at {
        return None;
    }
    numbers::read(&s[at..])
}

pub fn four_at(s: &[u8], at: usize) -> Option<u64>
    ensures { num_read result ≡ word_at 4 s.now at }
{
    if at <= s.len() {
        return numbers::read_four(&s[at..]);
    }
    None
}

// The number at a place, or 1 where it is cut short.
pub fn number_or_cut(s: &[u8], at: usize) -> Result<u64, Refusal>
    ensures whole { IfOk result (λ n. (at + 8 ≤ length s.now) × (n ≡ number_at s.now at)) }
    ensures cut { IfErr result (λ r. (length s.now < at + 8) × (r ≡ plain cut_short at)) }
{
    number_at(s, at).ok_or(layouts::refuse(layouts::CUT_SHORT, at))
}

pub fn padding(len: usize) -> usize
    ensures { (result ≡ pad_of len) × (result < 8) }
{
    (8 - len % 8) % 8
}

pub fn text_at(s: &[u8], at: usize) -> Result<Text, Refusal>
    ensures { result ≡ text_found (text_of (length s.now) (number_at s.now at) at) }
{
    let n = number_or_cut(s, at)?;
    if MAX_WIRE_STRING_LEN < n {
        return Err(layouts::refuse(layouts::TOO_LONG, at));
    }
    let len = n as usize;
    let start = at + 8;
    let left = s.len() - start;
    if left < len {
        return Err(layouts::refuse(layouts::CUT_SHORT, start));
    }
    let pad = padding(len);
    if left - len < pad {
        return Ok(Text::Half { start, len });
    }
    let next = start + len + pad;
    Ok(Text::Whole { start, len, next })
}

pub fn chunk_at(s: &[u8], at: usize) -> Result<Chunk, Refusal>
    ensures { result ≡ chunk_found (chunk_of (length s.now) (number_at s.now at) at) }
{
    let n = number_or_cut(s, at)?;
    let start = at + 8;
    if n == 0 {
        return Ok(Chunk::Last(start));
    }
    if MAX_WIRE_STRING_LEN < n {
        return Err(layouts::refuse(layouts::TOO_LONG, at));
    }
    let len = n as usize;
    if s.len() - start < len {
        return Err(layouts::refuse(layouts::CUT_SHORT, start));
    }
    let next = start + len;
    Ok(Chunk::Part { start, len, next })
}

// Where the text of a string ends: with its contents, or earlier. Only a string that is decoded has its text judged.
fn text_to(s: &[u8], start: usize, len: usize, decoded: bool) -> usize
    requires { start + len ≤ length s.now }
    ensures { result ≡ text_to s.now (role_of decoded) start len }
{
    let end = start + len;
    if decoded {
        return start + text::text_end(&s[start..end]);
    }
    end
}

// A string with its text judged where it is decoded: before the padding, after the contents.
pub fn string_at(s: &[u8], at: usize, decoded: bool) -> Result<Contents, Refusal>
    ensures { judged_read result ≡ string_at s.now decoded at }
{
    match text_at(s, at)? {
        Text::Whole { start, len, next } => {
            let to = text_to(s, start, len, decoded);
            if to < start + len {
                return Err(layouts::refuse(layouts::BAD_TEXT, to));
            }
            Ok(Contents { start, len, next })
        }
        Text::Half { start, len } => {
            let to = text_to(s, start, len, decoded);
            if to < start + len {
                return Err(layouts::refuse(layouts::BAD_TEXT, to));
            }
            Err(layouts::refuse(layouts::CUT_SHORT, start + len))
        }
    }
}

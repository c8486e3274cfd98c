// Shapes read into a room of numbers and one of bytes, by the slots of both.
ghost use Rattle.std.specs.Prelude.{◌≡◌, ℕ};
ghost use Rattle.entries.specs.Entries.{slots_in_both};
ghost use Rattle.layouts.specs.Judge.{entries_of};
ghost use Rattle.layouts.specs.Primitive.{version};
ghost use Rattle.layouts.specs.Calls.{context};
ghost use Rattle.walk_judge.specs.Judged.{answer_of};
ghost use Rattle.walk_rooms.specs.Rooms.{filled_after};
ghost use Rattle.writers_output.specs.Numbers.{bytes_of};
ghost use Rattle.walk_shapes.specs.Shapes.{text_read, text_pieces, text_told, arguments_filled, reply_filled};

use crate::InBrief;
use layouts::{Mode, Refusal};
use walk_judge::Said;
use walk_rooms::Room;

// As `take_text`: the entry goes into both rooms.
fn take_text_in_both(s: &[u8], words: &mut [u64], bytes: &mut [u8]) -> Result<usize, Refusal>
    ensures answer { (room : ℕ) → text_told result ≡ text_read s.now (slots_in_both words.old bytes.old) room }
    ensures words { words.new ≡ filled_after (text_told result) (entries_of (text_pieces s.now)) words.old }
    ensures bytes { bytes.new ≡ filled_after (text_told result) (bytes_of (entries_of (text_pieces s.now))) bytes.old }
{
    let c = pieces::string_at(s, 0, true)?;
    if entries::slots(words, bytes) == 0 {
        return Err(layouts::refuse(layouts::NO_ENTRY_ROOM, 0));
    }
    u64::put_entry(words, 0, c.start, c.len);
    u8::put_entry(bytes, 0, c.start, c.len);
    Ok(c.next)
}

// As `read_arguments`.
pub fn read_arguments_in_both(
    mode: Mode,
    op: u64,
    major: u16,
    minor: u8,
    s: &[u8],
    words: &mut [u64],
    bytes: &mut [u8],
    payload: &mut [u8],
    numbers: &mut [u64; 12],
    counts: &mut [u64; 3],
) -> Result<Said, Refusal>
    ensures answer { answer_of result numbers.new counts.new
        ≡ (arguments_filled (λ ns. ns) (slots_in_both words.old bytes.old) (context mode op major minor) s.now words.old payload.old).answer }
    ensures words { words.new ≡ (arguments_filled (λ ns. ns) (slots_in_both words.old bytes.old) (context mode op major minor) s.now words.old payload.old).entries }
    ensures bytes { bytes.new ≡ (arguments_filled bytes_of (slots_in_both words.old bytes.old) (context mode op major minor) s.now bytes.old payload.old).entries }
    ensures payload { payload.new ≡ (arguments_filled (λ ns. ns) (slots_in_both words.old bytes.old) (context mode op major minor) s.now words.old payload.old).payload }
{
    let Some(shape) = table_operations::arguments(mode, op) else {
        return walk_judge::refuse(
            layouts::refuse(layouts::UNKNOWN_OPERATION, 0),
            numbers,
            counts,
        );
    };
    let layout = walk_items::layout(major, minor, shape.first);
    let code = shape.kind;
    match crate::read_brief(s, layout, code, numbers, counts) {
        InBrief::Said(said) => said,
        InBrief::Text => {
            let t = take_text_in_both(s, words, bytes);
            crate::text_said(t, code, numbers, counts)
        }
        InBrief::Longer => {
            walk_read::read_in_both(s, layout, code, words, bytes, payload, numbers, counts)
        }
    }
}

// As `read_reply`.
pub fn read_reply_in_both(
    op: u64,
    major: u16,
    minor: u8,
    s: &[u8],
    words: &mut [u64],
    bytes: &mut [u8],
    payload: &mut [u8],
    numbers: &mut [u64; 12],
    counts: &mut [u64; 3],
) -> Result<Said, Refusal>
    ensures answer { answer_of result numbers.new counts.new
        ≡ (reply_filled (λ ns. ns) (slots_in_both words.old bytes.old) op (version major minor) s.now words.old payload.old).answer }
    ensures words { words.new ≡ (reply_filled (λ ns. ns) (slots_in_both words.old bytes.old) op (version major minor) s.now words.old payload.old).entries }
    ensures bytes { bytes.new ≡ (reply_filled bytes_of (slots_in_both words.old bytes.old) op (version major minor) s.now bytes.old payload.old).entries }
    ensures payload { payload.new ≡ (reply_filled (λ ns. ns) (slots_in_both words.old bytes.old) op (version major minor) s.now words.old payload.old).payload }
{
    let Some(shape) = table_operations::reply(op) else {
        return walk_judge::refuse(
            layouts::refuse(layouts::UNKNOWN_OPERATION, 0),
            numbers,
            counts,
        );
    };
    let layout = walk_items::layout(major, minor, shape.first);
    let code = shape.kind;
    match crate::read_brief(s, layout, code, numbers, counts) {
        InBrief::Said(said) => said,
        InBrief::Text => {
            let t = take_text_in_both(s, words, bytes);
            crate::text_said(t, code, numbers, counts)
        }
        InBrief::Longer => {
            walk_read::read_in_both(s, layout, code, words, bytes, payload, numbers, counts)
        }
    }
}

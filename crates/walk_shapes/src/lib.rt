#![tactic(auto)]
// A shape of an operation, read from the start of the stream: a layout in brief, or judged and filled in.
mod both;

ghost use Rattle.std.specs.Prelude.{◌≡◌, List, ℕ, ◌<◌};
ghost use Rattle.layouts.specs.Judge.{entries_of};
ghost use Rattle.layouts.specs.Primitive.{Version, version};
ghost use Rattle.layouts.specs.Calls.{context};
ghost use Rattle.table.specs.Packed.{first_code};
ghost use Rattle.walk_items.specs.Items.{version_of, layout_tree, Briefly};
ghost use Rattle.walk_items.specs.declared.Brief.TheVariants as B;
ghost use Rattle.walk_judge.specs.Judged.{answer_of, answer_as};
ghost use Rattle.walk_read.specs.Reading.{read_by, answered_as};
ghost use Rattle.walk_rooms.specs.Rooms.{filled_after};
ghost use Rattle.walk_shapes.specs.Shapes.{ReadInBrief, text_read, text_pieces, text_told, arguments_filled, reply_filled};

pub use both::{read_arguments_in_both, read_reply_in_both};
use layouts::{Mode, Refusal};
use walk_items::{Brief, Layout};
use walk_judge::Said;
use walk_rooms::Room;

// A layout without fields: no fold is needed.
fn read_nothing(
    layout: Layout,
    code: u8,
    numbers: &mut [u64; 12],
    counts: &mut [u64; 3],
) -> Result<Said, Refusal>
    requires { Briefly (layout_tree layout) B.Nothing × code < first_code }
    ensures { (s : List ℕ) (slots room : ℕ) → answer_of result numbers.new counts.new ≡ answer_as (answered_as (version_of layout) code (read_by layout s slots room)) }
{
    *numbers = [0u64; 12];
    *counts = [0u64; 3];
    Ok(Said {
        kind: code as u64,
        ends: 0,
        ends2: 0,
        entries: 0,
        payload: 0,
        present: false,
    })
}

// A layout of one number.
fn read_number(
    s: &[u8],
    layout: Layout,
    code: u8,
    numbers: &mut [u64; 12],
    counts: &mut [u64; 3],
) -> Result<Said, Refusal>
    requires { Briefly (layout_tree layout) B.Number × code < first_code }
    ensures { (slots room : ℕ) → answer_of result numbers.new counts.new ≡ answer_as (answered_as (version_of layout) code (read_by layout s.now slots room)) }
{
    *numbers = [0u64; 12];
    *counts = [0u64; 3];
    let x = pieces::number_or_cut(s, 0)?;
    numbers[0] = x;
    Ok(Said {
        kind: code as u64,
        ends: 8,
        ends2: 0,
        entries: 0,
        payload: 0,
        present: false,
    })
}

// A layout of one string: its entry goes into the room, and where it ends is answered.
fn take_text<T: Room>(s: &[u8], entries: &mut [T]) -> Result<usize, Refusal>
    ensures answer { (room : ℕ) → text_told result ≡ text_read s.now (T.slots entries.old) room }
    ensures entries { entries.new ≡ filled_after (text_told result) (T.laid (entries_of (text_pieces s.now))) entries.old }
{
    let c = pieces::string_at(s, 0, true)?;
    if T::slots(entries) == 0 {
        return Err(layouts::refuse(layouts::NO_ENTRY_ROOM, 0));
    }
    T::put_entry(entries, 0, c.start, c.len);
    Ok(c.next)
}

// What is said of it, where nothing decides its kind.
fn text_said(
    t: Result<usize, Refusal>,
    code: u8,
    numbers: &mut [u64; 12],
    counts: &mut [u64; 3],
) -> Result<Said, Refusal>
    requires { code < first_code }
    ensures { (v : Version) → answer_of result numbers.new counts.new ≡ answer_as (answered_as v code (text_told t)) }
{
    *numbers = [0u64; 12];
    *counts = [0u64; 3];
    Ok(Said {
        kind: code as u64,
        ends: t?,
        ends2: 0,
        entries: 1,
        payload: 0,
        present: false,
    })
}

// What a layout says that needs no fold, and whose kind nothing decides: with `kind_of` in it `read_brief` would stay out of line, and brief calls would take
// four times as long. What is brief is asked first: so LLVM knows it by the operation.
#[derive(Drop)]
enum InBrief {
    Said(Result<Said, Refusal>),
    Text,
    Longer,
}

fn read_brief(
    s: &[u8],
    layout: Layout,
    code: u8,
    numbers: &mut [u64; 12],
    counts: &mut [u64; 3],
) -> InBrief
    ensures { ReadInBrief layout code s.now numbers.new counts.new result }
{
    let b = walk_items::in_brief(layout);
    match b {
        Brief::Nothing => {
            if code < table::kinds::FIRST_CODE {
                return InBrief::Said(read_nothing(layout, code, numbers, counts));
            }
            InBrief::Longer
        }
        Brief::Number => {
            if code < table::kinds::FIRST_CODE {
                return InBrief::Said(read_number(s, layout, code, numbers, counts));
            }
            InBrief::Longer
        }
        Brief::Text => {
            if code < table::kinds::FIRST_CODE {
                return InBrief::Text;
            }
            InBrief::Longer
        }
        Brief::Longer => InBrief::Longer,
    }
}

// An unknown operation is refused before any byte. `read_reply` has the same lines: with one caller each, LLVM puts both into the exported functions.
pub fn read_arguments<T: Room>(
    mode: Mode,
    op: u64,
    major: u16,
    minor: u8,
    s: &[u8],
    entries: &mut [T],
    payload: &mut [u8],
    numbers: &mut [u64; 12],
    counts: &mut [u64; 3],
) -> Result<Said, Refusal>
    ensures answer { answer_of result numbers.new counts.new
        ≡ (arguments_filled T.laid (T.slots entries.old) (context mode op major minor) s.now entries.old payload.old).answer }
    ensures entries { entries.new ≡ (arguments_filled T.laid (T.slots entries.old) (context mode op major minor) s.now entries.old payload.old).entries }
    ensures payload { payload.new ≡ (arguments_filled T.laid (T.slots entries.old) (context mode op major minor) s.now entries.old payload.old).payload }
{
    let Some(shape) = table_operations::arguments(mode, op) else {
        return walk_judge::refuse(
            layouts::refuse(layouts::UNKNOWN_OPERATION, 0),
            numbers,
            counts,
        );
    };
    let layout = walk_items::layout(major, minor, shape.first);
    let code = shape.kind;
    match read_brief(s, layout, code, numbers, counts) {
        InBrief::Said(said) => said,
        InBrief::Text => {
            let t = take_text(s, entries);
            text_said(t, code, numbers, counts)
        }
        InBrief::Longer => walk_read::read(s, layout, code, entries, payload, numbers, counts),
    }
}

pub fn read_reply<T: Room>(
    op: u64,
    major: u16,
    minor: u8,
    s: &[u8],
    entries: &mut [T],
    payload: &mut [u8],
    numbers: &mut [u64; 12],
    counts: &mut [u64; 3],
) -> Result<Said, Refusal>
    ensures answer { answer_of result numbers.new counts.new
        ≡ (reply_filled T.laid (T.slots entries.old) op (version major minor) s.now entries.old payload.old).answer }
    ensures entries { entries.new ≡ (reply_filled T.laid (T.slots entries.old) op (version major minor) s.now entries.old payload.old).entries }
    ensures payload { payload.new ≡ (reply_filled T.laid (T.slots entries.old) op (version major minor) s.now entries.old payload.old).payload }
{
    let Some(shape) = table_operations::reply(op) else {
        return walk_judge::refuse(
            layouts::refuse(layouts::UNKNOWN_OPERATION, 0),
            numbers,
            counts,
        );
    };
    let layout = walk_items::layout(major, minor, shape.first);
    let code = shape.kind;
    match read_brief(s, layout, code, numbers, counts) {
        InBrief::Said(said) => said,
        InBrief::Text => {
            let t = take_text(s, entries);
            text_said(t, code, numbers, counts)
        }
        InBrief::Longer => walk_read::read(s, layout, code, entries, payload, numbers, counts),
    }
}

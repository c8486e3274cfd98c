#![tactic(auto)]
// A layout from the start of the stream, by the row of an operation: judged first, without a write to the rooms, and only then filled in, so a refusal changes
// no lent memory.
ghost use Rattle.std.specs.Prelude.{◌≡◌};
ghost use Rattle.std.proofs.lemmas.List.Edits.{sets};
ghost use Rattle.layouts.specs.Judge.{entries_of, payload_of};
ghost use Rattle.entries.specs.Entries.{slots_in_both};
ghost use Rattle.writers_output.specs.Numbers.{bytes_of};
ghost use Rattle.walk_items.specs.Items.{pieces_of};
ghost use Rattle.walk_judge.specs.Judged.{answer_of};
ghost use Rattle.walk_read.specs.Reading.{Planned, layout_filled};

use layouts::Refusal;
use walk_items::Layout;
use walk_judge::Said;
use walk_rooms::Room;

// Where the window has all entries, and there is no payload, the layout is not gone through again.
fn fill_in<T: Room>(
    s: &[u8],
    layout: Layout,
    count: usize,
    total: usize,
    window: &[u64; 16],
    entries: &mut [T],
    payload: &mut [u8],
)
    requires { Planned window.now count total s.now layout }
    ensures entries { entries.new ≡ sets entries.old 0 (T.laid (entries_of (pieces_of layout s.now 0))) }
    ensures payload { payload.new ≡ sets payload.old 0 (payload_of s.now (pieces_of layout s.now 0)) }
{
    if (0 < total) | (walk_take::WINDOW < count) {
        walk_fill::fill(s, 0, layout, entries, 0, payload);
        return;
    }
    walk_rooms::put_window(window, count, entries);
}

// The kind of the answer is by its code. What does not fit into a room falls away.
pub fn read<T: Room>(
    s: &[u8],
    layout: Layout,
    code: u8,
    entries: &mut [T],
    payload: &mut [u8],
    numbers: &mut [u64; 12],
    counts: &mut [u64; 3],
) -> Result<Said, Refusal>
    ensures answer { answer_of result numbers.new counts.new
        ≡ (layout_filled T.laid (T.slots entries.old) layout code s.now entries.old payload.old).answer }
    ensures entries { entries.new ≡ (layout_filled T.laid (T.slots entries.old) layout code s.now entries.old payload.old).entries }
    ensures payload { payload.new ≡ (layout_filled T.laid (T.slots entries.old) layout code s.now entries.old payload.old).payload }
{
    *numbers = [0u64; 12];
    *counts = [0u64; 3];
    let mut window = [0u64; 16];
    let slots = T::slots(entries);
    let k = walk_judge::judge(
        s,
        0,
        layout,
        slots,
        payload.len(),
        0,
        0,
        false,
        numbers,
        counts,
        &mut window,
    )?;
    fill_in(s, layout, k.entries, k.payload, &window, entries, payload);
    Ok(Said {
        kind: table_operations::kind_of(code, walk_items::spoken(layout), k.present),
        ends: k.ends,
        ends2: 0,
        entries: k.entries,
        payload: k.payload,
        present: k.present,
    })
}

// The same into a room of numbers and one of bytes, by the slots of both.
pub fn read_in_both(
    s: &[u8],
    layout: Layout,
    code: u8,
    words: &mut [u64],
    bytes: &mut [u8],
    payload: &mut [u8],
    numbers: &mut [u64; 12],
    counts: &mut [u64; 3],
) -> Result<Said, Refusal>
    ensures answer { answer_of result numbers.new counts.new
        ≡ (layout_filled (λ ns. ns) (slots_in_both words.old bytes.old) layout code s.now words.old payload.old).answer }
    ensures words { words.new ≡ (layout_filled (λ ns. ns) (slots_in_both words.old bytes.old) layout code s.now words.old payload.old).entries }
    ensures bytes { bytes.new ≡ (layout_filled bytes_of (slots_in_both words.old bytes.old) layout code s.now bytes.old payload.old).entries }
    ensures payload { payload.new ≡ (layout_filled (λ ns. ns) (slots_in_both words.old bytes.old) layout code s.now words.old payload.old).payload }
{
    *numbers = [0u64; 12];
    *counts = [0u64; 3];
    let mut window = [0u64; 16];
    let mut none: [u8; 0] = [];
    let slots = entries::slots(words, bytes);
    let room = payload.len();
    let j = walk_judge::judge(
        s,
        0,
        layout,
        slots,
        room,
        0,
        0,
        false,
        numbers,
        counts,
        &mut window,
    )?;
    fill_in(s, layout, j.entries, j.payload, &window, words, payload);
    fill_in(s, layout, j.entries, j.payload, &window, bytes, &mut none);
    Ok(Said {
        kind: table_operations::kind_of(code, walk_items::spoken(layout), j.present),
        ends: j.ends,
        ends2: 0,
        entries: j.entries,
        payload: j.payload,
        present: j.present,
    })
}

#![tactic(auto)]
// The judge: a fold over items that ends in the record of a layout, or in the first refusal. It writes no lent room but that of the record's numbers. What an
// item has is judged by `walk_take`.
ghost use Rattle.std.specs.Prelude.{◌≡◌, ℕ, ◌≤◌, Err};
ghost use Rattle.layouts.specs.Refusal.{refused_by};
ghost use Rattle.layouts.specs.Shape.{truth};
ghost use Rattle.layouts.specs.Record.{blank, noted};
ghost use Rattle.layouts.specs.Judge.{entries_of};
ghost use Rattle.table.specs.Table.{target_of};
ghost use Rattle.walk_take.specs.Taking.{Takes, SeriesFrom};
ghost use Rattle.walk_judge.specs.Judged.{gathered, answer_of, answer_as, Feeds, FedTook, window_after, judged_as};
ghost use Rattle.walk_items.specs.Items.{pieces_of, target_for, after_number};

use layouts::{Record, Refusal};
use walk_items::{Item, Layout};
use walk_take::Series;

// What a call answers: its kind, where it ended on the stream (a handshake on both), and the record. On a refusal all but the outcome is blank.
#[derive(Drop)]
pub struct Answer {
    pub outcome: Result<(), Refusal>,
    pub kind: u64,
    pub ends: usize,
    pub ends2: usize,
    pub found: Record,
}

// An answer without its numbers and counts, which stand beside it; a refusal leaves none of them.
#[derive(Clone, Copy)]
pub struct Said {
    pub kind: u64,
    pub ends: usize,
    pub ends2: usize,
    pub entries: usize,
    pub payload: usize,
    pub present: bool,
}

// What an item makes of the state: where it ends, the entries and the payload then, how often the body comes again, and a number with its target.
#[derive(Clone, Copy)]
struct Fed {
    at: usize,
    entries: usize,
    payload: usize,
    reps: u64,
    target: usize,
    value: u64,
}

pub fn empty() -> Record
    ensures { result ≡ blank }
{
    Record {
        numbers: [0u64; 12],
        counts: [0u64; 3],
        present: false,
        entries: 0,
        payload: 0,
    }
}

// A refusal as a whole answer.
pub fn refused_answer(refusal: Refusal) -> Answer
    ensures { result ≡ answer_as (refused_by refusal) }
{
    Answer {
        outcome: Err(refusal),
        kind: 0,
        ends: 0,
        ends2: 0,
        found: empty(),
    }
}

fn flag(x: u64) -> u64
    ensures { result ≡ truth x }
{
    if x == 0 {
        return 0;
    }
    1
}

// What follows the number of a field. A position is refused at the number itself.
fn judge_after(
    s: &[u8],
    at: usize,
    kind: u8,
    role: u8,
    x: u64,
    slots: usize,
    n: usize,
    window: &mut [u64; 16],
) -> Result<Series, Refusal>
    requires { 8 ≤ at }
    ensures law { Takes s.now slots at (after_number kind role x) window.old n window.new result }
    ensures on { SeriesFrom at result }
{
    if kind == table::SET {
        return walk_take::judge_series(s, at, role, 0, 0, x, slots, n, window);
    }
    if kind == table::PAIRS {
        return walk_take::judge_series(s, at, role, 0, 1, x, slots, n, window);
    }
    if kind == table::MAYBE {
        if x == 0 {
            return Ok(Series { at, entries: n });
        }
        return walk_take::drop_number(s, at, n);
    }
    if kind == table::TYPED {
        if x == 0 {
            return walk_take::drop_number(s, at, n);
        }
        return walk_take::judge_text(s, at, table::PASSED, slots, n, window);
    }
    if kind == table::POSITION {
        if x == 0 {
            return Ok(Series { at, entries: n });
        }
        return Err(layouts::refuse(layouts::NONZERO_POSITION, at - 8));
    }
    Ok(Series { at, entries: n })
}

// The flag of a maybe, the type of a typed field and a position go nowhere.
fn target_for(kind: u8, target: u8) -> u8
    ensures { result ≡ target_for kind target }
{
    match kind {
        table::MAYBE => table::DROPPED,
        table::TYPED => table::DROPPED,
        table::POSITION => table::DROPPED,
        _ => target,
    }
}

// An item that begins with a number.
fn feed_number(
    s: &[u8],
    at: usize,
    f: Item,
    slots: usize,
    n: usize,
    p: usize,
    window: &mut [u64; 16],
) -> Result<Fed, Refusal>
    requires { (f.kind ≡ 0 → ⊥) × (f.kind ≡ 16 → ⊥) × (f.kind ≡ 2 → ⊥) × (f.kind ≡ 5 → ⊥) }
    ensures law { (room : ℕ) → Feeds s.now slots room at n p f window.old window.new result }
    ensures on { FedTook s.now at result }
{
    let x = pieces::number_or_cut(s, at)?;
    let kind = f.kind;
    let on = at + 8;
    if walk_items::QUIET < kind {
        return Ok(Fed {
            at: on,
            entries: n,
            payload: p,
            reps: walk_items::times(kind, x),
            target: f.target as usize,
            value: x,
        });
    }
    let k = judge_after(s, on, kind, f.role, x, slots, n, window)?;
    Ok(Fed {
        at: k.at,
        entries: k.entries,
        payload: p,
        reps: f.reps,
        target: target_for(kind, f.target) as usize,
        value: x,
    })
}

// An item that reads something, with n entries and p bytes of payload before it.
fn feed(
    s: &[u8],
    at: usize,
    f: Item,
    slots: usize,
    room: usize,
    n: usize,
    p: usize,
    window: &mut [u64; 16],
) -> Result<Fed, Refusal>
    requires { (f.kind ≡ 0 → ⊥) × (f.kind ≡ 16 → ⊥) }
    ensures law { Feeds s.now slots room at n p f window.old window.new result }
    ensures on { FedTook s.now at result }
{
    let kind = f.kind;
    if kind == table::STR {
        let k = walk_take::judge_text(s, at, f.role, slots, n, window)?;
        return Ok(Fed {
            at: k.at,
            entries: k.entries,
            payload: p,
            reps: f.reps,
            target: 0,
            value: 0,
        });
    }
    if kind == table::FRAMES {
        let k = walk_take::judge_frames(s, at, room, p)?;
        return Ok(Fed {
            at: k.at,
            entries: n,
            payload: k.entries,
            reps: f.reps,
            target: 0,
            value: 0,
        });
    }
    feed_number(s, at, f, slots, n, p, window)
}

// What is said, with the numbers and counts beside it, as one answer.
pub fn answer_of(said: Result<Said, Refusal>, numbers: [u64; 12], counts: [u64; 3]) -> Answer
    ensures { result ≡ answer_of said numbers counts }
{
    match said {
        Ok(k) => Answer {
            outcome: Ok(()),
            kind: k.kind,
            ends: k.ends,
            ends2: k.ends2,
            found: Record {
                numbers,
                counts,
                present: k.present,
                entries: k.entries,
                payload: k.payload,
            },
        },
        Err(refusal) => Answer {
            outcome: Err(refusal),
            kind: 0,
            ends: 0,
            ends2: 0,
            found: Record {
                numbers,
                counts,
                present: false,
                entries: 0,
                payload: 0,
            },
        },
    }
}

// A number into the target that the table gives it, and whether a group that a flag decides is there then.
fn note(
    numbers: &mut [u64; 12],
    counts: &mut [u64; 3],
    present: bool,
    target: usize,
    x: u64,
) -> bool
    ensures { (n p : ℕ) → gathered numbers.new counts.new result n p ≡ noted (gathered numbers.old counts.old present n p) (target_of target) x }
{
    if target == 0 {
        return present;
    }
    if target < 13 {
        numbers[target - 1] = x;
        return present;
    }
    if target < 25 {
        numbers[target - 13] = flag(x);
        return present;
    }
    if target < 28 {
        counts[target - 25] = x;
        return present;
    }
    x != 0
}

// A refusal, with numbers and counts that say nothing.
pub fn refuse(
    refusal: Refusal,
    numbers: &mut [u64; 12],
    counts: &mut [u64; 3],
) -> Result<Said, Refusal>
    ensures said { result ≡ Err refusal }
    ensures answer { answer_of result numbers.new counts.new ≡ answer_as (refused_by refusal) }
{
    *numbers = [0u64; 12];
    *counts = [0u64; 3];
    Err(refusal)
}

// The layout that begins at a place of the stream, with the record so far, whose numbers and counts are written in place. There is room for so many entries
// and payload bytes in all. The first entries go into the window, which a refusal leaves empty.
pub fn judge(
    s: &[u8],
    from: usize,
    layout: Layout,
    slots: usize,
    room: usize,
    entries: usize,
    payload: usize,
    there: bool,
    numbers: &mut [u64; 12],
    counts: &mut [u64; 3],
    window: &mut [u64; 16],
) -> Result<Said, Refusal>
    ensures answer { answer_of result numbers.new counts.new
        ≡ judged_as layout s.now from slots room (gathered numbers.old counts.old there entries payload) }
    ensures window { window.new ≡ window_after result window.old entries (entries_of (pieces_of layout s.now from)) }
{
    let f = walk_items::begin(layout);
    let mut at = from;
    let mut pc = f.pc;
    let mut reps = f.reps;
    let mut body = f.body;
    let mut group = f.group;
    let mut n = entries;
    let mut p = payload;
    let mut present = there;
    loop {
        let f = walk_items::next(layout, pc, reps, body, group);
        pc = f.pc;
        body = f.body;
        group = f.group;
        if f.kind == table::END {
            return Ok(Said {
                kind: 0,
                ends: at,
                ends2: 0,
                entries: n,
                payload: p,
                present,
            });
        }
        if f.kind == walk_items::QUIET {
            reps = f.reps;
        } else {
            match feed(s, at, f, slots, room, n, p, window) {
                Err(r) => {
                    *window = [0u64; 16];
                    return refuse(r, numbers, counts);
                }
                Ok(k) => {
                    present = note(numbers, counts, present, k.target, k.value);
                    at = k.at;
                    n = k.entries;
                    p = k.payload;
                    reps = k.reps;
                }
            }
        }
    }
}

// The same with a record by value, and a whole answer: for what is not read at every call.
pub fn judge_record(
    s: &[u8],
    from: usize,
    layout: Layout,
    slots: usize,
    room: usize,
    sofar: Record,
) -> Answer
    ensures { result ≡ judged_as layout s.now from slots room sofar }
{
    let mut numbers = sofar.numbers;
    let mut counts = sofar.counts;
    let mut window = [0u64; 16];
    let said = judge(
        s,
        from,
        layout,
        slots,
        room,
        sofar.entries,
        sofar.payload,
        sofar.present,
        &mut numbers,
        &mut counts,
        &mut window,
    );
    answer_of(said, numbers, counts)
}

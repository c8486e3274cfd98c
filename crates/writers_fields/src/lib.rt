#![tactic(auto)]
// The fields of a call that is to be written: whether the numbers are of their shape, and what they need.
ghost use Rattle.std.specs.Prelude.{◌≡◌, ◌-◌, false, length};
ghost use Rattle.layouts.specs.Primitive.{pick, refused, onward, no_such_entry, not_of_shape};
ghost use Rattle.layouts.specs.Writers.{framed_bytes};
ghost use Rattle.layouts.specs.CallWriter.{value_for, leave, left_by, all_zero, has_frames, is_of_shape, entries_for};
ghost use Rattle.table.specs.Table.{target_of};
ghost use Rattle.writers_output.specs.Answer.{meaning};
ghost use Rattle.writers_fields.specs.Fields.{fields_at, has_number, target_by, index_of, left_of, strings_after, bytes_by, bytes_after};

use walk_items::Layout;
use writers_output::Written;

// The numbers of a call: the twelve of the record, then its three counts.
pub const NUMBERS: usize = 15;

// Has an item of this kind a number of the call?
pub fn has_number(kind: u8) -> bool
    ensures { result ≡ has_number kind }
{
    (kind != table::STR)
        & (kind != table::FRAMES)
        & (kind != table::MAYBE)
        & (kind != table::TYPED)
        & (kind != table::POSITION)
        & (kind != walk_items::QUIET)
}

fn target_by(kind: u8, target: u8) -> u8
    ensures { result ≡ target_by kind target }
{
    if has_number(kind) {
        return target;
    }
    table::DROPPED
}

fn index(target: u8) -> usize
    ensures { result ≡ index_of target }
{
    if target == table::DROPPED {
        return NUMBERS;
    }
    if target < table::FIRST_FLAG {
        return (target - table::FIRST_NUMBER) as usize;
    }
    (target - table::FIRST_FLAG) as usize
}

fn number(numbers: &[u64; 15], target: u8) -> u64
    ensures { result ≡ value_for numbers.now (target_of target) }
{
    let i = index(target);
    if i < NUMBERS {
        return numbers[i];
    }
    0
}

// The number that an item is written with.
pub fn value(numbers: &[u64; 15], kind: u8, target: u8) -> u64
    ensures { result ≡ value_for numbers.now (target_of (target_by kind target)) }
{
    number(numbers, target_by(kind, target))
}

// A flag takes 0 and 1.
fn left_of(target: u8, n: u64) -> u64
    ensures { result ≡ left_of target n }
{
    if (table::FIRST_FLAG <= target) & (target < table::FIRST_COUNT) & (1 < n) {
        return n;
    }
    0
}

fn take(left: &mut [u64; 15], numbers: &[u64; 15], target: u8)
    ensures { left.new ≡ leave numbers.now left.old (target_of target) }
{
    let i = index(target);
    if i < NUMBERS {
        left[i] = left_of(target, numbers[i]);
        return;
    }
}

// Without a branch for each number, as `all` would have.
fn all_zero(left: &[u64; 15]) -> bool
    ensures { result ≡ all_zero 15 left.now }
{
    let mut zero = true;
    for n in left {
        zero &= *n == 0;
    }
    zero
}

fn none_left(n: u64) -> Written
    ensures { meaning result ≡ refused no_such_entry n 0 }
{
    Err(layouts::refuse(layouts::NO_SUCH_ENTRY, n as usize))
}

// How many entries are used after an item. A count is not doubled before it is known to be that small.
pub fn strings_after(kind: u8, n: u64, slots: usize, used: usize) -> Written
    ensures { meaning result ≡ strings_after kind n slots used }
{
    let left = slots.saturating_sub(used) as u64;
    if kind == table::STR {
        if left < 1 {
            return none_left(n);
        }
        return Ok(used + 1);
    }
    if kind == table::SET {
        if left < n {
            return none_left(n);
        }
        return Ok(used + n as usize);
    }
    if kind == table::PAIRS {
        if left / 2 < n {
            return none_left(n);
        }
        return Ok(used + 2 * n as usize);
    }
    Ok(used)
}

// A refusal stays. A number, which most fields are, has no strings and is told first, here and below.
fn strings_on(strings: Written, kind: u8, n: u64, slots: usize) -> Written
    ensures { meaning result ≡ onward (meaning strings) (λ used. strings_after kind n slots used) }
{
    if kind == table::NUM {
        return strings;
    }
    let used = strings?;
    strings_after(kind, n, slots, used)
}

fn bytes_by(framed: usize, kind: u8) -> usize
    ensures { result ≡ bytes_by framed kind }
{
    if kind == table::NUM {
        return 8;
    }
    if has_number(kind) {
        return 8;
    }
    if kind == table::FRAMES {
        return framed;
    }
    0
}

// What fields need: how many entries, or why they run out; how many bytes besides their strings, or more than any room; whether one of them is framed data.
#[derive(Clone, Copy)]
pub struct Needs {
    pub entries: Written,
    pub bytes: usize,
    pub framed: bool,
}

// 14 comes before 11, but both are seen in one go.
fn gather(
    layout: Layout,
    pc: usize,
    numbers: &[u64; 15],
    slots: usize,
    framed: usize,
    room: usize,
    left: &mut [u64; 15],
) -> Needs
    ensures entries { meaning result.entries ≡ entries_for numbers.now slots 0 (fields_at layout pc) }
    ensures bytes { result.bytes ≡ bytes_after room framed 0 (fields_at layout pc) }
    ensures framed { result.framed ≡ has_frames (fields_at layout pc) }
    ensures left { left.new ≡ left_by numbers.now left.old (fields_at layout pc) }
{
    let mut pc = pc;
    let mut entries = Ok(0);
    let mut bytes = 0;
    let mut has_frames = false;
    loop {
        let x = walk_items::next(layout, pc, 0, table::SIZE, table::SIZE);
        if x.kind == table::END {
            return Needs {
                entries,
                bytes,
                framed: has_frames,
            };
        }
        take(left, numbers, target_by(x.kind, x.target));
        entries = strings_on(entries, x.kind, value(numbers, x.kind, x.target), slots);
        bytes = writers_sets::grow(room, bytes, bytes_by(framed, x.kind));
        has_frames = has_frames | (x.kind == table::FRAMES);
        pc = x.pc;
    }
}

// The same, or 14.
pub fn judge(
    layout: Layout,
    pc: usize,
    numbers: &[u64; 15],
    slots: usize,
    payload: &[u8],
    room: usize,
) -> Needs
    ensures entries { meaning result.entries ≡ pick (is_of_shape numbers.now payload.now (fields_at layout pc))
        (entries_for numbers.now slots 0 (fields_at layout pc)) (refused not_of_shape 0 0) }
    ensures bytes { result.bytes ≡ pick (is_of_shape numbers.now payload.now (fields_at layout pc))
        (bytes_after room (length (framed_bytes payload.now)) 0 (fields_at layout pc)) 0 }
    ensures framed { result.framed ≡ pick (is_of_shape numbers.now payload.now (fields_at layout pc)) (has_frames (fields_at layout pc)) false }
{
    let mut left = *numbers;
    let framed = writers::framed_size(payload);
    let needs = gather(layout, pc, numbers, slots, framed, room, &mut left);
    if all_zero(&left) & (needs.framed | (payload.len() == 0)) {
        return needs;
    }
    Needs {
        entries: Err(layouts::refuse(layouts::NOT_OF_SHAPE, 0)),
        bytes: 0,
        framed: false,
    }
}

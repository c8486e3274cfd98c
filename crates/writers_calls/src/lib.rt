#![tactic(auto)]
// The writer of calls: the arguments of an operation, field by field. All is judged before anything is written. Entries are in either form.
ghost use Rattle.std.specs.Prelude.{◌≡◌, ◌++◌, ◌+◌, ◌*◌, ◌≤◌, ◌<◌, length, get_or};
ghost use Rattle.layouts.specs.Primitive.{little_at, number_at};
ghost use Rattle.layouts.specs.Writers.{framed_bytes};
ghost use Rattle.layouts.specs.Calls.{context};
ghost use Rattle.layouts.specs.CallWriter.{shape_bytes, call_bytes, write_bytes};
ghost use Rattle.walk_items.specs.Items.{version_of};
ghost use Rattle.entries.specs.Entries.{numbers_from, entries_in};
ghost use Rattle.writers_output.specs.Answer.{meaning};
ghost use Rattle.writers_output.specs.Placed.{placed};
ghost use Rattle.writers_fields.specs.Fields.{fields_at, strings_after};
ghost use Rattle.writers_calls.specs.Calls.{number_by, frames_by, item_bytes, fields_from, Planned, used_or, after_bytes, fifteen, call_written};

use entries::Form;
use layouts::{Mode, Record};
use walk_items::Layout;
use writers_output::Written;

// Each part answers the place after it.
fn put_number(out: &mut [u8], at: usize, kind: u8, n: u64) -> usize
    requires { at + length (number_by kind n) ≤ length out.old }
    ensures next { result ≡ at + length (number_by kind n) }
    ensures out { out.new ≡ placed at (number_by kind n) out.old }
{
    if writers_fields::has_number(kind) {
        writers_output::put_number(out, at, n);
        return at + 8;
    }
    at
}

fn put_framed(out: &mut [u8], at: usize, payload: &[u8]) -> usize
    requires { at + length (framed_bytes payload.now) ≤ length out.old }
    ensures length { result ≡ length (framed_bytes payload.now) }
    ensures out { out.new ≡ placed at (framed_bytes payload.now) out.old }
{
    // There is room, so it is not refused.
    writers::write_framed(&mut out[at..], payload).unwrap_or(0)
}

fn put_frames(out: &mut [u8], at: usize, kind: u8, payload: &[u8]) -> usize
    requires { at + length (frames_by kind payload.now) ≤ length out.old }
    ensures next { result ≡ at + length (frames_by kind payload.now) }
    ensures out { out.new ≡ placed at (frames_by kind payload.now) out.old }
{
    if kind == table::FRAMES {
        return at + put_framed(out, at, payload);
    }
    at
}

// Most fields are a number and no more.
fn put_item<T: Form>(
    out: &mut [u8],
    at: usize,
    kind: u8,
    n: u64,
    s: &[u8],
    entries: &[T],
    i: usize,
    next: usize,
    payload: &[u8],
) -> usize
    requires { at + length (item_bytes kind n s.now (T.numbers entries.now) i next payload.now) ≤ length out.old }
    ensures next { result ≡ at + length (item_bytes kind n s.now (T.numbers entries.now) i next payload.now) }
    ensures out { out.new ≡ placed at (item_bytes kind n s.now (T.numbers entries.now) i next payload.now) out.old }
{
    if (kind == table::NUM) & (i == next) {
        writers_output::put_number(out, at, n);
        return at + 8;
    }
    let strings = put_number(out, at, kind, n);
    let frames = writers_sets::put_strings(out, strings, s, entries, i, next);
    put_frames(out, frames, kind, payload)
}

// How many entries are used after an item of fields that were judged.
fn used_after(kind: u8, n: u64, slots: usize, used: usize) -> usize
    ensures { result ≡ used_or used (strings_after kind n slots used) }
{
    if kind == table::NUM {
        return used;
    }
    writers_fields::strings_after(kind, n, slots, used).unwrap_or(used)
}

fn put_items<T: Form>(
    out: &mut [u8],
    layout: Layout,
    pc: usize,
    numbers: &[u64; 15],
    s: &[u8],
    entries: &[T],
    payload: &[u8],
)
    requires { Planned numbers.now payload.now s.now (T.numbers entries.now) (length out.old) (fields_at layout pc) }
    ensures { out.new ≡ placed 0 (fields_from numbers.now payload.now s.now (T.numbers entries.now) 0 (fields_at layout pc)) out.old }
{
    let slots = T::slots(entries);
    let mut pc = pc;
    let mut at = 0;
    let mut i = 0;
    loop {
        let x = walk_items::next(layout, pc, 0, table::SIZE, table::SIZE);
        if x.kind == table::END {
            return;
        }
        let n = writers_fields::value(numbers, x.kind, x.target);
        let next = used_after(x.kind, n, slots, i);
        at = put_item(out, at, x.kind, n, s, entries, i, next, payload);
        i = next;
        pc = x.pc;
    }
}

// 14, 11; each entry that is used 12, 3; 10.
fn judge<T: Form>(
    layout: Layout,
    pc: usize,
    numbers: &[u64; 15],
    s: &[u8],
    entries: &[T],
    payload: &[u8],
    out: &[u8],
) -> Written
    ensures { meaning result ≡ write_bytes (shape_bytes numbers.now s.now (T.numbers entries.now) payload.now (fields_at layout pc)) out.now }
{
    let slots = T::slots(entries);
    let needs = writers_fields::judge(layout, pc, numbers, slots, payload, out.len());
    let used = needs.entries?;
    writers_sets::judge_strings(out, needs.bytes, s, entries, used)
}

fn write_fields<T: Form>(
    layout: Layout,
    pc: usize,
    numbers: &[u64; 15],
    s: &[u8],
    entries: &[T],
    payload: &[u8],
    out: &mut [u8],
) -> Written
    ensures answer { meaning result ≡ write_bytes (shape_bytes numbers.now s.now (T.numbers entries.now) payload.now (fields_at layout pc)) out.old }
    ensures lent { out.new ≡ after_bytes (shape_bytes numbers.now s.now (T.numbers entries.now) payload.now (fields_at layout pc)) out.old }
{
    let n = judge(layout, pc, numbers, s, entries, payload, out)?;
    put_items(out, layout, pc, numbers, s, entries, payload);
    Ok(n)
}

fn write<T: Form>(
    mode: Mode,
    op: u64,
    major: u16,
    minor: u8,
    numbers: &[u64; 15],
    s: &[u8],
    entries: &[T],
    payload: &[u8],
    out: &mut [u8],
) -> Written
    ensures answer { meaning result ≡ write_bytes (call_bytes (context mode op major minor) numbers.now s.now (T.numbers entries.now) payload.now) out.old }
    ensures lent { out.new ≡ after_bytes (call_bytes (context mode op major minor) numbers.now s.now (T.numbers entries.now) payload.now) out.old }
{
    let Some(shape) = table_operations::arguments(mode, op) else {
        return Err(layouts::refuse(layouts::UNKNOWN_OPERATION, 0));
    };
    let layout = walk_items::layout(major, minor, shape.first);
    if table_operations::kind_of(shape.kind, walk_items::spoken(layout), false) == 0 {
        return Err(layouts::refuse(layouts::NO_ARGUMENTS, 0));
    }
    let pc = walk_items::begin(layout).pc;
    write_fields(layout, pc, numbers, s, entries, payload, out)
}

pub fn write_op_args(
    mode: Mode,
    op: u64,
    major: u16,
    minor: u8,
    record: Record,
    bytes: &[u8],
    entries: &[u64],
    payload: &[u8],
    out: &mut [u8],
) -> Written
    ensures answer { meaning result
        ≡ (call_written (context mode op major minor) (fifteen «record») bytes.now entries.now payload.now out.old).answer }
    ensures lent { out.new
        ≡ (call_written (context mode op major minor) (fifteen «record») bytes.now entries.now payload.now out.old).lent }
{
    let n = record.numbers;
    let c = record.counts;
    let numbers = [
        n[0], n[1], n[2], n[3], n[4], n[5], n[6], n[7], n[8], n[9], n[10], n[11], c[0], c[1], c[2],
    ];
    write(
        mode, op, major, minor, &numbers, bytes, entries, payload, out,
    )
}

fn byte_or_zero(s: &[u8], i: usize) -> u64
    ensures { (result ≡ get_or s.now i 0) × (result < 256) }
{
    if i < s.len() {
        return numbers::wide(s[i]);
    }
    0
}

fn low_bytes(s: &[u8], at: usize) -> u64
    requires { at < 120 }
    ensures { result ≡ little_at 8 s.now at }
{
    let mut n = 0;
    for i in (at..at + 8).rev() {
        n = 256 * n + byte_or_zero(s, i);
    }
    n
}

// The number at a place, where bytes that are lacking are 0.
fn number_or_low(s: &[u8], at: usize) -> u64
    requires { at < 120 }
    ensures { result ≡ number_at s.now at }
{
    match pieces::number_at(s, at) {
        Some(n) => n,
        None => low_bytes(s, at),
    }
}

// The same with entries of sixteen bytes, and with the numbers as an answer block has them.
pub fn write_op_args_bytes(
    mode: Mode,
    op: u64,
    major: u16,
    minor: u8,
    record: &[u8],
    bytes: &[u8],
    entries: &[u8],
    payload: &[u8],
    out: &mut [u8],
) -> Written
    ensures answer { meaning result
        ≡ (call_written (context mode op major minor) (numbers_from 15 0 «record».now) bytes.now (entries_in entries.now)
        payload.now out.old).answer }
    ensures lent { out.new
        ≡ (call_written (context mode op major minor) (numbers_from 15 0 «record».now) bytes.now (entries_in entries.now)
        payload.now out.old).lent }
{
    let numbers = [
        number_or_low(record, 0),
        number_or_low(record, 8),
        number_or_low(record, 16),
        number_or_low(record, 24),
        number_or_low(record, 32),
        number_or_low(record, 40),
        number_or_low(record, 48),
        number_or_low(record, 56),
        number_or_low(record, 64),
        number_or_low(record, 72),
        number_or_low(record, 80),
        number_or_low(record, 88),
        number_or_low(record, 96),
        number_or_low(record, 104),
        number_or_low(record, 112),
    ];
    write(
        mode, op, major, minor, &numbers, bytes, entries, payload, out,
    )
}

#![tactic(auto)]
// Arguments and replies by operation, under the names of nix-wire's protocol.rs. Each call takes the part of the stream that starts where the last one
// ended.
ghost use Rattle.std.specs.Prelude.{◌≡◌, [], false, ℕ};
ghost use Rattle.layouts.specs.Primitive.{Version, version};
ghost use Rattle.layouts.specs.Refusal.{refused_by};
ghost use Rattle.layouts.specs.Pieces.{run, skip_of};
ghost use Rattle.layouts.specs.Judge.{entries_of};
ghost use Rattle.layouts.specs.Calls.{context, skipped_tree, skip_op_args, skip_daemon_result};
ghost use Rattle.table.specs.Table.{kind_numbered};
ghost use Rattle.walk_items.specs.Items.{version_of, pieces_of};
ghost use Rattle.walk_judge.specs.Judged.{answer_of};
ghost use Rattle.walk_read.specs.Reading.{read_by, answered_as};
ghost use Rattle.walk_pass.specs.Skip.{skipped};
ghost use Rattle.walk_shapes.specs.Shapes.{text_pieces, text_read};
ghost use Rattle.protocol.specs.Protocol.{arguments_read, reply_read, arguments_as};
ghost use Rattle.protocol.specs.Bytes as B;

use layouts::{Mode, Refusal};
use walk_items::{Brief, Layout};
use walk_judge::{Answer, Said};

// What skipped arguments answer: a kind, where they end, a count ("N paths", "N overrides") or one string, by start and length of its contents.
#[derive(Drop)]
pub struct Arguments {
    pub outcome: Result<(), Refusal>,
    pub kind: u64,
    pub ends: usize,
    pub count: u64,
    pub start: u64,
    pub len: u64,
}

pub fn read_op_args(
    mode: Mode,
    op: u64,
    major: u16,
    minor: u8,
    s: &[u8],
    entries: &mut [u64],
    payload: &mut [u8],
) -> Answer
    ensures answer { result ≡ (arguments_read (context mode op major minor) s.now entries.old payload.old).answer }
    ensures entries { entries.new ≡ (arguments_read (context mode op major minor) s.now entries.old payload.old).entries }
    ensures payload { payload.new ≡ (arguments_read (context mode op major minor) s.now entries.old payload.old).payload }
{
    let mut numbers = [0u64; 12];
    let mut counts = [0u64; 3];
    let said = walk_shapes::read_arguments(
        mode,
        op,
        major,
        minor,
        s,
        entries,
        payload,
        &mut numbers,
        &mut counts,
    );
    walk_judge::answer_of(said, numbers, counts)
}

// The same with entries of sixteen bytes, and with the numbers and counts beside what is said.
pub fn read_op_args_bytes(
    mode: Mode,
    op: u64,
    major: u16,
    minor: u8,
    s: &[u8],
    entries: &mut [u8],
    payload: &mut [u8],
    numbers: &mut [u64; 12],
    counts: &mut [u64; 3],
) -> Result<Said, Refusal>
    ensures answer { answer_of result numbers.new counts.new
        ≡ (B.arguments_read (context mode op major minor) s.now entries.old payload.old).answer }
    ensures entries { entries.new ≡ (B.arguments_read (context mode op major minor) s.now entries.old payload.old).entries }
    ensures payload { payload.new ≡ (B.arguments_read (context mode op major minor) s.now entries.old payload.old).payload }
{
    walk_shapes::read_arguments(mode, op, major, minor, s, entries, payload, numbers, counts)
}

fn refused_arguments(refusal: Refusal) -> Arguments
    ensures { result ≡ arguments_as (refused_by refusal) [] }
{
    Arguments {
        outcome: Err(refusal),
        kind: 0,
        ends: 0,
        count: 0,
        start: 0,
        len: 0,
    }
}

// A layout that keeps one string at most: it is the first of the window.
fn skip_layout(s: &[u8], layout: Layout, code: u8) -> Arguments
    ensures { result ≡ arguments_as (answered_as (version_of layout) code (read_by layout s.now 1 0)) (entries_of (pieces_of layout s.now 0)) }
{
    let mut numbers = [0u64; 12];
    let mut counts = [0u64; 3];
    let mut window = [0u64; 16];
    let a = walk_judge::judge(
        s,
        0,
        layout,
        1,
        0,
        0,
        0,
        false,
        &mut numbers,
        &mut counts,
        &mut window,
    );
    match a {
        Err(r) => refused_arguments(r),
        Ok(k) => Arguments {
            outcome: Ok(()),
            kind: table_operations::kind_of(code, walk_items::spoken(layout), k.present),
            ends: k.ends,
            count: numbers[0],
            start: window[0],
            len: window[1],
        },
    }
}

// A layout of one string, which is answered.
fn skip_string(s: &[u8], kind: u64) -> Arguments
    ensures { (v : Version) (code : ℕ) → kind ≡ kind_numbered v false code → result ≡ arguments_as (answered_as v code (text_read s.now 1 0)) (entries_of (text_pieces s.now)) }
{
    match pieces::string_at(s, 0, true) {
        Err(r) => refused_arguments(r),
        Ok(k) => Arguments {
            outcome: Ok(()),
            kind,
            ends: k.next,
            count: 0,
            start: k.start as u64,
            len: k.len as u64,
        },
    }
}

// Stops before framed data, and checks the text of no string but the one that it answers.
pub fn skip_op_args(mode: Mode, op: u64, major: u16, minor: u8, s: &[u8]) -> Arguments
    ensures { result ≡ arguments_as (skip_op_args (context mode op major minor) s.now) (entries_of (run (skipped_tree (context mode op major minor)) s.now 0)) }
{
    let Some(shape) = table_operations::skipped(mode, op) else {
        return refused_arguments(layouts::refuse(layouts::UNKNOWN_OPERATION, 0));
    };
    let layout = walk_items::layout(major, minor, shape.first);
    let b = walk_items::in_brief(layout);
    if let Brief::Text = b {
        let one = table_operations::kind_of(shape.kind, walk_items::spoken(layout), false);
        return skip_string(s, one);
    }
    let Brief::Nothing = b else {
        return skip_layout(s, layout, shape.kind);
    };
    Arguments {
        outcome: Ok(()),
        kind: table_operations::kind_of(shape.kind, walk_items::spoken(layout), false),
        ends: 0,
        count: 0,
        start: 0,
        len: 0,
    }
}

pub fn read_daemon_result(
    op: u64,
    major: u16,
    minor: u8,
    s: &[u8],
    entries: &mut [u64],
    payload: &mut [u8],
) -> Answer
    ensures answer { result ≡ (reply_read op (version major minor) s.now entries.old payload.old).answer }
    ensures entries { entries.new ≡ (reply_read op (version major minor) s.now entries.old payload.old).entries }
    ensures payload { payload.new ≡ (reply_read op (version major minor) s.now entries.old payload.old).payload }
{
    let mut numbers = [0u64; 12];
    let mut counts = [0u64; 3];
    let said = walk_shapes::read_reply(
        op,
        major,
        minor,
        s,
        entries,
        payload,
        &mut numbers,
        &mut counts,
    );
    walk_judge::answer_of(said, numbers, counts)
}

// The same with entries of sixteen bytes, and with the numbers and counts beside what is said.
pub fn read_daemon_result_bytes(
    op: u64,
    major: u16,
    minor: u8,
    s: &[u8],
    entries: &mut [u8],
    payload: &mut [u8],
    numbers: &mut [u64; 12],
    counts: &mut [u64; 3],
) -> Result<Said, Refusal>
    ensures answer { answer_of result numbers.new counts.new ≡ (B.reply_read op (version major minor) s.now entries.old payload.old).answer }
    ensures entries { entries.new ≡ (B.reply_read op (version major minor) s.now entries.old payload.old).entries }
    ensures payload { payload.new ≡ (B.reply_read op (version major minor) s.now entries.old payload.old).payload }
{
    walk_shapes::read_reply(op, major, minor, s, entries, payload, numbers, counts)
}

// A layout of one string, with no look at its contents.
fn skip_text(s: &[u8]) -> Result<usize, Refusal>
    ensures { skipped result ≡ skip_of (text_pieces s.now) }
{
    let c = pieces::string_at(s, 0, false)?;
    Ok(c.next)
}

// The layout at the start of the stream; one without fields, or of one number or string, needs no fold.
fn skip_brief(s: &[u8], layout: Layout) -> Result<usize, Refusal>
    ensures { skipped result ≡ skip_of (pieces_of layout s.now 0) }
{
    let b = walk_items::in_brief(layout);
    match b {
        Brief::Nothing => Ok(0),
        Brief::Number => {
            pieces::number_or_cut(s, 0)?;
            Ok(8)
        }
        Brief::Text => skip_text(s),
        Brief::Longer => walk_pass::skip(s, 0, layout),
    }
}

// No contents are looked at.
pub fn skip_daemon_result(op: u64, major: u16, minor: u8, s: &[u8]) -> Result<usize, Refusal>
    ensures { skipped result ≡ skip_daemon_result op (version major minor) s.now }
{
    let Some(shape) = table_operations::reply(op) else {
        return Err(layouts::refuse(layouts::UNKNOWN_OPERATION, 0));
    };
    skip_brief(s, walk_items::layout(major, minor, shape.first))
}

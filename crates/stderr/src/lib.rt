#![tactic(auto)]
// The stderr loop: the messages that a daemon sends before its reply, with and without the error block. Names are those of nix-wire's protocol.rs.
ghost use Rattle.std.specs.Prelude.{◌≡◌};
ghost use Rattle.layouts.specs.Primitive.{version};
ghost use Rattle.layouts.specs.Stderr.{message_of, stderr_loop, stderr_answer, read_stderr_loop, error_kind, error_groups};
ghost use Rattle.table.specs.Table.{groups_at};
ghost use Rattle.codes.specs.Stderr.{code_number};
ghost use Rattle.walk_judge.specs.Judged.{answer_as};
ghost use Rattle.stderr.specs.Loop.{said, stopped_as, record_for, block_number, block_filled, error_filled, error_read, error_read_bytes};

use codes::StderrCode;
use layouts::{Mode, Record, Refusal};
use walk_judge::Answer;
use walk_rooms::Room;

// What a number at the place of a code says: no code; a terminal one; one that the layout at a group follows.
#[derive(Drop)]
enum Message {
    NoCode,
    Terminal,
    Goes(u8),
}

// How many messages, the terminal code or 0, and where the loop stops.
#[derive(Clone, Copy)]
struct Stopped {
    messages: u64,
    code: u64,
    ends: usize,
}

fn message_of(code: StderrCode) -> Message
    ensures { said result ≡ message_of (code_number code) }
{
    match code {
        StderrCode::Next => Message::Goes(table::STRING_MESSAGE),
        StderrCode::Write => Message::Goes(table::STRING_MESSAGE),
        StderrCode::Read => Message::Goes(table::NUMBER_MESSAGE),
        StderrCode::StopActivity => Message::Goes(table::NUMBER_MESSAGE),
        StderrCode::StartActivity => Message::Goes(table::START_ACTIVITY),
        StderrCode::Result => Message::Goes(table::RESULT_MESSAGE),
        StderrCode::Last => Message::Terminal,
        StderrCode::Error => Message::Terminal,
    }
}

fn find_message(c: u64) -> Message
    ensures { said result ≡ message_of c }
{
    match StderrCode::from_u64(c) {
        Some(code) => message_of(code),
        None => Message::NoCode,
    }
}

// A number that is no code, or is cut short, is not consumed: the reply may begin there.
fn stderr_loop(s: &[u8]) -> Result<Stopped, Refusal>
    ensures { stopped_as result ≡ stderr_loop s.now }
{
    let mut at: usize = 0;
    let mut messages: u64 = 0;
    loop {
        let Some(c) = pieces::number_at(s, at) else {
            return Ok(Stopped {
                messages,
                code: 0,
                ends: at,
            });
        };
        match find_message(c) {
            Message::NoCode => {
                return Ok(Stopped {
                    messages,
                    code: 0,
                    ends: at,
                });
            }
            Message::Terminal => {
                return Ok(Stopped {
                    messages: messages + 1,
                    code: c,
                    ends: at + 8,
                });
            }
            Message::Goes(first) => {
                at = walk_pass::skip(s, at + 8, walk_items::layout(0, 0, first))?;
                messages += 1;
            }
        }
    }
}

fn stopped_record(messages: u64, code: u64) -> Record
    ensures { result ≡ record_for messages code }
{
    let mut r = walk_judge::empty();
    r.numbers[0] = messages;
    r.numbers[1] = code;
    r
}

fn answer(ends: usize, found: Record) -> Answer
    ensures { result ≡ answer_as (stderr_answer 0 ends found) }
{
    Answer {
        outcome: Ok(()),
        kind: 0,
        ends,
        ends2: 0,
        found,
    }
}

pub fn read_stderr_loop(s: &[u8]) -> Answer
    ensures { result ≡ answer_as (read_stderr_loop s.now) }
{
    match stderr_loop(s) {
        Err(r) => walk_judge::refused_answer(r),
        Ok(k) => answer(k.ends, stopped_record(k.messages, k.code)),
    }
}

// Kinds of answers, by the error block: nix-wire's, and what has no error; the published source's with traces; the one below 1.26.
#[derive(Clone, Copy, PartialEq, Eq)]
enum ErrorBlock {
    Ported,
    Traced,
    Short,
}

impl ErrorBlock {
    // The number by which an answer tells its kind.
    fn number(self) -> u64
        ensures { result ≡ block_number self }
    {
        match self {
            ErrorBlock::Ported => 0,
            ErrorBlock::Traced => 1,
            ErrorBlock::Short => 2,
        }
    }
}

// The first version whose errors have traces.
const TRACES: u8 = 26;

fn error_kind(mode: Mode, major: u16, minor: u8) -> ErrorBlock
    ensures { block_number result ≡ error_kind mode (version major minor) }
{
    match mode {
        Mode::Ported => ErrorBlock::Ported,
        Mode::Published => {
            let spoken = walk_items::spoken(walk_items::layout(major, minor, 0));
            if walk_items::at_least(spoken, TRACES) {
                return ErrorBlock::Traced;
            }
            ErrorBlock::Short
        }
    }
}

fn error_block(kind: ErrorBlock) -> u8
    ensures { error_groups (block_number kind) ≡ groups_at result }
{
    match kind {
        ErrorBlock::Ported => table::PORTED_ERROR,
        ErrorBlock::Traced => table::TRACED_ERROR,
        ErrorBlock::Short => table::SHORT_ERROR,
    }
}

// The error block of a kind from a place on, with the record so far.
fn read_error_block<T: Room>(
    s: &[u8],
    at: usize,
    kind: ErrorBlock,
    sofar: Record,
    entries: &mut [T],
) -> Answer
    ensures answer { result ≡ (block_filled (block_number kind) s.now at sofar (T.slots entries.old) T.laid entries.old).answer }
    ensures entries { entries.new ≡ (block_filled (block_number kind) s.now at sofar (T.slots entries.old) T.laid entries.old).entries }
{
    let block = walk_items::layout(0, 0, error_block(kind));
    let mut a = walk_judge::judge_record(s, at, block, T::slots(entries), 0, sofar);
    let Ok(_) = a.outcome else {
        return a;
    };
    walk_fill::fill_entries(s, at, block, entries, 0);
    a.kind = kind.number();
    a
}

// The loop, and behind Error its block.
fn read<T: Room>(s: &[u8], kind: ErrorBlock, entries: &mut [T]) -> Answer
    ensures answer { result ≡ (error_filled (block_number kind) s.now (T.slots entries.old) T.laid entries.old).answer }
    ensures entries { entries.new ≡ (error_filled (block_number kind) s.now (T.slots entries.old) T.laid entries.old).entries }
{
    match stderr_loop(s) {
        Err(r) => walk_judge::refused_answer(r),
        Ok(k) => {
            let r = stopped_record(k.messages, k.code);
            if k.code == StderrCode::Error.number() {
                return read_error_block(s, k.ends, kind, r, entries);
            }
            answer(k.ends, r)
        }
    }
}

pub fn read_stderr_with_error(
    mode: Mode,
    major: u16,
    minor: u8,
    s: &[u8],
    entries: &mut [u64],
) -> Answer
    ensures answer { result ≡ (error_read (error_kind mode (version major minor)) s.now entries.old).answer }
    ensures entries { entries.new ≡ (error_read (error_kind mode (version major minor)) s.now entries.old).entries }
{
    read(s, error_kind(mode, major, minor), entries)
}

// The same with entries of sixteen bytes.
pub fn read_stderr_with_error_bytes(
    mode: Mode,
    major: u16,
    minor: u8,
    s: &[u8],
    entries: &mut [u8],
) -> Answer
    ensures answer { result ≡ (error_read_bytes (error_kind mode (version major minor)) s.now entries.old).answer }
    ensures entries { entries.new ≡ (error_read_bytes (error_kind mode (version major minor)) s.now entries.old).entries }
{
    read(s, error_kind(mode, major, minor), entries)
}

#![tactic(auto)]
// What the skippers, the readers of one field, the writers and the tests say, as whole answers for the C boundary; and an answer as a block of 25 numbers of eight bytes.
ghost use Rattle.std.specs.Prelude.{◌≡◌, ◌*◌, ◌≤◌, length, eqb};
ghost use Rattle.layouts.specs.Primitive.{ok, pick, version};
ghost use Rattle.walk_judge.specs.Judged.{answer_of, answer_as};
ghost use Rattle.wire.specs.Answers.{number_read, count_read, total_read, peeked, spanned, skipped_to};
ghost use Rattle.writers_output.specs.Answer.{meaning};
ghost use Rattle.versions.specs.Handshake.{version_of};
ghost use Rattle.entries.specs.Entries.{found};
ghost use Rattle.lintelow_answers.specs.Answers.{mode_of, answer, numbered, ended, passed_to, string_read, peeked_at, written, yes_no, entry_told, framed_said, version_told};
ghost use Rattle.writers_output.specs.Numbers.{bytes_of};
ghost use Rattle.writers_output.specs.Placed.{placed};
ghost use Rattle.lintelow_answers.specs.Block.{refusal_of, head_of, block_of, number_put, number_of, block_put, block_after};
ghost use Rattle.layouts.specs.Calls.{context, skip_daemon_result};
ghost use Rattle.lintelow_answers.specs.Skips.{arguments_skipped, result_skipped};

use entries::Located;
use layouts::{Mode, Record, Refusal};
use versions::ProtocolVersion;
use walk_judge::{Answer, Said};
use wire::{Cursor, Read, Spanned};
use writers_output::Written;

// A mode by its number: 0 is ported, any other published, as a flag is read.
pub fn mode(number: u8) -> Mode
    ensures { result ≡ mode_of number }
{
    if number == 0 {
        return Mode::Ported;
    }
    Mode::Published
}

fn fine(kind: u64, ends: usize, a: u64, b: u64, c: u64, entries: usize, payload: usize) -> Answer
    ensures { result ≡ answer_as (ok (answer kind ends (numbered a b c entries payload))) }
{
    let numbers = [a, b, c, 0, 0, 0, 0, 0, 0, 0, 0, 0];
    let counts = [0u64; 3];
    Answer {
        outcome: Ok(()),
        kind,
        ends,
        ends2: 0,
        found: Record {
            numbers,
            counts,
            present: false,
            entries,
            payload,
        },
    }
}

// A number, the count of a skipped set, the total of skipped frames.
pub fn number(r: Result<Read, Refusal>) -> Answer
    ensures { result ≡ answer_as (ended (number_read r)) }
{
    match r {
        Ok(k) => fine(0, k.next.at, k.value, 0, 0, 0, 0),
        Err(x) => walk_judge::refused_answer(x),
    }
}

pub fn string(r: Result<Spanned, Refusal>) -> Answer
    ensures { result ≡ answer_as (string_read (spanned r)) }
{
    match r {
        Ok(k) => fine(0, k.next.at, 0, k.start as u64, k.len as u64, 1, 0),
        Err(x) => walk_judge::refused_answer(x),
    }
}

// Framed data whose payload was read.
pub fn total(r: Result<Read, Refusal>) -> Answer
    ensures { result ≡ answer_as (ended (total_read r)) }
{
    match r {
        Ok(k) => fine(0, k.next.at, 0, 0, 0, 0, k.value as usize),
        Err(x) => walk_judge::refused_answer(x),
    }
}

// A set whose strings were read: as many entries as it counts.
pub fn count(r: Result<Read, Refusal>) -> Answer
    ensures { result ≡ answer_as (ended (count_read r)) }
{
    match r {
        Ok(k) => {
            let numbers = [0u64; 12];
            let counts = [k.value, 0, 0];
            Answer {
                outcome: Ok(()),
                kind: 0,
                ends: k.next.at,
                ends2: 0,
                found: Record {
                    numbers,
                    counts,
                    present: false,
                    entries: k.value as usize,
                    payload: 0,
                },
            }
        }
        Err(x) => walk_judge::refused_answer(x),
    }
}

pub fn passed(r: Result<Cursor, Refusal>) -> Answer
    ensures { result ≡ answer_as (passed_to (skipped_to r)) }
{
    match r {
        Ok(next) => fine(0, next.at, 0, 0, 0, 0, 0),
        Err(x) => walk_judge::refused_answer(x),
    }
}

pub fn peek(at: usize, r: Option<u64>) -> Answer
    ensures { result ≡ answer_as (peeked_at at (peeked r)) }
{
    match r {
        Some(n) => fine(1, at, n, 0, 0, 0, 0),
        None => fine(0, at, 0, 0, 0, 0, 0),
    }
}

pub fn write(r: Written) -> Answer
    ensures { result ≡ answer_as (written (meaning r)) }
{
    match r {
        Ok(n) => fine(0, n, 0, 0, 0, 0, n),
        Err(x) => walk_judge::refused_answer(x),
    }
}

pub fn yes_no(b: bool) -> Answer
    ensures { result ≡ answer_as (yes_no (ok b)) }
{
    if b {
        return fine(1, 0, 0, 0, 0, 0, 0);
    }
    fine(0, 0, 0, 0, 0, 0, 0)
}

// Where a string lies.
pub fn entry(r: Result<Located, Refusal>) -> Answer
    ensures { result ≡ answer_as (entry_told (found r)) }
{
    match r {
        Ok(k) => fine(0, 0, 0, k.start as u64, k.len as u64, 1, 0),
        Err(x) => walk_judge::refused_answer(x),
    }
}

pub fn framed(f: Result<bool, Refusal>) -> Answer
    ensures { result ≡ answer_as (yes_no (framed_said f)) }
{
    match f {
        Ok(b) => yes_no(b),
        Err(x) => walk_judge::refused_answer(x),
    }
}

pub fn version(v: ProtocolVersion) -> Answer
    ensures { result ≡ answer_as (version_told (version_of v)) }
{
    fine(0, 0, v.major as u64, v.minor as u64, 0, 0, 0)
}

pub const BLOCK: usize = 200;

fn refusal(o: Result<(), Refusal>) -> [u64; 3]
    ensures { (result ≡ refusal_of o) × (length result ≡ 3) }
{
    match o {
        Ok(_) => [0, 0, 0],
        Err(r) => [r.which, r.place as u64, r.stream],
    }
}

// Number, place and stream of a refusal, kind, ends, entries and payload.
fn head(said: Result<Said, Refusal>) -> [u64; 8]
    ensures { (result ≡ head_of said) × (length result ≡ 8) }
{
    match said {
        Ok(k) => [
            0,
            0,
            0,
            k.kind,
            k.ends as u64,
            k.ends2 as u64,
            k.entries as u64,
            k.payload as u64,
        ],
        Err(r) => [r.which, r.place as u64, r.stream, 0, 0, 0, 0, 0],
    }
}

fn numbers(h: [u64; 8], n: [u64; 12], c: [u64; 3]) -> [u64; 25]
    ensures { (result ≡ block_of h n c) × (length result ≡ 25) }
{
    [
        h[0], h[1], h[2], h[3], h[4], h[5], h[6], h[7], n[0], n[1], n[2], n[3], n[4], n[5], n[6],
        n[7], n[8], n[9], n[10], n[11], c[0], c[1], c[2], 0, 0,
    ]
}

fn put_numbers(out: &mut [u8], ns: &[u64])
    requires { 8 * length ns.now ≤ length out.old }
    ensures { out.new ≡ placed 0 (bytes_of ns.now) out.old }
{
    for (i, n) in ns.iter().enumerate() {
        writers_output::put_number(out, 8 * i, *n);
    }
}

fn put_parts(block: &mut [u8], h: [u64; 8], n: [u64; 12], c: [u64; 3]) -> u64
    ensures number { result ≡ number_put block.old (block_of h n c) }
    ensures block { block.new ≡ block_put block.old (block_of h n c) }
{
    if block.len() < BLOCK {
        return layouts::OUTPUT_FULL;
    }
    let ns = numbers(h, n, c);
    put_numbers(block, &ns);
    ns[0]
}

// The answer into the block; its first number, 0 or the refusal's, is also returned. A block that is too short stays as it is.
pub fn put(block: &mut [u8], a: Answer) -> u64
    ensures number { result ≡ number_of block.old a }
    ensures block { block.new ≡ block_after block.old a }
{
    let o = a.outcome;
    let found = a.found;
    let r = refusal(o);
    let h = [
        r[0],
        r[1],
        r[2],
        a.kind,
        a.ends as u64,
        a.ends2 as u64,
        found.entries as u64,
        found.payload as u64,
    ];
    let n = found.numbers;
    let c = found.counts;
    put_parts(block, h, n, c)
}

// The same of what is said, with the numbers and counts beside it.
pub fn put_said(
    block: &mut [u8],
    said: Result<Said, Refusal>,
    numbers: [u64; 12],
    counts: [u64; 3],
) -> u64
    ensures number { result ≡ number_of block.old (answer_of said numbers counts) }
    ensures block { block.new ≡ block_after block.old (answer_of said numbers counts) }
{
    put_parts(block, head(said), numbers, counts)
}

// The kind of skipped arguments that answer one string.
const ONE_STRING: u64 = 2;

fn entries_of(kind: u64) -> usize
    ensures { result ≡ pick (eqb kind 2) 1 0 }
{
    if kind == ONE_STRING {
        return 1;
    }
    0
}

// The count is number 0; start and length of the one string are numbers 1 and 2.
pub fn skip_op_args(mode: Mode, op: u64, major: u16, minor: u8, s: &[u8]) -> Answer
    ensures { result ≡ arguments_skipped (context mode op major minor) s.now }
{
    let a = protocol::skip_op_args(mode, op, major, minor, s);
    let o = a.outcome;
    let entries = entries_of(a.kind);
    let numbers = [a.count, a.start, a.len, 0, 0, 0, 0, 0, 0, 0, 0, 0];
    let counts = [0u64; 3];
    Answer {
        outcome: o,
        kind: a.kind,
        ends: a.ends,
        ends2: 0,
        found: Record {
            numbers,
            counts,
            present: false,
            entries: entries,
            payload: 0,
        },
    }
}

pub fn skip_daemon_result(op: u64, major: u16, minor: u8, s: &[u8]) -> Answer
    ensures { result ≡ answer_as (result_skipped (skip_daemon_result op (version major minor) s.now)) }
{
    let k = protocol::skip_daemon_result(op, major, minor, s);
    match k {
        Ok(ends) => Answer {
            outcome: Ok(()),
            kind: 0,
            ends,
            ends2: 0,
            found: walk_judge::empty(),
        },
        Err(r) => walk_judge::refused_answer(r),
    }
}

#![tactic(auto)]
// Answers requests about the library: reads them from standard input until its end and writes one line for each. crates/probe/README.md has the form
// of requests and lines. A request that is cut short or beyond the limits, which are the lengths of the buffers here, ends the program with the line `stopped`.
mod line;
mod request;

use probe_by_number::{Call, lent, told};
use request::Asked;

const MIB: usize = 1048576;

const BLOCK: usize = 200;

// 4096 slots.
const ENTRIES: usize = 65536;

// A line that is longer is written in parts of this length.
const LINE: usize = 65536;

// What stands behind `e=`: of an entry view nothing, since it is shown as the payload.
fn strings<'a>(call: u64, entries: &'a [u8], block: &'a [u8]) -> &'a [u8] {
    if call == probe_by_number::ENTRY_VIEW {
        return lent::part(entries, 0, 0);
    }
    told::strings(call, entries, block)
}

// What stands behind `p=`: the view, or what was written into the room.
fn payload<'a, 'b>(call: u64, a: &'a [u8], room: &'a [u8], block: &'b [u8]) -> &'a [u8] {
    if call == probe_by_number::ENTRY_VIEW {
        return lent::part(
            a,
            told::number(block, told::OWN_START) as usize,
            told::number(block, told::OWN_LENGTH) as usize,
        );
    }
    lent::part(room, 0, told::number(block, told::OUTPUT) as usize)
}

// A refused view has a line like any other.
fn put_line<'a, 'b>(
    text: &'b mut [u8],
    call: u64,
    refusal: u64,
    a: &'a [u8],
    entries: &'a [u8],
    room: &'a [u8],
    block: &'a [u8],
) -> usize {
    if refusal == probe_by_number::NO_CALL {
        return line::put_no_call(text);
    }
    if (refusal != 0) & (call != probe_by_number::ENTRY_VIEW) {
        let is_kept = lent::is_kept(entries, 0) & lent::is_kept(room, 0);
        return line::put_refusal(text, block, is_kept);
    }
    line::put_fine(
        text,
        call,
        block,
        strings(call, entries, block),
        payload(call, a, room, block),
        told::is_kept(call, entries, room, block),
    )
}

// One call on lent memory that holds the pattern, and its line.
fn answer(
    c: Call,
    a: &[u8],
    b: &[u8],
    entries: &mut [u8],
    room: &mut [u8],
    block: &mut [u8],
    text: &mut [u8],
) {
    lent::fill(entries);
    lent::fill(room);
    let refusal = probe_by_number::answer(c, a, b, entries, room, block);
    let n = put_line(text, c.number, refusal, a, entries, room, block);
    line::end(text, n);
}

// Answers one request, and whether to go on. The buffers are cut to what the request says.
fn serve(
    streams: &mut [u8],
    entries: &mut [u8],
    room: &mut [u8],
    block: &mut [u8],
    text: &mut [u8],
) -> bool {
    let asked = request::read(streams, entries.len() / lent::ENTRY, room.len());
    match asked {
        Asked::For(q) => {
            answer(
                q.call,
                lent::part(streams, 0, q.a),
                lent::part(streams, q.a, q.b),
                lent::some_slots(entries, q.slots),
                lent::some(room, q.room),
                block,
                text,
            );
            true
        }
        Asked::End => false,
        Asked::Stopped => {
            io::write_all(1, b"stopped\n");
            false
        }
    }
}

// A proved loop has to end, and nothing says that the input does: so turns are counted down from a number that no run uses up.
fn serve_all(
    streams: &mut [u8; MIB],
    entries: &mut [u8; ENTRIES],
    room: &mut [u8; MIB],
    block: &mut [u8; BLOCK],
    text: &mut [u8; LINE],
) {
    let mut turns = u64::MAX;
    while turns > 0 && serve(streams, entries, room, block, text) {
        turns -= 1;
    }
}

fn main() {
    let mut streams = [0u8; MIB];
    let mut entries = [0u8; ENTRIES];
    let mut room = [0u8; MIB];
    let mut block = [0u8; BLOCK];
    let mut text = [0u8; LINE];
    serve_all(&mut streams, &mut entries, &mut room, &mut block, &mut text);
}

#![tactic(auto)]
// Parts of an output, put at a place, for the writers; and what every writer answers. A part that does not fit at its place is left out as a whole.
ghost use Rattle.std.specs.Prelude.{◌≡◌, ◌++◌, ◌+◌, length, replicate, leb};
ghost use Rattle.layouts.specs.Primitive.{number_bytes, pad_of};
ghost use Rattle.layouts.specs.Writers.{string_bytes};
ghost use Rattle.writers_output.specs.Placed.{placed};

use layouts::Refusal;

// The length of what was written at the start of the lent bytes, or a refusal, which leaves them as they were.
pub type Written = Result<usize, Refusal>;

// Do n bytes fit at a place?
pub fn has_room(size: usize, at: usize, n: usize) -> bool
    ensures { result ≡ leb (at + n) size }
{
    if at <= size {
        return n <= size - at;
    }
    false
}

pub fn put(out: &mut [u8], at: usize, c: &[u8])
    ensures { out.new ≡ placed at c.now out.old }
{
    if has_room(out.len(), at, c.len()) {
        out[at..at + c.len()].copy_from_slice(c);
        return;
    }
}

pub fn put_number(out: &mut [u8], at: usize, x: u64)
    ensures { out.new ≡ placed at (number_bytes x) out.old }
{
    if has_room(out.len(), at, 8) {
        numbers::write(&mut out[at..], x);
        return;
    }
}

fn put_padding(out: &mut [u8], at: usize, n: usize)
    ensures { out.new ≡ placed at (replicate (pad_of n) 0) out.old }
{
    let zeros = [0u8; 8];
    let k = pieces::padding(n);
    put(out, at, &zeros[..k]);
}

// The length of c, then c.
pub fn put_counted(out: &mut [u8], at: usize, c: &[u8])
    ensures { out.new ≡ placed at (number_bytes (length c.now) ++ c.now) out.old }
{
    let n = c.len();
    if has_room(out.len(), at, 8 + n) {
        put_number(out, at, n as u64);
        put(out, at + 8, c);
        return;
    }
}

// How many bytes c takes as a string.
pub fn string_length(c: &[u8]) -> usize
    ensures { result ≡ length (string_bytes c.now) }
{
    let n = c.len();
    8 + n + pieces::padding(n)
}

pub fn put_string(out: &mut [u8], at: usize, c: &[u8])
    ensures { out.new ≡ placed at (string_bytes c.now) out.old }
{
    if has_room(out.len(), at, string_length(c)) {
        let n = c.len();
        put_counted(out, at, c);
        put_padding(out, at + 8 + n, n);
        return;
    }
}

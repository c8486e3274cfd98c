#![tactic(auto)]
// Writers of numbers, strings and framed data. Each puts its whole output at the start of the lent bytes and answers its length, or refuses and changes nothing.
ghost use Rattle.std.specs.Prelude.{◌≡◌, ◌≤◌, ◌<◌, length};
ghost use Rattle.layouts.specs.Primitive.{little_end, number_bytes};
ghost use Rattle.layouts.specs.Judge.{lent_after};
ghost use Rattle.layouts.specs.Writers.{writing, string_bytes, framed_bytes, write_string};
ghost use Rattle.writers_output.specs.Answer.{meaning, after_writing};
ghost use Rattle.writers_output.specs.Placed.{placed};
ghost use Rattle.writers.specs.Framed.{framed_length};

pub use writers_output::Written;
pub use writers_sets::write_string_set;
pub use writers_texts::{write_mode, write_overrides, write_paths};

pub fn write_u64(out: &mut [u8], x: u64) -> Written
    ensures answer { meaning result ≡ writing (number_bytes x) out.old }
    ensures lent { out.new ≡ after_writing (number_bytes x) out.old }
{
    if numbers::write(out, x) {
        return Ok(8);
    }
    Err(layouts::refuse(layouts::OUTPUT_FULL, 0))
}

pub fn write_u32(out: &mut [u8], x: u32) -> Written
    ensures answer { meaning result ≡ writing (little_end 4 x) out.old }
    ensures lent { out.new ≡ after_writing (little_end 4 x) out.old }
{
    if numbers::write_four(out, x as u64) {
        return Ok(4);
    }
    Err(layouts::refuse(layouts::OUTPUT_FULL, 0))
}

pub fn write_bytes(out: &mut [u8], c: &[u8]) -> Written
    ensures answer { meaning result ≡ writing (string_bytes c.now) out.old }
    ensures lent { out.new ≡ after_writing (string_bytes c.now) out.old }
{
    let n = writers_output::string_length(c);
    if out.len() < n {
        return Err(layouts::refuse(layouts::OUTPUT_FULL, 0));
    }
    writers_output::put_string(out, 0, c);
    Ok(n)
}

pub fn write_string(out: &mut [u8], c: &[u8]) -> Written
    ensures answer { meaning result ≡ write_string c.now out.old }
    ensures lent { out.new ≡ lent_after (write_string c.now out.old) (string_bytes c.now) out.old }
{
    if text::is_text(c) {
        return write_bytes(out, c);
    }
    Err(layouts::refuse(layouts::BAD_TEXT, 0))
}

// Eight bytes before each chunk, and the zero at the end.
fn framed_length(n: usize) -> usize
    requires { n < 9223372036854775808 }
    ensures { result ≡ framed_length n }
{
    n + 8 * ((n + 32767) / 32768) + 8
}

// How many bytes c takes as framed data.
pub fn framed_size(c: &[u8]) -> usize
    ensures { result ≡ length (framed_bytes c.now) }
{
    framed_length(c.len())
}

fn put_framed(out: &mut [u8], c: &[u8])
    requires { length (framed_bytes c.now) ≤ length out.old }
    ensures { out.new ≡ placed 0 (framed_bytes c.now) out.old }
{
    let mut at = 0;
    for chunk in c.chunks(32768) {
        writers_output::put_counted(out, at, chunk);
        at += 8 + chunk.len();
    }
    writers_output::put_number(out, at, 0);
}

pub fn write_framed(out: &mut [u8], c: &[u8]) -> Written
    ensures answer { meaning result ≡ writing (framed_bytes c.now) out.old }
    ensures lent { out.new ≡ after_writing (framed_bytes c.now) out.old }
{
    let n = framed_length(c.len());
    if out.len() < n {
        return Err(layouts::refuse(layouts::OUTPUT_FULL, 0));
    }
    put_framed(out, c);
    Ok(n)
}

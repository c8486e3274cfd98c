#![tactic(auto)]
// Texts that are made of numbers: a mode, "N paths", "N overrides". Each is put at the start of the lent bytes, or refused.
ghost use Rattle.std.specs.Prelude.{◌≡◌, ◌++◌, ◌≤◌, length, drop};
ghost use Rattle.layouts.specs.Writers.{writing, decimal, mode_text, paths_text, overrides_text};
ghost use Rattle.writers_output.specs.Answer.{meaning, after_writing};

use writers_output::Written;

// a, then b.
fn write_two(out: &mut [u8], a: &[u8], b: &[u8]) -> Written
    ensures answer { meaning result ≡ writing (a.now ++ b.now) out.old }
    ensures lent { out.new ≡ after_writing (a.now ++ b.now) out.old }
{
    let n = a.len() + b.len();
    if out.len() < n {
        return Err(layouts::refuse(layouts::OUTPUT_FULL, 0));
    }
    writers_output::put(out, 0, a);
    writers_output::put(out, a.len(), b);
    Ok(n)
}

// The decimal digits of n, at the end of `text`; where they start. (A proof is not told the length of an array behind a reference.)
fn digits(text: &mut [u8; 20], n: u64) -> usize
    requires { length text.old ≡ 20 }
    ensures { (result ≤ 20) × (length text.new ≡ 20) × (drop result text.new ≡ decimal n) }
{
    let mut x = n;
    for i in (0..20).rev() {
        text[i] = (48 + x % 10) as u8;
        if x < 10 {
            return i;
        }
        x /= 10;
    }
    0
}

// n in decimal, then b.
fn write_decimal(out: &mut [u8], n: u64, b: &[u8]) -> Written
    ensures answer { meaning result ≡ writing (decimal n ++ b.now) out.old }
    ensures lent { out.new ≡ after_writing (decimal n ++ b.now) out.old }
{
    let mut text = [0u8; 20];
    let i = digits(&mut text, n);
    write_two(out, &text[i..], b)
}

pub fn write_mode(out: &mut [u8], n: u64) -> Written
    ensures answer { meaning result ≡ writing (mode_text n) out.old }
    ensures lent { out.new ≡ after_writing (mode_text n) out.old }
{
    if n == 0 {
        return write_two(out, b"normal", b"");
    }
    if n == 1 {
        return write_two(out, b"repair", b"");
    }
    if n == 2 {
        return write_two(out, b"check", b"");
    }
    write_decimal(out, n, b"")
}

pub fn write_paths(out: &mut [u8], n: u64) -> Written
    ensures answer { meaning result ≡ writing (paths_text n) out.old }
    ensures lent { out.new ≡ after_writing (paths_text n) out.old }
{
    write_decimal(out, n, b" paths")
}

pub fn write_overrides(out: &mut [u8], n: u64) -> Written
    ensures answer { meaning result ≡ writing (overrides_text n) out.old }
    ensures lent { out.new ≡ after_writing (overrides_text n) out.old }
{
    write_decimal(out, n, b" overrides")
}

#![tactic(auto)]
// Strings in a row, as a set or pairs have them: `pend` of them, and then `left` times `extra` + 1.
ghost use Rattle.std.specs.Prelude.{◌≡◌, ◌≤◌, length};
ghost use Rattle.layouts.specs.Shape.{Role};
ghost use Rattle.walk_strings.specs.Strings.{series, after_next, Passes, PastFrom, Strides, Expected};

use layouts::Refusal;
use pieces::Text;

// From so many bytes a string on, a length is seldom in the first-level cache when its turn comes.
const LONG: usize = 256;

// What is left of a series after its next string.
#[derive(Clone, Copy)]
pub struct More {
    pub pend: u64,
    pub left: u64,
}

// `None` where the series has no string more.
pub fn after_next(pend: u64, extra: u64, left: u64) -> Option<More>
    ensures { result ≡ after_next pend extra left }
{
    if 0 < pend {
        return Some(More {
            pend: pend - 1,
            left,
        });
    }
    if 0 < left {
        return Some(More {
            pend: extra,
            left: left - 1,
        });
    }
    None
}

// A long string, as long as the last one, which took so many bytes with its length and padding: then the place after it waits for no load. Short ones differ in
// length, and a wrong guess costs more than a load.
fn is_expected(s: &[u8], at: usize, expected: usize, step: usize) -> bool
    requires { Strides expected step }
    ensures { Expected s.now at expected step result }
{
    if step < LONG {
        return false;
    }
    if s.len() < at {
        return false;
    }
    if s.len() - at < step {
        return false;
    }
    match pieces::number_at(s, at) {
        None => false,
        Some(n) => n == expected as u64,
    }
}

// Where the series ends, or its first refusal. No contents are looked at.
pub fn pass(s: &[u8], from: usize, pend: u64, extra: u64, left: u64) -> Result<usize, Refusal>
    ensures law { (m : Role) → Passes s.now from (series m pend extra left) result }
    ensures on { PastFrom from result }
{
    let mut at = from;
    let mut p = pend;
    let mut l = left;
    let mut expected: usize = 0;
    let mut step: usize = 0;
    while let Some(more) = after_next(p, extra, l) {
        if is_expected(s, at, expected, step) {
            at += step;
        } else {
            match pieces::text_at(s, at)? {
                Text::Half { start, len } => {
                    return Err(layouts::refuse(layouts::CUT_SHORT, start + len));
                }
                Text::Whole {
                    start: _,
                    len,
                    next,
                } => {
                    step = next - at;
                    at = next;
                    expected = len;
                }
            }
        }
        p = more.pend;
        l = more.left;
    }
    Ok(at)
}

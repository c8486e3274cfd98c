#![tactic(auto)]
// Numbers of eight and of four bytes at the start of a part, read and written. The bytes are put together and taken apart one by one; LLVM makes one load or one
// store of that.
ghost use Rattle.std.specs.Prelude.{◌≡◌, ◌≤◌, ◌<◌, length};
ghost use Rattle.layouts.specs.Primitive.{little_at};
ghost use Rattle.numbers.specs.Number.{number_of, four_of};
ghost use Rattle.numbers.specs.Stored.{wrote, stored};

pub fn wide(b: u8) -> u64
    ensures { (result ≡ b) × (result < 256) }
{
    b as u64
}

fn four(s: &[u8]) -> u64
    requires { 4 ≤ length s.now }
    ensures { (result ≡ little_at 4 s.now 0) × (result < 4294967296) }
{
    wide(s[0]) + 256 * (wide(s[1]) + 256 * (wide(s[2]) + 256 * wide(s[3])))
}

// By `|` and `<<`, which stay one load in a caller that asks for the number's last bits too; sums and products fall apart there.
fn eight(s: &[u8]) -> u64
    requires { 8 ≤ length s.now }
    ensures { result ≡ little_at 8 s.now 0 }
{
    wide(s[0])
        | (wide(s[1]) << 8)
        | (wide(s[2]) << 16)
        | (wide(s[3]) << 24)
        | (wide(s[4]) << 32)
        | (wide(s[5]) << 40)
        | (wide(s[6]) << 48)
        | (wide(s[7]) << 56)
}

// The number that s begins with.
pub fn read(s: &[u8]) -> Option<u64>
    ensures { result ≡ number_of s.now }
{
    if s.len() < 8 {
        return None;
    }
    Some(eight(s))
}

// The u32 that s begins with.
pub fn read_four(s: &[u8]) -> Option<u64>
    ensures { result ≡ four_of s.now }
{
    if s.len() < 4 {
        return None;
    }
    Some(four(s))
}

// The four low bytes of x, where they fit; else nothing is changed.
pub fn write_four(out: &mut [u8], x: u64) -> bool
    ensures done { result ≡ wrote 4 out.old }
    ensures out { out.new ≡ stored 4 x out.old }
{
    if out.len() < 4 {
        return false;
    }
    let y1 = x / 256;
    let y2 = y1 / 256;
    let y3 = y2 / 256;
    out[0] = (x % 256) as u8;
    out[1] = (y1 % 256) as u8;
    out[2] = (y2 % 256) as u8;
    out[3] = (y3 % 256) as u8;
    true
}

// The eight bytes of x, where they fit; else nothing is changed.
pub fn write(out: &mut [u8], x: u64) -> bool
    ensures done { result ≡ wrote 8 out.old }
    ensures out { out.new ≡ stored 8 x out.old }
{
    if out.len() < 8 {
        return false;
    }
    let x1 = x / 256;
    let x2 = x1 / 256;
    let x3 = x2 / 256;
    let x4 = x3 / 256;
    let x5 = x4 / 256;
    let x6 = x5 / 256;
    let x7 = x6 / 256;
    out[0] = (x % 256) as u8;
    out[1] = (x1 % 256) as u8;
    out[2] = (x2 % 256) as u8;
    out[3] = (x3 % 256) as u8;
    out[4] = (x4 % 256) as u8;
    out[5] = (x5 % 256) as u8;
    out[6] = (x6 % 256) as u8;
    out[7] = (x7 % 256) as u8;
    true
}

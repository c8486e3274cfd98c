#![tactic(auto)]
// Judges whether bytes are text, by RFC 3629. `specs/Prefix.antt` has what the contracts cite; `proofs/Meaning.antt` proves that it is the
// RFC's grammar, `specs/Rfc3629.antt`.
ghost use Rattle.std.specs.Prelude.{◌≤◌, ◌<◌, ◌≡◌, true, cond, [], ◌∷◌, T, length, get_or};
ghost use Rattle.text.specs.Rfc3629.{Text, Judged};
ghost use Rattle.text.specs.Prefix.{low, high, second, tail, is_two, is_three, is_four, longer, char_length, good_prefix, all_plain, PlainFor, Step};

use text_states::run_states;

// The highest bit of each of eight bytes: set in none that is ASCII.
const HIGH_BITS: u64 = 0x8080_8080_8080_8080;

fn pick(test: bool, x: u8, y: u8) -> u8
    ensures { result ≡ cond test x y }
{
    if test {
        return x;
    }
    y
}

fn lowest(a: u8) -> u8
    ensures { result ≡ low a }
{
    pick(a == 0xE0, 0xA0, pick(a == 0xF0, 0x90, 0x80))
}

fn highest(a: u8) -> u8
    ensures { result ≡ high a }
{
    pick(a == 0xED, 0x9F, pick(a == 0xF4, 0x8F, 0xBF))
}

// May b come second, after a?
fn is_second(a: u8, b: u8) -> bool
    ensures { result ≡ second a b }
{
    (lowest(a) <= b) & (b <= highest(a))
}

fn is_tail(b: u8) -> bool
    ensures { result ≡ tail b }
{
    (0x80 <= b) & (b <= 0xBF)
}

fn is_two(a: u8, b: u8) -> bool
    ensures { result ≡ is_two a b }
{
    (0xC2 <= a) & (a <= 0xDF) & is_tail(b)
}

fn is_three(a: u8, b: u8, c: u8) -> bool
    ensures { result ≡ is_three a b c }
{
    (0xE0 <= a) & (a <= 0xEF) & is_second(a, b) & is_tail(c)
}

fn is_four(a: u8, b: u8, c: u8, d: u8) -> bool
    ensures { result ≡ is_four a b c d }
{
    (0xF0 <= a) & (a <= 0xF4) & is_second(a, b) & is_tail(c) & is_tail(d)
}

// How many of the bytes a character of two, three or four takes that they begin with, or 0.
fn longer_length(a: u8, b: u8, c: u8, d: u8) -> usize
    ensures { result ≡ longer a b c d }
{
    if is_two(a, b) {
        return 2;
    }
    if is_three(a, b, c) {
        return 3;
    }
    if is_four(a, b, c, d) {
        return 4;
    }
    0
}

// The byte at i, or 0 past the end.
fn at(s: &[u8], i: usize) -> u8
    ensures { result ≡ get_or s.now i 0 }
{
    if i < s.len() {
        return s[i];
    }
    0
}

// How many bytes the character takes that s begins with, or 0.
fn char_length(s: &[u8]) -> usize
    ensures { result ≡ char_length s.now }
{
    if s.len() == 0 {
        return 0;
    }
    let a = s[0];
    if a <= 0x7F {
        return 1;
    }
    longer_length(a, at(s, 1), at(s, 2), at(s, 3))
}

// Are these bytes ASCII? Put together by `|` and `<<` they become one load where they stand side by side; by `+` and `*` they do not.
fn plain_word(a: u8, b: u8, c: u8, d: u8, e: u8, f: u8, g: u8, h: u8) -> bool
    ensures { result ≡ true → T (all_plain (a ∷ b ∷ c ∷ d ∷ e ∷ f ∷ g ∷ h ∷ [])) }
{
    let w = (a as u64)
        | ((b as u64) << 8)
        | ((c as u64) << 16)
        | ((d as u64) << 24)
        | ((e as u64) << 32)
        | ((f as u64) << 40)
        | ((g as u64) << 48)
        | ((h as u64) << 56);
    w & HIGH_BITS == 0
}

// Does s begin with eight bytes of ASCII?
fn eight_plain(s: &[u8]) -> bool
    ensures { result ≡ true → PlainFor 8 s.now }
{
    if s.len() < 8 {
        return false;
    }
    plain_word(s[0], s[1], s[2], s[3], s[4], s[5], s[6], s[7])
}

// The same of 32 bytes: long text goes by in these. The tests are joined by `&`, so that they become one.
fn many_plain(s: &[u8]) -> bool
    ensures { result ≡ true → PlainFor 32 s.now }
{
    if s.len() < 32 {
        return false;
    }
    eight_plain(s) & eight_plain(&s[8..]) & eight_plain(&s[16..]) & eight_plain(&s[24..])
}

// How far to go on: past 32 or eight bytes of ASCII or past one character; 0 where s begins with none.
fn step(s: &[u8]) -> usize
    ensures { Step s.now result }
{
    if many_plain(s) {
        return 32;
    }
    if eight_plain(s) {
        return 8;
    }
    char_length(s)
}

// How many bytes of ASCII s begins with, as far as they fill 32.
fn plain_length(s: &[u8]) -> usize
    ensures { PlainFor result s.now }
{
    let mut n = 0;
    while many_plain(&s[n..]) {
        n += 32;
    }
    n
}

fn sixteen_plain(s: &[u8]) -> bool
    ensures { result ≡ true → PlainFor 16 s.now }
{
    if s.len() < 16 {
        return false;
    }
    eight_plain(s) & eight_plain(&s[8..])
}

// Is all of a short s ASCII? It is looked at from its start and from its end, where the two may overlap.
fn short_plain(s: &[u8]) -> bool
    ensures { result ≡ true → PlainFor (length s.now) s.now }
{
    let len = s.len();
    if len < 8 {
        return false;
    }
    if len <= 16 {
        return eight_plain(s) & eight_plain(&s[len - 8..]);
    }
    if 32 < len {
        return false;
    }
    sixteen_plain(s) & sixteen_plain(&s[len - 16..])
}

// Is s ASCII behind its first n bytes too? One look tells where they fill 32 as far as they can: the last 32 may overlap them.
fn ends_plain(s: &[u8], n: usize) -> bool
    requires { PlainFor n s.now }
    ensures { result ≡ true → PlainFor (length s.now) s.now }
{
    let len = s.len();
    if len < 32 {
        return short_plain(s);
    }
    if n < len - 32 {
        return false;
    }
    many_plain(&s[len - 32..])
}

// Where the bytes end that the machine goes over at once, from i on: 16, or what is left.
fn block_end(i: usize, len: usize) -> usize
    requires { i < len }
    ensures { (i < result) × (result ≤ len) }
{
    if len - i < 16 {
        return len;
    }
    i + 16
}

// `true` says that all of s is text, `false` says nothing. What is ASCII from end to end, as most is, goes by in a loop of its own, the shortest. Else ASCII between
// characters goes by in 32 and in eight bytes, and the rest through the machine of `text_states`, which branches on no byte.
fn surely_text(s: &[u8]) -> bool
    ensures { result ≡ true → Text s.now }
{
    let n = plain_length(s);
    if ends_plain(s, n) {
        return true;
    }
    let mut i = n;
    let mut state = 0;
    while i < s.len() {
        if (state == 0) & many_plain(&s[i..]) {
            i += 32;
        } else if (state == 0) & eight_plain(&s[i..]) {
            i += 8;
        } else {
            let end = block_end(i, s.len());
            state = run_states(state, &s[i..end]);
            i = end;
        }
    }
    state == 0
}

// The length of the longest beginning of s that is text, character by character.
fn first_wrong(s: &[u8]) -> usize
    ensures { result ≡ good_prefix s.now }
{
    let mut i = 0;
    while i < s.len() {
        let n = step(&s[i..]);
        if n == 0 {
            return i;
        }
        i += n;
    }
    i
}

// The length of the longest beginning of s that is text: below s's length, it is the place of the first byte that begins no character.
pub fn text_end(s: &[u8]) -> usize
    ensures { result ≡ good_prefix s.now }
{
    if surely_text(s) {
        return s.len();
    }
    first_wrong(s)
}

// Is all of s text?
pub fn is_text(s: &[u8]) -> bool
    ensures { Judged result s.now }
{
    if text_end(s) == s.len() {
        return true;
    }
    false
}

#![tactic(auto)]
// Both handshakes: turns on two streams, each from where the last turn on that stream ended. All turns are judged in their order, without a write to lent memory but for
// the numbers, and only then are the entries filled in, as numbers or as bytes. A turn's fields are read one by one and not by the table: a handshake is short, and to go
// through the table would take most of its time. A version is one number, 256 * major + minor.
ghost use Rattle.std.specs.Prelude.{◌≡◌, List, [], ℕ, ◌-◌, ◌/◌, ◌<◌, ◌≤◌, leb, length, set};
ghost use Rattle.std.proofs.lemmas.List.Edits.{sets};
ghost use Rattle.layouts.specs.declared.Record.{Record};
ghost use Rattle.layouts.specs.Primitive.{pick, version, from_wire, smaller, refused};
ghost use Rattle.layouts.specs.Shape.{Tree, ask, dropped, as_number, kept, num, str, maybe, gated};
ghost use Rattle.layouts.specs.Pieces.{run};
ghost use Rattle.layouts.specs.Judge.{judge_of};
ghost use Rattle.layouts.specs.Handshake.{hello, greeting, handshake, daemon_greeting, daemon_handshake, versions};
ghost use Rattle.table.specs.Table.{version_in};
ghost use Rattle.walk_take.specs.Taking.{Takes};
ghost use Rattle.walk_judge.specs.Judged.{answer_of, answer_as};
ghost use Rattle.writers_output.specs.Numbers.{bytes_of};
ghost use Rattle.handshake.specs.Turns.{hello_to, JudgesFeatures, Passed, trust_to, JudgesInfo, told_of, start, met_at};
ghost use Rattle.handshake.specs.Greeted.{kept_by, GreetsBoth, GreetsAlone, both_filled, alone_filled, both_read, alone_read};

use layouts::Refusal;
use walk_items::Layout;
use walk_judge::{Answer, Said};
use walk_rooms::Room;
use walk_take::Series;

const WORKER_MAGIC_1: u64 = 0x6e697863;

const WORKER_MAGIC_2: u64 = 0x6478696f;

const STDERR_LAST: u64 = 0x616c7473;

// From which version on a field is there.
const RESERVES_SPACE: u64 = 0x10B;

const HAS_AFFINITY: u64 = 0x10E;

const SAYS_VERSION: u64 = 0x121;

const SAYS_TRUST: u64 = 0x123;

const HAS_FEATURES: u64 = 0x126;

// The streams, as a refusal names them.
const CLIENT: u64 = 0;

const DAEMON: u64 = 1;

// Where a hello ends.
const HELLO_END: usize = 16;

#[derive(Clone, Copy)]
struct Hello {
    magic: u64,
    wire: u64,
}

// Where features end, the entries then, and how many features there are.
#[derive(Clone, Copy)]
struct Features {
    at: usize,
    entries: usize,
    count: u64,
}

// 0 where the daemon does not say whether it trusts the client.
#[derive(Clone, Copy)]
struct Trust {
    at: usize,
    trust: u64,
}

// Where the daemon's last turn ends, the entries then, and its numbers.
#[derive(Clone, Copy)]
struct Info {
    at: usize,
    entries: usize,
    trust: u64,
    last: u64,
}

// What is said, and for the one who fills: the layouts of the turns that keep strings, and where the last of them begins.
#[derive(Drop)]
struct Greeted {
    said: Result<Said, Refusal>,
    offers: Layout,
    features: Layout,
    info: Layout,
    info_at: usize,
}

// Magic and version.
fn judge_hello(s: &[u8]) -> Result<Hello, Refusal>
    ensures { (slots : ℕ) (x : Record) (i j : ℕ) → judge_of s.now slots 0 x (run (hello i j) s.now 0) ≡ hello_to x i j result }
{
    let magic = pieces::number_or_cut(s, 0)?;
    let wire = pieces::number_or_cut(s, 8)?;
    Ok(Hello { magic, wire })
}

// The features of one side, with n entries before them.
fn judge_features(
    s: &[u8],
    at: usize,
    v: u64,
    slots: usize,
    n: usize,
    window: &mut [u64; 16],
) -> Result<Features, Refusal>
    ensures { JudgesFeatures s.now slots at v n window.old window.new result }
{
    if v < HAS_FEATURES {
        return Ok(Features {
            at,
            entries: n,
            count: 0,
        });
    }
    let count = pieces::number_or_cut(s, at)?;
    let k = walk_take::judge_series(s, at + 8, table::KEPT, 0, 0, count, slots, n, window)?;
    Ok(Features {
        at: k.at,
        entries: k.entries,
        count,
    })
}

// A number that is dropped.
fn pass_number(s: &[u8], at: usize) -> Result<usize, Refusal>
    ensures { Passed s.now at (λ k. ask dropped (λ v. k tt)) result }
{
    pieces::number_or_cut(s, at)?;
    Ok(at + 8)
}

// Whether an affinity is set, and if so a number that says it.
fn pass_affinity(s: &[u8], at: usize, v: u64) -> Result<usize, Refusal>
    ensures { Passed s.now at (gated (leb 270 v) maybe) result }
{
    if v < HAS_AFFINITY {
        return Ok(at);
    }
    let x = pieces::number_or_cut(s, at)?;
    if x == 0 {
        return Ok(at + 8);
    }
    pass_number(s, at + 8)
}

// The numbers of the client that mean nothing any more.
fn pass_obsolete(s: &[u8], at: usize, v: u64) -> Result<usize, Refusal>
    ensures { Passed s.now at (λ k. gated (leb 270 v) maybe (λ u. gated (leb 267 v) (num dropped) k)) result }
{
    let next = pass_affinity(s, at, v)?;
    if v < RESERVES_SPACE {
        return Ok(next);
    }
    pass_number(s, next)
}

// The daemon's version string.
fn judge_version(
    s: &[u8],
    at: usize,
    v: u64,
    slots: usize,
    n: usize,
    window: &mut [u64; 16],
) -> Result<Series, Refusal>
    ensures { Takes s.now slots at (gated (leb 289 v) (str kept)) window.old n window.new result }
{
    if v < SAYS_VERSION {
        return Ok(Series { at, entries: n });
    }
    walk_take::judge_text(s, at, table::KEPT, slots, n, window)
}

fn judge_trust(s: &[u8], at: usize, v: u64) -> Result<Trust, Refusal>
    ensures { (slots : ℕ) (k : Unit {0} → Tree) (x : Record) → set x.numbers 4 0 ≡ x.numbers
        → judge_of s.now slots 0 x (run (gated (leb 291 v) (num (as_number 4)) k) s.now at) ≡ trust_to s.now slots x k result }
{
    if v < SAYS_TRUST {
        return Ok(Trust { at, trust: 0 });
    }
    let trust = pieces::number_or_cut(s, at)?;
    Ok(Trust { at: at + 8, trust })
}

// What the daemon says last, after its version string, which was judged so. With `judge_version` in it this function would stay out of line in both callers.
fn judge_info(t: Result<Series, Refusal>, s: &[u8], v: u64) -> Result<Info, Refusal>
    ensures { (slots at n : ℕ) (w w' : List ℕ) → Takes s.now slots at (gated (leb 289 v) (str kept)) w n w' t → JudgesInfo s.now slots at v n w w' result }
{
    let told = t?;
    let h = judge_trust(s, told.at, v)?;
    let last = pieces::number_or_cut(s, h.at)?;
    Ok(Info {
        at: h.at + 8,
        entries: told.entries,
        trust: h.trust,
        last,
    })
}

fn bit(b: bool) -> u64
    ensures { result ≡ pick b 1 0 }
{
    if b {
        return 1;
    }
    0
}

// The versions of both sides, the negotiated one, whether the daemon's version string and trust are there, trust.
fn versions(c: u64, d: u64, trust: u64) -> [u64; 12]
    ensures { result ≡ versions (version_in c) (version_in d) trust }
{
    let v = c.min(d);
    let has_version = bit(SAYS_VERSION <= v);
    let has_trust = bit(SAYS_TRUST <= v);
    [
        c / 256,
        c % 256,
        d / 256,
        d % 256,
        v / 256,
        v % 256,
        has_version,
        has_trust,
        trust,
        0,
        0,
        0,
    ]
}

// A refusal, which names its stream.
fn refuse_on(
    r: Refusal,
    stream: u64,
    numbers: &mut [u64; 12],
    counts: &mut [u64; 3],
) -> Result<Said, Refusal>
    ensures { answer_of result numbers.new counts.new ≡ answer_as (refused r.which r.place stream) }
{
    walk_judge::refuse(
        Refusal {
            which: r.which,
            place: r.place,
            stream,
        },
        numbers,
        counts,
    )
}

// The same for one who fills: there is nothing to fill in.
fn stop(r: Refusal, stream: u64, numbers: &mut [u64; 12], counts: &mut [u64; 3]) -> Greeted
    ensures { answer_of result.said numbers.new counts.new ≡ answer_as (refused r.which r.place stream) }
{
    Greeted {
        said: refuse_on(r, stream, numbers, counts),
        offers: 0,
        features: 0,
        info: 0,
        info_at: 0,
    }
}

// What is answered after the daemon's last turn, where c and d are the versions, and the client's stream ends at a place. The last number has to be Last.
fn tell(
    i: Result<Info, Refusal>,
    c: u64,
    d: u64,
    offered: u64,
    featured: u64,
    ends: usize,
    numbers: &mut [u64; 12],
    counts: &mut [u64; 3],
) -> Result<Said, Refusal>
    ensures { answer_of result numbers.new counts.new ≡ answer_as (told_of (version_in c) (version_in d) offered featured ends i) }
{
    match i {
        Err(r) => refuse_on(r, DAEMON, numbers, counts),
        Ok(k) => {
            if k.last == STDERR_LAST {
                *numbers = versions(c, d, k.trust);
                *counts = [offered, featured, 0];
                return Ok(Said {
                    kind: 0,
                    ends,
                    ends2: k.at,
                    entries: k.entries,
                    payload: 0,
                    present: false,
                });
            }
            refuse_on(
                layouts::refuse(layouts::NOT_LAST, k.at.saturating_sub(8)),
                DAEMON,
                numbers,
                counts,
            )
        }
    }
}

// What follows the magics of both sides, whose versions are c and d.
fn greet(
    client: &[u8],
    daemon: &[u8],
    c: u64,
    d: u64,
    slots: usize,
    window: &mut [u64; 16],
    numbers: &mut [u64; 12],
    counts: &mut [u64; 3],
) -> Greeted
    requires { d < 65536 }
    ensures { (m1 w1 m2 w2 : ℕ) → version_in c ≡ from_wire w1 → version_in d ≡ from_wire w2
        → GreetsBoth (greeting (smaller (from_wire w1) (from_wire w2))) (met_at m1 w1 m2 w2 0 0 0 16 16) client.now daemon.now slots window.old
        result numbers.new counts.new window.new }
{
    let v = c.min(d);
    let f = match judge_features(client, HELLO_END, v, slots, 0, window) {
        Err(r) => return stop(r, CLIENT, numbers, counts),
        Ok(offers) => offers,
    };
    let g = match judge_features(daemon, HELLO_END, v, slots, f.entries, window) {
        Err(r) => return stop(r, DAEMON, numbers, counts),
        Ok(features) => features,
    };
    let ends = match pass_obsolete(client, f.at, v) {
        Err(r) => return stop(r, CLIENT, numbers, counts),
        Ok(place) => place,
    };
    let t = judge_version(daemon, g.at, v, slots, g.entries, window);
    let i = judge_info(t, daemon, v);
    let said = tell(i, c, d, f.count, g.count, ends, numbers, counts);
    let major = (v / 256) as u16;
    let minor = (v % 256) as u8;
    Greeted {
        said,
        offers: walk_items::layout(major, minor, table::FEATURES_CLIENT),
        features: walk_items::layout(major, minor, table::FEATURES_DAEMON),
        info: walk_items::layout(major, minor, table::INFO),
        info_at: g.at,
    }
}

// Both streams, each from its start, with so many slots for entries.
fn judge_handshake(
    client: &[u8],
    daemon: &[u8],
    slots: usize,
    window: &mut [u64; 16],
    numbers: &mut [u64; 12],
    counts: &mut [u64; 3],
) -> Greeted
    ensures { GreetsBoth handshake start client.now daemon.now slots window.old result numbers.new counts.new window.new }
{
    let a = match judge_hello(client) {
        Err(r) => return stop(r, CLIENT, numbers, counts),
        Ok(asks) => asks,
    };
    let b = match judge_hello(daemon) {
        Err(r) => return stop(r, DAEMON, numbers, counts),
        Ok(tells) => tells,
    };
    if a.magic != WORKER_MAGIC_1 {
        return stop(
            layouts::refuse(layouts::CLIENT_MAGIC_WRONG, 0),
            CLIENT,
            numbers,
            counts,
        );
    }
    if b.magic != WORKER_MAGIC_2 {
        return stop(
            layouts::refuse(layouts::DAEMON_MAGIC_WRONG, 0),
            DAEMON,
            numbers,
            counts,
        );
    }
    greet(
        client,
        daemon,
        a.wire % 65536,
        b.wire % 65536,
        slots,
        window,
        numbers,
        counts,
    )
}

// What follows the daemon's magic, against a client of version c.
fn greet_alone(
    daemon: &[u8],
    c: u64,
    d: u64,
    slots: usize,
    window: &mut [u64; 16],
    numbers: &mut [u64; 12],
    counts: &mut [u64; 3],
) -> Greeted
    requires { d < 65536 }
    ensures { (m2 w2 : ℕ) → version_in d ≡ from_wire w2
        → GreetsAlone (version_in c) (daemon_greeting (smaller (version_in c) (from_wire w2))) (met_at 0 0 m2 w2 0 0 0 0 16) daemon.now slots window.old
        result numbers.new counts.new window.new }
{
    let v = c.min(d);
    let g = match judge_features(daemon, HELLO_END, v, slots, 0, window) {
        Err(r) => return stop(r, DAEMON, numbers, counts),
        Ok(features) => features,
    };
    let t = judge_version(daemon, g.at, v, slots, g.entries, window);
    let i = judge_info(t, daemon, v);
    let said = tell(i, c, d, 0, g.count, 0, numbers, counts);
    let major = (v / 256) as u16;
    let minor = (v % 256) as u8;
    Greeted {
        said,
        offers: walk_items::layout(major, minor, table::NOTHING),
        features: walk_items::layout(major, minor, table::FEATURES_DAEMON),
        info: walk_items::layout(major, minor, table::INFO),
        info_at: g.at,
    }
}

// The daemon's side alone, against a given client version.
fn judge_daemon_handshake(
    major: u16,
    minor: u8,
    daemon: &[u8],
    slots: usize,
    window: &mut [u64; 16],
    numbers: &mut [u64; 12],
    counts: &mut [u64; 3],
) -> Greeted
    ensures { GreetsAlone (version major minor) (daemon_handshake (version major minor)) start daemon.now slots window.old
        result numbers.new counts.new window.new }
{
    let b = match judge_hello(daemon) {
        Err(r) => return stop(r, DAEMON, numbers, counts),
        Ok(tells) => tells,
    };
    if b.magic != WORKER_MAGIC_2 {
        return stop(
            layouts::refuse(layouts::DAEMON_MAGIC_WRONG, 0),
            DAEMON,
            numbers,
            counts,
        );
    }
    let c = 256 * major as u64 + minor as u64;
    greet_alone(daemon, c, b.wire % 65536, slots, window, numbers, counts)
}

// The turns that keep strings, one after the other: the client's features, the daemon's, and its version string.
fn fill_turns<T: Room>(client: &[u8], daemon: &[u8], g: Greeted, entries: &mut [T])
    ensures { entries.new ≡ sets entries.old 0 (T.laid (kept_by g client.now daemon.now)) }
{
    let n = walk_fill::fill_entries(client, HELLO_END, g.offers, entries, 0);
    let m = walk_fill::fill_entries(daemon, HELLO_END, g.features, entries, n);
    walk_fill::fill_entries(daemon, g.info_at, g.info, entries, m);
}

// Both streams, each from its start. What the window has is not gone through again. `read_alone` ends in the same lines: as one function they would stay out of line.
fn read<T: Room>(
    client: &[u8],
    daemon: &[u8],
    entries: &mut [T],
    numbers: &mut [u64; 12],
    counts: &mut [u64; 3],
) -> Result<Said, Refusal>
    ensures answer { answer_of result numbers.new counts.new
        ≡ (both_filled client.now daemon.now (T.slots entries.old) T.laid entries.old).answer }
    ensures entries { entries.new ≡ (both_filled client.now daemon.now (T.slots entries.old) T.laid entries.old).entries }
{
    let mut window = [0u64; 16];
    let slots = T::slots(entries);
    let g = judge_handshake(client, daemon, slots, &mut window, numbers, counts);
    let said = g.said?;
    if walk_take::WINDOW < said.entries {
        fill_turns(client, daemon, g, entries);
        return Ok(said);
    }
    walk_rooms::put_window(&window, said.entries, entries);
    Ok(said)
}

// The daemon's side alone. Of the client no stream is read: any is lent in its place.
fn read_alone<T: Room>(
    major: u16,
    minor: u8,
    daemon: &[u8],
    entries: &mut [T],
    numbers: &mut [u64; 12],
    counts: &mut [u64; 3],
) -> Result<Said, Refusal>
    ensures answer { answer_of result numbers.new counts.new
        ≡ (alone_filled (version major minor) daemon.now (T.slots entries.old) T.laid entries.old).answer }
    ensures entries { entries.new ≡ (alone_filled (version major minor) daemon.now (T.slots entries.old) T.laid entries.old).entries }
{
    let mut window = [0u64; 16];
    let slots = T::slots(entries);
    let g = judge_daemon_handshake(major, minor, daemon, slots, &mut window, numbers, counts);
    let said = g.said?;
    if walk_take::WINDOW < said.entries {
        fill_turns(daemon, daemon, g, entries);
        return Ok(said);
    }
    walk_rooms::put_window(&window, said.entries, entries);
    Ok(said)
}

// Both streams, each from its start.
pub fn parse_handshake(client: &[u8], daemon: &[u8], entries: &mut [u64]) -> Answer
    ensures answer { result ≡ (both_read client.now daemon.now (length entries.old / 2) (λ x. x) entries.old).answer }
    ensures entries { entries.new ≡ (both_read client.now daemon.now (length entries.old / 2) (λ x. x) entries.old).entries }
{
    let mut numbers = [0u64; 12];
    let mut counts = [0u64; 3];
    let said = read(client, daemon, entries, &mut numbers, &mut counts);
    walk_judge::answer_of(said, numbers, counts)
}

// The same with entries of sixteen bytes, and with the numbers and counts beside what is said.
pub fn parse_handshake_bytes(
    client: &[u8],
    daemon: &[u8],
    entries: &mut [u8],
    numbers: &mut [u64; 12],
    counts: &mut [u64; 3],
) -> Result<Said, Refusal>
    ensures answer { answer_of result numbers.new counts.new
        ≡ (both_read client.now daemon.now (length entries.old / 16) bytes_of entries.old).answer }
    ensures entries { entries.new ≡ (both_read client.now daemon.now (length entries.old / 16) bytes_of entries.old).entries }
{
    read(client, daemon, entries, numbers, counts)
}

// The daemon's side alone, against a given client version.
pub fn parse_daemon_handshake(major: u16, minor: u8, daemon: &[u8], entries: &mut [u64]) -> Answer
    ensures answer { result ≡ (alone_read (version major minor) daemon.now (length entries.old / 2) (λ x. x) entries.old).answer }
    ensures entries { entries.new ≡ (alone_read (version major minor) daemon.now (length entries.old / 2) (λ x. x) entries.old).entries }
{
    let mut numbers = [0u64; 12];
    let mut counts = [0u64; 3];
    let said = read_alone(major, minor, daemon, entries, &mut numbers, &mut counts);
    walk_judge::answer_of(said, numbers, counts)
}

// The same with entries of sixteen bytes, and with the numbers and counts beside what is said.
pub fn parse_daemon_handshake_bytes(
    major: u16,
    minor: u8,
    daemon: &[u8],
    entries: &mut [u8],
    numbers: &mut [u64; 12],
    counts: &mut [u64; 3],
) -> Result<Said, Refusal>
    ensures answer { answer_of result numbers.new counts.new
        ≡ (alone_read (version major minor) daemon.now (length entries.old / 16) bytes_of entries.old).answer }
    ensures entries { entries.new ≡ (alone_read (version major minor) daemon.now (length entries.old / 16) bytes_of entries.old).entries }
{
    read_alone(major, minor, daemon, entries, numbers, counts)
}

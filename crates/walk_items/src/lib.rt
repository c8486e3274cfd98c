#![tactic(auto)]
// The items of a layout, one a call, without a stream: the next field, the flag or count that a group begins with, a place where nothing is read, the end.
// The state is four numbers, which a fold keeps in locals of its own. Any state is an input like any other.
ghost use Rattle.std.specs.Prelude.{◌≡◌, ℕ, true};
ghost use Rattle.layouts.specs.Primitive.{at_least, Version, version};
ghost use Rattle.table.specs.Table.{version_in, group_at};
ghost use Rattle.walk_items.specs.Items.{spoken_of, first_of, version_of, layout_tree, brief_of, Briefly};
ghost use Rattle.walk_items.specs.Items.{begin_item, is_there, group_tree, rest_tree, times_of, item_tree, group_item, after_fields, next_item, Falls};

// Kinds of items besides those of fields, which are below 16: nothing to read; a flag, or a count, that says how often the body comes.
pub const QUIET: u8 = 16;

pub const FLAG: u8 = 17;

pub const COUNT: u8 = 18;

// What chooses a layout: the version that is spoken, as one number, and 2^24 times the first of its groups in the table. A number goes in a register; a struct
// goes through memory, and its reader waits for the narrow stores.
pub type Layout = u64;

const FIRST: u64 = 16777216;

pub fn layout(major: u16, minor: u8, first: u8) -> Layout
    ensures version { version_of result ≡ version major minor }
    ensures first { first_of result ≡ first }
{
    first as u64 * FIRST + major as u64 * 256 + minor as u64
}

pub fn spoken(layout: Layout) -> u64
    ensures { result ≡ spoken_of layout }
{
    layout % FIRST
}

fn first(layout: Layout) -> usize
    ensures { result ≡ first_of layout }
{
    (layout / FIRST) as usize
}

// What comes next, and the state after it: the place of the next field, how often the body comes again, the place of the body, the next group.
#[derive(Clone, Copy)]
pub struct Item {
    pub kind: u8,
    pub role: u8,
    pub target: u8,
    pub pc: usize,
    pub reps: u64,
    pub body: usize,
    pub group: usize,
}

// A layout that needs no fold: no field at all, or a number or a string and no more. More than half of recorded calls have such a one.
#[derive(Clone, Copy)]
pub enum Brief {
    Nothing,
    Number,
    Text,
    Longer,
}

pub fn in_brief(layout: Layout) -> Brief
    ensures said { result ≡ brief_of (first_of layout) }
    ensures law { Briefly (layout_tree layout) result }
{
    let i = first(layout);
    if i == table::NOTHING as usize {
        return Brief::Nothing;
    }
    if i == table::EMPTY_FIELDS as usize {
        return Brief::Nothing;
    }
    if i == table::ONE_NUMBER as usize {
        return Brief::Number;
    }
    if i == table::ONE_STRING as usize {
        return Brief::Text;
    }
    Brief::Longer
}

// A state from which the whole layout is to come: at the first field, where the first group comes once. Before it would do too; short messages are passed a
// tenth faster so.
pub fn begin(layout: Layout) -> Item
    ensures said { result ≡ begin_item (first_of layout) }
    ensures law { rest_tree (version_of layout) result.pc result.reps result.body result.group tt ≡ layout_tree layout }
{
    let i = first(layout);
    let x = table_code::at(i);
    let start = (x / 256) as usize;
    if (x % 4) as u8 == table::ONCE {
        return Item {
            kind: QUIET,
            role: 0,
            target: 0,
            pc: start,
            reps: 0,
            body: start,
            group: i + 1,
        };
    }
    Item {
        kind: QUIET,
        role: 0,
        target: 0,
        pc: table::SIZE,
        reps: 0,
        body: table::SIZE,
        group: i,
    }
}

// The major of every gate, as versions have it in one number.
const ONE: u64 = 256;

// Is a version 1.bound or later? By major, then minor, which is the order of the numbers.
pub fn at_least(spoken: u64, bound: u8) -> bool
    ensures { result ≡ at_least (version_in spoken) (version 1 bound) }
{
    ONE + bound as u64 <= spoken
}

// Is a field with this gate there at a version?
fn is_there(layout: Layout, gate: u8, bound: u8) -> bool
    ensures { result ≡ is_there (version_of layout) gate bound }
{
    if gate == table::ALWAYS {
        return true;
    }
    let reached = at_least(spoken(layout), bound);
    if gate == table::FROM {
        return reached;
    }
    !reached
}

// How often a body comes, by its flag or count.
pub fn times(kind: u8, n: u64) -> u64
    ensures { result ≡ times_of kind n }
{
    if kind == FLAG {
        if n == 0 {
            return 0;
        }
        return 1;
    }
    n
}

// All times done: the next group.
fn next_group(i: usize) -> Item
    ensures said { result ≡ group_item i (group_at i) }
    ensures law { (v : Version) (body : ℕ) → group_tree v 0 body i tt ≡ item_tree v result }
    ensures falls { (pc : ℕ) → Falls pc 0 i result }
{
    let x = table_code::at(i);
    let kind = (x % 4) as u8;
    let target = (x / 4 % 64) as u8;
    let start = (x / 256) as usize;
    if kind == table::END {
        return Item {
            kind: table::END,
            role: 0,
            target: 0,
            pc: table::SIZE,
            reps: 0,
            body: table::SIZE,
            group: i,
        };
    }
    let later = i + 1;
    if kind == table::OPT {
        return Item {
            kind: FLAG,
            role: 0,
            target: target,
            pc: table::SIZE,
            reps: 0,
            body: start,
            group: later,
        };
    }
    if kind == table::MANY {
        return Item {
            kind: COUNT,
            role: 0,
            target: target,
            pc: table::SIZE,
            reps: 0,
            body: start,
            group: later,
        };
    }
    Item {
        kind: QUIET,
        role: 0,
        target: 0,
        pc: start,
        reps: 0,
        body: start,
        group: later,
    }
}

// At the end of a group of fields: once more, or the next group.
fn after_fields(reps: u64, body: usize, group: usize) -> Item
    ensures said { result ≡ after_fields reps body group }
    ensures law { (v : Version) → group_tree v reps body group tt ≡ item_tree v result }
    ensures falls { (pc : ℕ) → Falls pc reps group result }
{
    if 0 < reps {
        return Item {
            kind: QUIET,
            role: 0,
            target: 0,
            pc: body,
            reps: reps - 1,
            body: body,
            group: group,
        };
    }
    next_group(group)
}

pub fn next(layout: Layout, pc: usize, reps: u64, body: usize, group: usize) -> Item
    ensures said { result ≡ next_item (version_of layout) pc reps body group }
    ensures law { rest_tree (version_of layout) pc reps body group tt ≡ item_tree (version_of layout) result }
    ensures falls { Falls pc reps group result }
{
    let x = table_code::at(pc);
    let kind = (x % 16) as u8;
    if kind == table::END {
        return after_fields(reps, body, group);
    }
    let later = pc + 1;
    let gate = (x / 4096 % 4) as u8;
    let bound = (x / 16384 % 256) as u8;
    let here = is_there(layout, gate, bound);
    if !here {
        return Item {
            kind: QUIET,
            role: 0,
            target: 0,
            pc: later,
            reps: reps,
            body: body,
            group: group,
        };
    }
    Item {
        kind: kind,
        role: (x / 16 % 4) as u8,
        target: (x / 64 % 64) as u8,
        pc: later,
        reps: reps,
        body: body,
        group: group,
    }
}

#![tactic(auto)]
// Passing over the items of a layout, whatever they are, without a look at contents.
ghost use Rattle.std.specs.Prelude.{◌≡◌, ℕ, ◌≤◌};
ghost use Rattle.layouts.specs.Primitive.{Version};
ghost use Rattle.layouts.specs.Shape.{Role, Target, ask, say, frames, field};
ghost use Rattle.layouts.specs.Pieces.{run, skip_of};
ghost use Rattle.table.specs.Table.{role_of, target_of, what_of};
ghost use Rattle.walk_strings.specs.Strings.{Passes, PastFrom};
ghost use Rattle.walk_items.specs.Items.{after_number, item_tree, pieces_of};
ghost use Rattle.walk_pass.specs.Passing.{Took, moved_to, MovedOn};
ghost use Rattle.walk_pass.specs.Skip.{skipped};

use layouts::Refusal;
use pieces::{Chunk, Text};
use walk_items::{Item, Layout};

// Where an item ends, and how often the body comes again.
#[derive(Clone, Copy)]
struct Moved {
    at: usize,
    reps: u64,
}

fn pass_number(s: &[u8], at: usize) -> Result<usize, Refusal>
    ensures law { (i : Target) → Passes s.now at (λ k. ask i (λ n. k tt)) result }
    ensures on { Took s.now at result }
{
    pieces::number_or_cut(s, at)?;
    Ok(at + 8)
}

fn pass_text(s: &[u8], at: usize) -> Result<usize, Refusal>
    ensures law { (m : Role) → Passes s.now at (say m) result }
    ensures on { Took s.now at result }
{
    match pieces::text_at(s, at)? {
        Text::Half { start, len } => Err(layouts::refuse(layouts::CUT_SHORT, start + len)),
        Text::Whole {
            start: _,
            len: _,
            next,
        } => Ok(next),
    }
}

// Chunks up to the empty one.
fn pass_frames(s: &[u8], from: usize) -> Result<usize, Refusal>
    ensures law { Passes s.now from frames result }
    ensures on { Took s.now from result }
{
    let mut at = from;
    loop {
        match pieces::chunk_at(s, at)? {
            Chunk::Last(next) => {
                return Ok(next);
            }
            Chunk::Part {
                start: _,
                len: _,
                next,
            } => {
                at = next;
            }
        }
    }
}

// What follows the number of a field. A position is refused at the number itself.
fn pass_after(s: &[u8], at: usize, kind: u8, n: u64) -> Result<usize, Refusal>
    requires { 8 ≤ at }
    ensures law { (role : ℕ) → Passes s.now at (after_number kind role n) result }
    ensures on { PastFrom at result }
{
    if kind == table::SET {
        return walk_strings::pass(s, at, 0, 0, n);
    }
    if kind == table::PAIRS {
        return walk_strings::pass(s, at, 0, 1, n);
    }
    if kind == table::MAYBE {
        if n == 0 {
            return Ok(at);
        }
        return pass_number(s, at);
    }
    if kind == table::TYPED {
        if n == 0 {
            return pass_number(s, at);
        }
        return pass_text(s, at);
    }
    if kind == table::POSITION {
        if n == 0 {
            return Ok(at);
        }
        return Err(layouts::refuse(layouts::NONZERO_POSITION, at - 8));
    }
    Ok(at)
}

fn pass_field(s: &[u8], at: usize, kind: u8) -> Result<usize, Refusal>
    ensures law { (role i : ℕ) → Passes s.now at (field (what_of kind (role_of role) (target_of i))) result }
    ensures on { Took s.now at result }
{
    if kind == table::STR {
        return pass_text(s, at);
    }
    if kind == table::FRAMES {
        return pass_frames(s, at);
    }
    let n = pieces::number_or_cut(s, at)?;
    pass_after(s, at + 8, kind, n)
}

// An item that is not the end.
fn pass_item(s: &[u8], at: usize, f: Item) -> Result<Moved, Refusal>
    ensures law { (v : Version) → (f.kind ≡ 0 → ⊥) → skip_of (run (item_tree v f) s.now at) ≡ moved_to s.now v f result }
    ensures on { MovedOn s.now at f result }
{
    let kind = f.kind;
    if kind == walk_items::QUIET {
        return Ok(Moved { at, reps: f.reps });
    }
    if kind < walk_items::QUIET {
        let next = pass_field(s, at, kind)?;
        return Ok(Moved {
            at: next,
            reps: f.reps,
        });
    }
    let n = pieces::number_or_cut(s, at)?;
    Ok(Moved {
        at: at + 8,
        reps: walk_items::times(kind, n),
    })
}

// Where the layout ends that begins at a place of the stream.
pub fn skip(s: &[u8], from: usize, layout: Layout) -> Result<usize, Refusal>
    ensures { skipped result ≡ skip_of (pieces_of layout s.now from) }
{
    let f = walk_items::begin(layout);
    let mut at = from;
    let mut pc = f.pc;
    let mut reps = f.reps;
    let mut body = f.body;
    let mut group = f.group;
    loop {
        let f = walk_items::next(layout, pc, reps, body, group);
        if f.kind == table::END {
            return Ok(at);
        }
        let k = pass_item(s, at, f)?;
        at = k.at;
        pc = f.pc;
        reps = k.reps;
        body = f.body;
        group = f.group;
    }
}

#![tactic(auto)]
// The shapes of an operation by its number, the kind of an answer, and which operations come with framed data. The constant table itself is in `table_code`; reading
// it is passed on here.
mod decided;
mod rows;

ghost use Rattle.std.specs.Prelude.{◌≡◌, ◌<◌};
ghost use Rattle.table.specs.Table.{row_for, version_in, kind_numbered};
ghost use Rattle.layouts.specs.declared.Mode.TheVariants.{Ported};
ghost use Rattle.table_operations.specs.Rows.{row_of, shape_in, arguments_of, skipped_of, reply_of};
ghost use Rattle.layouts.specs.Calls.{has_framed, op_has_client_framed_data};
ghost use Rattle.table_operations.specs.Framed.{meaning};
ghost use Rattle.layouts.specs.Primitive.{version, at_least, pick};

use layouts::{Mode, Refusal};
pub use table_code::row_at;

// A shape of an operation: its first group in the table, and the code of its kinds.
#[derive(Clone, Copy)]
pub struct Shape {
    pub first: u8,
    pub kind: u8,
}

// A row is packed as a number: a byte each for the groups of arguments, skipped arguments and reply, and for the kinds of the three; then 1. 0 is no row. A call
// needs one shape, and a whole row would go through memory.
fn row_code(mode: Mode, op: u64) -> u64
    ensures { row_of op result ≡ row_for mode op }
{
    match mode {
        Mode::Ported => rows::ported(op),
        Mode::Published => rows::published(op),
    }
}

// Its bytes in a packed row stand where x is divided by so much.
fn packed_shape(x: u64, first: u64, kind: u64) -> Option<Shape>
    requires { (0 < first) × (0 < kind) }
    ensures { result ≡ shape_in x first kind }
{
    if x == 0 {
        return None;
    }
    Some(Shape {
        first: (x / first % 256) as u8,
        kind: (x / kind % 256) as u8,
    })
}

pub fn arguments(mode: Mode, op: u64) -> Option<Shape>
    ensures { result ≡ arguments_of (row_for mode op) }
{
    packed_shape(row_code(mode, op), 1, 16777216)
}

pub fn skipped(mode: Mode, op: u64) -> Option<Shape>
    ensures { result ≡ skipped_of (row_for mode op) }
{
    packed_shape(row_code(mode, op), 256, 4294967296)
}

// A reply is the same in both modes.
pub fn reply(op: u64) -> Option<Shape>
    ensures { result ≡ reply_of (row_for Ported op) }
{
    packed_shape(rows::ported(op), 65536, 1099511627776)
}

const ADD_TO_STORE: u64 = 7;

const ADD_TO_STORE_NAR: u64 = 39;

const ADD_MULTIPLE_TO_STORE: u64 = 44;

const ADD_BUILD_LOG: u64 = 45;

fn has_framed(op: u64) -> bool
    ensures { result ≡ has_framed op }
{
    (op == ADD_TO_STORE)
        | (op == ADD_TO_STORE_NAR)
        | (op == ADD_MULTIPLE_TO_STORE)
        | (op == ADD_BUILD_LOG)
}

// Does the client send framed data with this operation?
pub fn op_has_client_framed_data(op: u64) -> Result<bool, Refusal>
    ensures { meaning result ≡ op_has_client_framed_data op }
{
    let Some(_) = arguments(Mode::Ported, op) else {
        return Err(layouts::refuse(layouts::UNKNOWN_OPERATION, 0));
    };
    Ok(has_framed(op))
}

fn either(b: bool, yes: u8, no: u8) -> u8
    ensures { result ≡ pick b yes no }
{
    if b {
        return yes;
    }
    no
}

fn since(spoken: u64, bound: u8, yes: u8, no: u8) -> u8
    ensures { result ≡ pick (at_least (version_in spoken) (version 1 bound)) yes no }
{
    either(walk_items::at_least(spoken, bound), yes, no)
}

// Kinds that a version or a flag decides have codes of their own; any other code is its kind.
pub fn kind_of(code: u8, spoken: u64, present: bool) -> u64
    ensures { result ≡ kind_numbered (version_in spoken) present code }
{
    decided::decided(code, spoken, present) as u64
}

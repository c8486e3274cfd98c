#![tactic(auto)]
// The table as code, read by place: the operations as one constant table of structs, and the groups and fields of every layout, packed.
mod operations;
mod packed;

ghost use Rattle.table.specs.Table.{row_at};
ghost use Rattle.std.specs.Prelude.{◌≡◌, get_or};
ghost use Rattle.table.specs.Packed.{packed_table};

use layouts::Mode;
use table::Row;

// The i-th of a mode's own rows. A constant table is built on the stack where it is read, so the functions of `table_operations` are the way of a call.
pub fn row_at(mode: Mode, i: usize) -> Option<Row>
    ensures { result ≡ row_at mode i }
{
    match mode {
        Mode::Ported => operations::OPERATIONS.get(i).copied(),
        Mode::Published => operations::PUBLISHED.get(i).copied(),
    }
}

// A group and a field are read from two places of the iterator: so LLVM leaves the match in a function by itself, where it is one load, and the iterator is small
// enough to go into the folds. Past its end the table reads as 0, which ends fields and groups. The name of the table is shut here, so that no goal of a caller shows the list.
pub fn at(place: usize) -> u64
    ensures { result ≡ get_or packed_table place 0 }
{
    packed::code(place)
}

// Made by ./tables from crates/layouts/specs and crates/table/specs/Claims.antt: the kind that a code stands for. Only a code that a version or a flag decides is not its own kind.
ghost use Rattle.table.specs.Table.{version_in, kind_numbered};
ghost use Rattle.std.specs.Prelude.{◌≡◌};

use crate::{either, since};
use table::kinds as kind;

pub fn decided(code: u8, spoken: u64, present: bool) -> u8
    ensures { result ≡ kind_numbered (version_in spoken) present code }
{
    match code {
        kind::FROM_25_ADD_TO_STORE_ELSE_NONE => {
            // arguments of 7
            since(spoken, 25, kind::ADD_TO_STORE, kind::NONE)
        }
        kind::FROM_25_FROM_16_PATH_INFO_ELSE_PATH_INFO_OLD_ELSE_STR => {
            // reply of 7
            since(
                spoken,
                25,
                since(spoken, 16, kind::PATH_INFO, kind::PATH_INFO_OLD),
                kind::STR,
            )
        }
        kind::FROM_12_COUNT_OF_OVERRIDES_ELSE_EMPTY_TEXT => {
            // skipped of 19
            since(spoken, 12, kind::COUNT_OF_OVERRIDES, kind::EMPTY_TEXT)
        }
        kind::IF_THERE_SUBSTITUTABLE_PATH_INFO_ELSE_NO_SUBSTITUTABLE_PATH_INFO => {
            // reply of 21
            either(
                present,
                kind::SUBSTITUTABLE_PATH_INFO,
                kind::NO_SUBSTITUTABLE_PATH_INFO,
            )
        }
        kind::IF_THERE_FROM_16_PATH_INFO_ELSE_PATH_INFO_OLD_ELSE_NO_PATH_INFO => {
            // reply of 26
            either(
                present,
                since(spoken, 16, kind::PATH_INFO, kind::PATH_INFO_OLD),
                kind::NO_PATH_INFO,
            )
        }
        kind::FROM_23_FRAMED_ELSE_NONE => {
            // reply of 38
            since(spoken, 23, kind::FRAMED, kind::NONE)
        }
        kind::DECIDED_38 => {
            // arguments of 30 in published mode
            since(
                spoken,
                22,
                kind::QUERY_SUBSTITUTABLE_PAIRS,
                kind::QUERY_SUBSTITUTABLE_PATH_INFOS,
            )
        }
        kind::FROM_31_REGISTER_DRV_OUTPUT_ELSE_REGISTER_DRV_OUTPUT_OLD => {
            // arguments of 42 in published mode
            since(
                spoken,
                31,
                kind::REGISTER_DRV_OUTPUT,
                kind::REGISTER_DRV_OUTPUT_OLD,
            )
        }
        _ => code,
    }
}

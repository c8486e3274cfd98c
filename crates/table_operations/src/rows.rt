// Made by ./tables from crates/layouts/specs and crates/table/specs/Claims.antt: the rows of the operations, by number. A match becomes one load.
ghost use Rattle.table_operations.specs.Rows.{row_of};
ghost use Rattle.table.specs.Table.{row_for};
ghost use Rattle.layouts.specs.declared.Mode.TheVariants.{Ported, Published};
ghost use Rattle.std.specs.Prelude.{◌≡◌};

pub fn ported(op: u64) -> u64
    ensures { row_of op result ≡ row_for Ported op }
{
    match op {
        1 => 282583095181312,
        6 => 288080653451264,
        7 => 317767987890182,
        8 => 283678496263692,
        9 => 282587457262096,
        10 => 282583095181312,
        11 => 282583095181312,
        12 => 282583111958528,
        13 => 282578884105236,
        14 => 289175955182612,
        18 => 283682606678016,
        19 => 281621123111448,
        20 => 290275501022748,
        21 => 319966777835520,
        22 => 288080653451264,
        23 => 288076442375188,
        26 => 321066004381696,
        28 => 288080653451264,
        29 => 283682623455232,
        30 => 289184764405252,
        31 => 288084998761514,
        32 => 288084981982724,
        33 => 288080653451264,
        34 => 282578884105236,
        35 => 282578934444078,
        36 => 281474979992596,
        37 => 282583262967348,
        38 => 322165517320192,
        39 => 281474976781332,
        40 => 293582543660548,
        41 => 289180166258688,
        42 => 281483835146240,
        43 => 288080921886720,
        44 => 281479506636860,
        45 => 282583330062398,
        46 => 281487949697552,
        47 => 283678462723138,
        _ => 0,
    }
}

pub fn published(op: u64) -> u64
    ensures { row_of op result ≡ row_for Published op }
{
    match op {
        30 => 289185083181126,
        42 => 281484221041738,
        _ => ported(op),
    }
}

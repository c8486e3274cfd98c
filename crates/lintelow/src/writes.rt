// The writers: the output at the start of `out`; its length is both the end and the length reported.
ghost use Rattle.std.specs.Prelude.{◌≡◌, ◌<◌, length};
ghost use Rattle.layouts.specs.Primitive.{little_end, number_bytes};
ghost use Rattle.layouts.specs.Judge.{lent_after};
ghost use Rattle.layouts.specs.Demands.{Held};
ghost use Rattle.layouts.specs.Writers.{writing, string_bytes, framed_bytes, mode_text, paths_text, overrides_text, write_string};
ghost use Rattle.walk_judge.specs.Judged.{answer_as};
ghost use Rattle.lintelow_answers.specs.Answers.{written};
ghost use Rattle.lintelow_answers.specs.Block.{guarded, number_of, block_after};
ghost use Rattle.lintelow.specs.Calls.{asked, set_written, call_written};

pub fn lintelow_write_u64(out: &mut [u8], x: u64, block: &mut [u8]) -> u64
    ensures number { result ≡ number_of block.old (answer_as (written (writing (number_bytes x) out.old))) }
    ensures block { block.new ≡ block_after block.old (answer_as (written (writing (number_bytes x) out.old))) }
    ensures out { out.new ≡ lent_after (guarded block.old (writing (number_bytes x) out.old)) (number_bytes x) out.old }
{
    if block.len() < lintelow_answers::BLOCK {
        return layouts::OUTPUT_FULL;
    }
    let r = writers::write_u64(out, x);
    lintelow_answers::put(block, lintelow_answers::write(r))
}

pub fn lintelow_write_u32(out: &mut [u8], x: u32, block: &mut [u8]) -> u64
    ensures number { result ≡ number_of block.old (answer_as (written (writing (little_end 4 x) out.old))) }
    ensures block { block.new ≡ block_after block.old (answer_as (written (writing (little_end 4 x) out.old))) }
    ensures out { out.new ≡ lent_after (guarded block.old (writing (little_end 4 x) out.old)) (little_end 4 x) out.old }
{
    if block.len() < lintelow_answers::BLOCK {
        return layouts::OUTPUT_FULL;
    }
    let r = writers::write_u32(out, x);
    lintelow_answers::put(block, lintelow_answers::write(r))
}

pub fn lintelow_write_bytes(out: &mut [u8], c: &[u8], block: &mut [u8]) -> u64
    ensures number { result ≡ number_of block.old (answer_as (written (writing (string_bytes c.now) out.old))) }
    ensures block { block.new ≡ block_after block.old (answer_as (written (writing (string_bytes c.now) out.old))) }
    ensures out { out.new ≡ lent_after (guarded block.old (writing (string_bytes c.now) out.old)) (string_bytes c.now) out.old }
{
    if block.len() < lintelow_answers::BLOCK {
        return layouts::OUTPUT_FULL;
    }
    let r = writers::write_bytes(out, c);
    lintelow_answers::put(block, lintelow_answers::write(r))
}

pub fn lintelow_write_string(out: &mut [u8], c: &[u8], block: &mut [u8]) -> u64
    ensures number { result ≡ number_of block.old (answer_as (written (write_string c.now out.old))) }
    ensures block { block.new ≡ block_after block.old (answer_as (written (write_string c.now out.old))) }
    ensures out { out.new ≡ lent_after (guarded block.old (write_string c.now out.old)) (string_bytes c.now) out.old }
{
    if block.len() < lintelow_answers::BLOCK {
        return layouts::OUTPUT_FULL;
    }
    let r = writers::write_string(out, c);
    lintelow_answers::put(block, lintelow_answers::write(r))
}

pub fn lintelow_write_string_set(
    out: &mut [u8],
    bytes: &[u8],
    entries: &[u8],
    count: usize,
    block: &mut [u8],
) -> u64
    ensures number { result ≡ (set_written bytes.now entries.now count out.old block.old).number }
    ensures block { block.new ≡ (set_written bytes.now entries.now count out.old block.old).block }
    ensures out { out.new ≡ (set_written bytes.now entries.now count out.old block.old).room }
    ensures size { length out.old < 9223372036854775808 }
{
    if block.len() < lintelow_answers::BLOCK {
        return layouts::OUTPUT_FULL;
    }
    let r = writers_sets::write_string_set_bytes(out, bytes, entries, count);
    lintelow_answers::put(block, lintelow_answers::write(r))
}

pub fn lintelow_write_framed(out: &mut [u8], c: &[u8], block: &mut [u8]) -> u64
    ensures number { result ≡ number_of block.old (answer_as (written (writing (framed_bytes c.now) out.old))) }
    ensures block { block.new ≡ block_after block.old (answer_as (written (writing (framed_bytes c.now) out.old))) }
    ensures out { out.new ≡ lent_after (guarded block.old (writing (framed_bytes c.now) out.old)) (framed_bytes c.now) out.old }
{
    if block.len() < lintelow_answers::BLOCK {
        return layouts::OUTPUT_FULL;
    }
    let r = writers::write_framed(out, c);
    lintelow_answers::put(block, lintelow_answers::write(r))
}

pub fn lintelow_write_mode(out: &mut [u8], n: u64, block: &mut [u8]) -> u64
    ensures number { result ≡ number_of block.old (answer_as (written (writing (mode_text n) out.old))) }
    ensures block { block.new ≡ block_after block.old (answer_as (written (writing (mode_text n) out.old))) }
    ensures out { out.new ≡ lent_after (guarded block.old (writing (mode_text n) out.old)) (mode_text n) out.old }
{
    if block.len() < lintelow_answers::BLOCK {
        return layouts::OUTPUT_FULL;
    }
    let r = writers::write_mode(out, n);
    lintelow_answers::put(block, lintelow_answers::write(r))
}

pub fn lintelow_write_paths(out: &mut [u8], n: u64, block: &mut [u8]) -> u64
    ensures number { result ≡ number_of block.old (answer_as (written (writing (paths_text n) out.old))) }
    ensures block { block.new ≡ block_after block.old (answer_as (written (writing (paths_text n) out.old))) }
    ensures out { out.new ≡ lent_after (guarded block.old (writing (paths_text n) out.old)) (paths_text n) out.old }
{
    if block.len() < lintelow_answers::BLOCK {
        return layouts::OUTPUT_FULL;
    }
    let r = writers::write_paths(out, n);
    lintelow_answers::put(block, lintelow_answers::write(r))
}

pub fn lintelow_write_overrides(out: &mut [u8], n: u64, block: &mut [u8]) -> u64
    ensures number { result ≡ number_of block.old (answer_as (written (writing (overrides_text n) out.old))) }
    ensures block { block.new ≡ block_after block.old (answer_as (written (writing (overrides_text n) out.old))) }
    ensures out { out.new ≡ lent_after (guarded block.old (writing (overrides_text n) out.old)) (overrides_text n) out.old }
{
    if block.len() < lintelow_answers::BLOCK {
        return layouts::OUTPUT_FULL;
    }
    let r = writers::write_overrides(out, n);
    lintelow_answers::put(block, lintelow_answers::write(r))
}

// The output stands behind what is read, other than in the writers above.
pub fn lintelow_write_op_args(
    mode: u8,
    op: u64,
    major: u16,
    minor: u8,
    record: &[u8],
    bytes: &[u8],
    entries: &[u8],
    payload: &[u8],
    out: &mut [u8],
    block: &mut [u8],
) -> u64
    ensures number { result
        ≡ (call_written (asked mode op major minor) «record».now bytes.now entries.now payload.now out.old block.old).number }
    ensures block { block.new
        ≡ (call_written (asked mode op major minor) «record».now bytes.now entries.now payload.now out.old block.old).block }
    ensures out { out.new
        ≡ (call_written (asked mode op major minor) «record».now bytes.now entries.now payload.now out.old block.old).room }
    ensures size { length out.old < 9223372036854775808 }
    ensures held { Held «record».now }
{
    if block.len() < lintelow_answers::BLOCK {
        return layouts::OUTPUT_FULL;
    }
    let r = writers_calls::write_op_args_bytes(
        lintelow_answers::mode(mode),
        op,
        major,
        minor,
        record,
        bytes,
        entries,
        payload,
        out,
    );
    lintelow_answers::put(block, lintelow_answers::write(r))
}

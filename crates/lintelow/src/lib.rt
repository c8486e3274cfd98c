#![tactic(auto)]
// The C boundary: numbers and byte slices; `lintelow_c` exports it. A call returns 0 or the refusal's number and writes its answer into the block; a block that
// is too short is refused before all else: `lintelow_answers::put` refuses it, and a call that lends other room looks before it reads.
ghost use Rattle.std.specs.Prelude.{◌≡◌};
ghost use Rattle.layouts.specs.Primitive.{version};
ghost use Rattle.layouts.specs.Calls.{skip_daemon_result};
ghost use Rattle.layouts.specs.Stderr.{read_stderr_loop};
ghost use Rattle.walk_judge.specs.Judged.{answer_as};
ghost use Rattle.lintelow_answers.specs.Skips.{arguments_skipped, result_skipped};
ghost use Rattle.lintelow_answers.specs.Block.{number_of, block_after};
ghost use Rattle.lintelow.specs.Calls.{asked, error_asked, arguments_called, reply_called, error_called, handshake_called, daemon_called};

pub mod reads;
pub mod writes;

pub fn lintelow_read_op_args(
    mode: u8,
    op: u64,
    major: u16,
    minor: u8,
    s: &[u8],
    entries: &mut [u8],
    payload: &mut [u8],
    block: &mut [u8],
) -> u64
    ensures number { result ≡ (arguments_called (asked mode op major minor) s.now entries.old payload.old block.old).number }
    ensures block { block.new ≡ (arguments_called (asked mode op major minor) s.now entries.old payload.old block.old).block }
    ensures entries { entries.new ≡ (arguments_called (asked mode op major minor) s.now entries.old payload.old block.old).entries }
    ensures payload { payload.new ≡ (arguments_called (asked mode op major minor) s.now entries.old payload.old block.old).payload }
{
    if block.len() < lintelow_answers::BLOCK {
        return layouts::OUTPUT_FULL;
    }
    let mut numbers = [0u64; 12];
    let mut counts = [0u64; 3];
    let said = protocol::read_op_args_bytes(
        lintelow_answers::mode(mode),
        op,
        major,
        minor,
        s,
        entries,
        payload,
        &mut numbers,
        &mut counts,
    );
    lintelow_answers::put_said(block, said, numbers, counts)
}

pub fn lintelow_read_daemon_result(
    op: u64,
    major: u16,
    minor: u8,
    s: &[u8],
    entries: &mut [u8],
    payload: &mut [u8],
    block: &mut [u8],
) -> u64
    ensures number { result ≡ (reply_called op (version major minor) s.now entries.old payload.old block.old).number }
    ensures block { block.new ≡ (reply_called op (version major minor) s.now entries.old payload.old block.old).block }
    ensures entries { entries.new ≡ (reply_called op (version major minor) s.now entries.old payload.old block.old).entries }
    ensures payload { payload.new ≡ (reply_called op (version major minor) s.now entries.old payload.old block.old).payload }
{
    if block.len() < lintelow_answers::BLOCK {
        return layouts::OUTPUT_FULL;
    }
    let mut numbers = [0u64; 12];
    let mut counts = [0u64; 3];
    let said = protocol::read_daemon_result_bytes(
        op,
        major,
        minor,
        s,
        entries,
        payload,
        &mut numbers,
        &mut counts,
    );
    lintelow_answers::put_said(block, said, numbers, counts)
}

// No room is lent: start and length of the one string are numbers 1 and 2 of the block's twelve.
pub fn lintelow_skip_op_args(
    mode: u8,
    op: u64,
    major: u16,
    minor: u8,
    s: &[u8],
    block: &mut [u8],
) -> u64
    ensures number { result ≡ number_of block.old (arguments_skipped (asked mode op major minor) s.now) }
    ensures block { block.new ≡ block_after block.old (arguments_skipped (asked mode op major minor) s.now) }
{
    let passed = lintelow_answers::skip_op_args(lintelow_answers::mode(mode), op, major, minor, s);
    lintelow_answers::put(block, passed)
}

pub fn lintelow_skip_daemon_result(
    op: u64,
    major: u16,
    minor: u8,
    s: &[u8],
    block: &mut [u8],
) -> u64
    ensures number { result ≡ number_of block.old (answer_as (result_skipped (skip_daemon_result op (version major minor) s.now))) }
    ensures block { block.new ≡ block_after block.old (answer_as (result_skipped (skip_daemon_result op (version major minor) s.now))) }
{
    let past = lintelow_answers::skip_daemon_result(op, major, minor, s);
    lintelow_answers::put(block, past)
}

pub fn lintelow_read_stderr_loop(s: &[u8], block: &mut [u8]) -> u64
    ensures number { result ≡ number_of block.old (answer_as (read_stderr_loop s.now)) }
    ensures block { block.new ≡ block_after block.old (answer_as (read_stderr_loop s.now)) }
{
    let stopped = stderr::read_stderr_loop(s);
    lintelow_answers::put(block, stopped)
}

pub fn lintelow_read_stderr_with_error(
    mode: u8,
    major: u16,
    minor: u8,
    s: &[u8],
    entries: &mut [u8],
    block: &mut [u8],
) -> u64
    ensures number { result ≡ (error_called (error_asked mode major minor) s.now entries.old block.old).number }
    ensures block { block.new ≡ (error_called (error_asked mode major minor) s.now entries.old block.old).block }
    ensures entries { entries.new ≡ (error_called (error_asked mode major minor) s.now entries.old block.old).room }
{
    if block.len() < lintelow_answers::BLOCK {
        return layouts::OUTPUT_FULL;
    }
    let told = stderr::read_stderr_with_error_bytes(
        lintelow_answers::mode(mode),
        major,
        minor,
        s,
        entries,
    );
    lintelow_answers::put(block, told)
}

pub fn lintelow_parse_handshake(
    client: &[u8],
    daemon: &[u8],
    entries: &mut [u8],
    block: &mut [u8],
) -> u64
    ensures number { result ≡ (handshake_called client.now daemon.now entries.old block.old).number }
    ensures block { block.new ≡ (handshake_called client.now daemon.now entries.old block.old).block }
    ensures entries { entries.new ≡ (handshake_called client.now daemon.now entries.old block.old).room }
{
    if block.len() < lintelow_answers::BLOCK {
        return layouts::OUTPUT_FULL;
    }
    let mut numbers = [0u64; 12];
    let mut counts = [0u64; 3];
    let greeted = handshake::parse_handshake_bytes(
        client,
        daemon,
        entries,
        &mut numbers,
        &mut counts,
    );
    lintelow_answers::put_said(block, greeted, numbers, counts)
}

pub fn lintelow_parse_daemon_handshake(
    major: u16,
    minor: u8,
    daemon: &[u8],
    entries: &mut [u8],
    block: &mut [u8],
) -> u64
    ensures number { result ≡ (daemon_called (version major minor) daemon.now entries.old block.old).number }
    ensures block { block.new ≡ (daemon_called (version major minor) daemon.now entries.old block.old).block }
    ensures entries { entries.new ≡ (daemon_called (version major minor) daemon.now entries.old block.old).room }
{
    if block.len() < lintelow_answers::BLOCK {
        return layouts::OUTPUT_FULL;
    }
    let mut numbers = [0u64; 12];
    let mut counts = [0u64; 3];
    let heard = handshake::parse_daemon_handshake_bytes(
        major,
        minor,
        daemon,
        entries,
        &mut numbers,
        &mut counts,
    );
    lintelow_answers::put_said(block, heard, numbers, counts)
}

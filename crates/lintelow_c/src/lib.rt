#![tactic(auto)]
// The calls of `lintelow` for C, as include/lintelow.h declares them. A crate is a library or a static library, so they stand in a crate of their own: each
// calls the function of its name and states its clauses again.
ghost use Rattle.std.specs.Prelude.{◌≡◌};
ghost use Rattle.layouts.specs.Primitive.{version};
ghost use Rattle.layouts.specs.Calls.{skip_daemon_result};
ghost use Rattle.layouts.specs.Stderr.{read_stderr_loop};
ghost use Rattle.walk_judge.specs.Judged.{answer_as};
ghost use Rattle.lintelow_answers.specs.Skips.{arguments_skipped, result_skipped};
ghost use Rattle.lintelow_answers.specs.Block.{number_of, block_after};
ghost use Rattle.lintelow.specs.Calls.{asked, error_asked, arguments_called, reply_called, error_called, handshake_called, daemon_called};

pub mod reads;
pub mod writes;

#[unsafe(no_mangle)]
pub extern "C" fn lintelow_read_op_args(
    mode: u8,
    op: u64,
    major: u16,
    minor: u8,
    s: &[u8],
    entries: &mut [u8],
    payload: &mut [u8],
    block: &mut [u8],
) -> u64
    ensures number { result ≡ (arguments_called (asked mode op major minor) s.now entries.old payload.old block.old).number }
    ensures block { block.new ≡ (arguments_called (asked mode op major minor) s.now entries.old payload.old block.old).block }
    ensures entries { entries.new ≡ (arguments_called (asked mode op major minor) s.now entries.old payload.old block.old).entries }
    ensures payload { payload.new ≡ (arguments_called (asked mode op major minor) s.now entries.old payload.old block.old).payload }
{
    lintelow::lintelow_read_op_args(mode, op, major, minor, s, entries, payload, block)
}

#[unsafe(no_mangle)]
pub extern "C" fn lintelow_read_daemon_result(
    op: u64,
    major: u16,
    minor: u8,
    s: &[u8],
    entries: &mut [u8],
    payload: &mut [u8],
    block: &mut [u8],
) -> u64
    ensures number { result ≡ (reply_called op (version major minor) s.now entries.old payload.old block.old).number }
    ensures block { block.new ≡ (reply_called op (version major minor) s.now entries.old payload.old block.old).block }
    ensures entries { entries.new ≡ (reply_called op (version major minor) s.now entries.old payload.old block.old).entries }
    ensures payload { payload.new ≡ (reply_called op (version major minor) s.now entries.old payload.old block.old).payload }
{
    lintelow::lintelow_read_daemon_result(op, major, minor, s, entries, payload, block)
}

// No room is lent: start and length of the one string are numbers 1 and 2 of the block's twelve.
#[unsafe(no_mangle)]
pub extern "C" fn lintelow_skip_op_args(
    mode: u8,
    op: u64,
    major: u16,
    minor: u8,
    s: &[u8],
    block: &mut [u8],
) -> u64
    ensures number { result ≡ number_of block.old (arguments_skipped (asked mode op major minor) s.now) }
    ensures block { block.new ≡ block_after block.old (arguments_skipped (asked mode op major minor) s.now) }
{
    lintelow::lintelow_skip_op_args(mode, op, major, minor, s, block)
}

#[unsafe(no_mangle)]
pub extern "C" fn lintelow_skip_daemon_result(
    op: u64,
    major: u16,
    minor: u8,
    s: &[u8],
    block: &mut [u8],
) -> u64
    ensures number { result ≡ number_of block.old (answer_as (result_skipped (skip_daemon_result op (version major minor) s.now))) }
    ensures block { block.new ≡ block_after block.old (answer_as (result_skipped (skip_daemon_result op (version major minor) s.now))) }
{
    lintelow::lintelow_skip_daemon_result(op, major, minor, s, block)
}

#[unsafe(no_mangle)]
pub extern "C" fn lintelow_read_stderr_loop(s: &[u8], block: &mut [u8]) -> u64
    ensures number { result ≡ number_of block.old (answer_as (read_stderr_loop s.now)) }
    ensures block { block.new ≡ block_after block.old (answer_as (read_stderr_loop s.now)) }
{
    lintelow::lintelow_read_stderr_loop(s, block)
}

#[unsafe(no_mangle)]
pub extern "C" fn lintelow_read_stderr_with_error(
    mode: u8,
    major: u16,
    minor: u8,
    s: &[u8],
    entries: &mut [u8],
    block: &mut [u8],
) -> u64
    ensures number { result ≡ (error_called (error_asked mode major minor) s.now entries.old block.old).number }
    ensures block { block.new ≡ (error_called (error_asked mode major minor) s.now entries.old block.old).block }
    ensures entries { entries.new ≡ (error_called (error_asked mode major minor) s.now entries.old block.old).room }
{
    lintelow::lintelow_read_stderr_with_error(mode, major, minor, s, entries, block)
}

#[unsafe(no_mangle)]
pub extern "C" fn lintelow_parse_handshake(
    client: &[u8],
    daemon: &[u8],
    entries: &mut [u8],
    block: &mut [u8],
) -> u64
    ensures number { result ≡ (handshake_called client.now daemon.now entries.old block.old).number }
    ensures block { block.new ≡ (handshake_called client.now daemon.now entries.old block.old).block }
    ensures entries { entries.new ≡ (handshake_called client.now daemon.now entries.old block.old).room }
{
    lintelow::lintelow_parse_handshake(client, daemon, entries, block)
}

#[unsafe(no_mangle)]
pub extern "C" fn lintelow_parse_daemon_handshake(
    major: u16,
    minor: u8,
    daemon: &[u8],
    entries: &mut [u8],
    block: &mut [u8],
) -> u64
    ensures number { result ≡ (daemon_called (version major minor) daemon.now entries.old block.old).number }
    ensures block { block.new ≡ (daemon_called (version major minor) daemon.now entries.old block.old).block }
    ensures entries { entries.new ≡ (daemon_called (version major minor) daemon.now entries.old block.old).room }
{
    lintelow::lintelow_parse_daemon_handshake(major, minor, daemon, entries, block)
}

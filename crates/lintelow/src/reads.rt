// Readers and skippers of one field from a place on, views and tests.
ghost use Rattle.std.specs.Prelude.{◌≡◌};
ghost use Rattle.layouts.specs.Primitive.{ok, from_wire};
ghost use Rattle.layouts.specs.Calls.{read_number, read_u32, peek_number, skip_string, skip_string_set, skip_framed, op_has_client_framed_data};
ghost use Rattle.layouts.specs.Writers.{is_store_path};
ghost use Rattle.layouts.specs.Demands.{Held};
ghost use Rattle.walk_judge.specs.Judged.{answer_as};
ghost use Rattle.wire.specs.Answers.{read_bytes, read_text};
ghost use Rattle.lintelow_answers.specs.Answers.{ended, passed_to, string_read, peeked_at, yes_no, entry_read, version_told};
ghost use Rattle.entries.specs.Entries.{entries_in};
ghost use Rattle.lintelow_answers.specs.Block.{number_of, block_after};
ghost use Rattle.lintelow.specs.Calls.{set_called, framed_called};

use versions::ProtocolVersion;
use wire::Cursor;

pub fn lintelow_read_u64(s: &[u8], at: usize, block: &mut [u8]) -> u64
    ensures number { result ≡ number_of block.old (answer_as (ended (read_number s.now at))) }
    ensures block { block.new ≡ block_after block.old (answer_as (ended (read_number s.now at))) }
{
    let c = Cursor { at };
    let r = c.read_u64(s);
    lintelow_answers::put(block, lintelow_answers::number(r))
}

pub fn lintelow_read_u32(s: &[u8], at: usize, block: &mut [u8]) -> u64
    ensures number { result ≡ number_of block.old (answer_as (ended (read_u32 s.now at))) }
    ensures block { block.new ≡ block_after block.old (answer_as (ended (read_u32 s.now at))) }
{
    let c = Cursor { at };
    let r = c.read_u32(s);
    lintelow_answers::put(block, lintelow_answers::number(r))
}

pub fn lintelow_peek_u64(s: &[u8], at: usize, block: &mut [u8]) -> u64
    ensures number { result ≡ number_of block.old (answer_as (peeked_at at (peek_number s.now at))) }
    ensures block { block.new ≡ block_after block.old (answer_as (peeked_at at (peek_number s.now at))) }
{
    let c = Cursor { at };
    let r = c.peek_u64(s);
    lintelow_answers::put(block, lintelow_answers::peek(at, r))
}

pub fn lintelow_read_bytes(s: &[u8], at: usize, block: &mut [u8]) -> u64
    ensures number { result ≡ number_of block.old (answer_as (string_read (read_bytes s.now at))) }
    ensures block { block.new ≡ block_after block.old (answer_as (string_read (read_bytes s.now at))) }
    ensures held { Held s.now }
{
    let c = Cursor { at };
    let r = c.read_bytes(s);
    lintelow_answers::put(block, lintelow_answers::string(r))
}

pub fn lintelow_read_string(s: &[u8], at: usize, block: &mut [u8]) -> u64
    ensures number { result ≡ number_of block.old (answer_as (string_read (read_text s.now at))) }
    ensures block { block.new ≡ block_after block.old (answer_as (string_read (read_text s.now at))) }
    ensures held { Held s.now }
{
    let c = Cursor { at };
    let r = c.read_string(s);
    lintelow_answers::put(block, lintelow_answers::string(r))
}

pub fn lintelow_skip_string(s: &[u8], at: usize, block: &mut [u8]) -> u64
    ensures number { result ≡ number_of block.old (answer_as (passed_to (skip_string s.now at))) }
    ensures block { block.new ≡ block_after block.old (answer_as (passed_to (skip_string s.now at))) }
{
    let c = Cursor { at };
    let r = c.skip_string(s);
    lintelow_answers::put(block, lintelow_answers::passed(r))
}

pub fn lintelow_read_string_set(s: &[u8], at: usize, entries: &mut [u8], block: &mut [u8]) -> u64
    ensures number { result ≡ (set_called s.now at entries.old block.old).number }
    ensures block { block.new ≡ (set_called s.now at entries.old block.old).block }
    ensures entries { entries.new ≡ (set_called s.now at entries.old block.old).room }
    ensures held { Held s.now }
{
    if block.len() < lintelow_answers::BLOCK {
        return layouts::OUTPUT_FULL;
    }
    let c = Cursor { at };
    let r = c.read_string_set_bytes(s, entries);
    lintelow_answers::put(block, lintelow_answers::count(r))
}

pub fn lintelow_skip_string_set(s: &[u8], at: usize, block: &mut [u8]) -> u64
    ensures number { result ≡ number_of block.old (answer_as (ended (skip_string_set s.now at))) }
    ensures block { block.new ≡ block_after block.old (answer_as (ended (skip_string_set s.now at))) }
{
    let c = Cursor { at };
    let r = c.skip_string_set(s);
    lintelow_answers::put(block, lintelow_answers::number(r))
}

pub fn lintelow_read_framed(s: &[u8], at: usize, payload: &mut [u8], block: &mut [u8]) -> u64
    ensures number { result ≡ (framed_called s.now at payload.old block.old).number }
    ensures block { block.new ≡ (framed_called s.now at payload.old block.old).block }
    ensures payload { payload.new ≡ (framed_called s.now at payload.old block.old).room }
{
    if block.len() < lintelow_answers::BLOCK {
        return layouts::OUTPUT_FULL;
    }
    let c = Cursor { at };
    let r = c.read_framed(s, payload);
    lintelow_answers::put(block, lintelow_answers::total(r))
}

pub fn lintelow_skip_framed(s: &[u8], at: usize, block: &mut [u8]) -> u64
    ensures number { result ≡ number_of block.old (answer_as (ended (skip_framed s.now at))) }
    ensures block { block.new ≡ block_after block.old (answer_as (ended (skip_framed s.now at))) }
{
    let c = Cursor { at };
    let r = c.skip_framed(s);
    lintelow_answers::put(block, lintelow_answers::number(r))
}

pub fn lintelow_entry(bytes: &[u8], entries: &[u8], index: usize, block: &mut [u8]) -> u64
    ensures number { result ≡ number_of block.old (answer_as (entry_read bytes.now (entries_in entries.now) index)) }
    ensures block { block.new ≡ block_after block.old (answer_as (entry_read bytes.now (entries_in entries.now) index)) }
{
    let r = entries::find(bytes, entries, index);
    lintelow_answers::put(block, lintelow_answers::entry(r))
}

pub fn lintelow_extract_store_path(c: &[u8], block: &mut [u8]) -> u64
    ensures number { result ≡ number_of block.old (answer_as (yes_no (ok (is_store_path c.now)))) }
    ensures block { block.new ≡ block_after block.old (answer_as (yes_no (ok (is_store_path c.now)))) }
{
    let b = views::extract_store_path(c);
    lintelow_answers::put(block, lintelow_answers::yes_no(b))
}

pub fn lintelow_op_has_client_framed_data(op: u64, block: &mut [u8]) -> u64
    ensures number { result ≡ number_of block.old (answer_as (yes_no (op_has_client_framed_data op))) }
    ensures block { block.new ≡ block_after block.old (answer_as (yes_no (op_has_client_framed_data op))) }
{
    let f = table_operations::op_has_client_framed_data(op);
    lintelow_answers::put(block, lintelow_answers::framed(f))
}

pub fn lintelow_version_from_wire(wire: u64, block: &mut [u8]) -> u64
    ensures number { result ≡ number_of block.old (answer_as (version_told (from_wire wire))) }
    ensures block { block.new ≡ block_after block.old (answer_as (version_told (from_wire wire))) }
{
    let v = ProtocolVersion::from_wire(wire);
    lintelow_answers::put(block, lintelow_answers::version(v))
}

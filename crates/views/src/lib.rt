#![tactic(auto)]
// Views: string number i as a part of the caller's bytes, a handshake's feature as a part of the client's or the daemon's, and the store path test.
ghost use Rattle.std.specs.Prelude.{◌≡◌, take};
ghost use Rattle.layouts.specs.Primitive.{pick, same};
ghost use Rattle.layouts.specs.Writers.{view_of, feature_of, part_of, store_directory, is_store_path};
ghost use Rattle.entries.specs.Entries.{numbers_in, place_of};
ghost use Rattle.views.specs.Fault.{meaning, fault_of, start_of, Begins};

use entries::Form;
use layouts::Refusal;

// The directory, a hash of 32 characters and a dash.
const SHORTEST_PATH: usize = 44;

// Why there is no string number i in these bytes, if so.
pub fn entry_fault(bytes: &[u8], entries: &[u64], i: usize) -> Result<(), Refusal>
    ensures { meaning result ≡ fault_of (view_of bytes.now entries.now i) }
{
    entries::find(bytes, entries, i)?;
    Ok(())
}

// String number i of s, with entries in either form, and the empty part at the start where it is refused.
pub fn part<'a, 'b, T: Form>(s: &'a [u8], entries: &'b [T], i: usize) -> &'a [u8]
    ensures part { result.now ≡ part_of (view_of s.now (T.numbers entries.now) i) }
    ensures place { Begins result.ref_ptr s.entry.ref_ptr (start_of (place_of s.now (T.numbers entries.now) i)) }
{
    match entries::find(s, entries, i) {
        Ok(k) => {
            let end = k.start + k.len;
            &s[k.start..end]
        }
        Err(_) => &s[..0],
    }
}

// String number i, and the empty part at the start where it is refused.
pub fn entry<'a, 'b>(bytes: &'a [u8], entries: &'b [u64], i: usize) -> &'a [u8]
    ensures part { result.now ≡ part_of (view_of bytes.now entries.now i) }
    ensures place { Begins result.ref_ptr bytes.entry.ref_ptr (start_of (place_of bytes.now entries.now i)) }
{
    part(bytes, entries, i)
}

// Why there is no feature number i on that side, if so.
pub fn feature_fault(
    client: &[u8],
    daemon: &[u8],
    entries: &[u64],
    of_daemon: bool,
    i: usize,
) -> Result<(), Refusal>
    ensures { meaning result ≡ fault_of (feature_of of_daemon client.now daemon.now entries.now i) }
{
    if of_daemon {
        entry_fault(daemon, entries, i)
    } else {
        entry_fault(client, entries, i)
    }
}

// Feature number i of the daemon or of the client, and the empty part at the start where it is refused.
pub fn feature<'a, 'b>(
    client: &'a [u8],
    daemon: &'a [u8],
    entries: &'b [u64],
    of_daemon: bool,
    i: usize,
) -> &'a [u8]
    ensures part { result.now ≡ part_of (feature_of of_daemon client.now daemon.now entries.now i) }
    ensures place { Begins result.ref_ptr (pick of_daemon daemon.entry.ref_ptr client.entry.ref_ptr)
        (start_of (place_of (pick of_daemon daemon.now client.now) entries.now i)) }
{
    if of_daemon {
        entry(daemon, entries, i)
    } else {
        entry(client, entries, i)
    }
}

// Does s begin with the store's directory?
fn in_store(s: &[u8]) -> bool
    ensures { result ≡ same (take 11 s.now) store_directory }
{
    s.starts_with(b"/nix/store/")
}

// Is s a store path?
pub fn extract_store_path(s: &[u8]) -> bool
    ensures { result ≡ is_store_path s.now }
{
    if s.len() < SHORTEST_PATH {
        return false;
    }
    if in_store(s) {
        return text::is_text(s);
    }
    false
}

// The same as part, with entries in both forms, the numbers before the bytes.
pub fn part_in_both<'a, 'b, 'c>(
    s: &'a [u8],
    words: &'b [u64],
    bytes: &'c [u8],
    i: usize,
) -> &'a [u8]
    ensures part { result.now ≡ part_of (view_of s.now (numbers_in words.now bytes.now) i) }
    ensures place { Begins result.ref_ptr s.entry.ref_ptr (start_of (place_of s.now (numbers_in words.now bytes.now) i)) }
{
    match entries::find_in_both(s, words, bytes, i) {
        Ok(place) => {
            let end = place.start + place.len;
            &s[place.start..end]
        }
        Err(_) => &s[..0],
    }
}

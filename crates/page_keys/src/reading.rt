ghost use Rattle.std.specs.Prelude.{◌≡◌, ◌≢◌, ◌<◌, ◌≤◌, ◌++◌, ◌∷◌, ℕ, List, [], Ok, Some, true, false, length, take, drop, IfSome, IfNone, IsTrue, MatchOption, OnOk};
ghost use Rattle.page_keys.specs.Buckets.{entry_bytes, IsEntry, IsBucketOf, IsBucket, HoldsEntries};
ghost use Rattle.page_keys.specs.Entries.{GivesValue};
ghost use Rattle.page_keys.specs.KeyMaps.{Pair, is_ascending, value_of};

use crate::entries::Entry;
use crate::hashing::bucket;
use crate::short_bytes::{FIELD_BYTES, MAX_SHORT, ShortBytes, all_zero};
use std::cmp::Ordering;
use tx_types::Memory;

/// The bytes of an entry.
pub(crate) const ENTRY_BYTES: usize = 2 * FIELD_BYTES;

/// The entry that these bytes are.
fn read_entry(bytes: &[u8]) -> Option<Entry>
    requires { length bytes.now ≡ ENTRY_BYTES }
    ensures some { IfSome result (λ e. (bytes.now ≡ entry_bytes e) × IsEntry e) }
    ensures none { IfNone result ((e : Pair) → IsEntry e → bytes.now ≢ entry_bytes e) }
{
    let (first, second) = bytes.split_at(FIELD_BYTES);
    let key = ShortBytes::read(first)?;
    let value = ShortBytes::read(second)?;
    if key.as_slice().is_empty() {
        return None;
    }
    Some((key, value))
}

/// Whether a key is above those of entries in ascending order.
fn is_above(entries: &[Entry], key: &[u8]) -> bool
    requires { IsTrue (is_ascending entries.now) }
    ensures { (value : List ℕ) →
        result ≡ is_ascending (entries.now ++ (key.now, value) ∷ []) }
{
    match entries {
        [] => true,
        [.., last] => last.0.as_slice().cmp(key) == Ordering::Less,
    }
}

/// Reads the entries of a page, and returns whether its bytes are a bucket.
pub(crate) fn read(
    bytes: &[u8],
    logical: u32,
    page: u32,
    into: &mut Vec<Entry>,
) -> Result<bool, Memory>
    requires exist { 0 < logical }
    requires empty { into.old.items ≡ [] }
    ensures yes { result ≡ Ok true →
        IsBucketOf (length bytes.now) logical page bytes.now into.new.items }
    ensures no { result ≡ Ok false → ¬ IsBucket (length bytes.now) logical page bytes.now }
{
    let mut rest = bytes;
    'entries: while rest.len() >= ENTRY_BYTES && rest[0] != 0 {
        let (entry, behind) = rest.split_at(ENTRY_BYTES);
        let Some((key, value)) = read_entry(entry) else {
            return Ok(false);
        };
        if bucket(key.as_slice(), logical) != page || !is_above(into, key.as_slice()) {
            return Ok(false);
        }
        into.push((key, value))?;
        rest = behind;
    }
    Ok(all_zero(rest))
}

/// The entry that these bytes are, which are one.
fn known_entry(bytes: &[u8]) -> Entry
    requires { (e : Pair) × IsEntry e × (bytes.now ≡ entry_bytes e) }
    ensures { (e : Pair) → IsEntry e → bytes.now ≡ entry_bytes e → result ≡ e }
{
    let (key, value) = bytes.split_at(FIELD_BYTES);
    (ShortBytes::of_field(key), ShortBytes::of_field(value))
}

/// Reads the entries of a page that is a bucket.
pub(crate) fn entries_in(bytes: &[u8], into: &mut Vec<Entry>) -> Result<(), Memory>
    requires bucket { (pairs : List Pair) × HoldsEntries (length bytes.now) bytes.now pairs }
    requires empty { into.old.items ≡ [] }
    ensures { OnOk result ((pairs : List Pair) →
        HoldsEntries (length bytes.now) bytes.now pairs → into.new.items ≡ pairs) }
{
    let mut rest = bytes;
    'entries: while rest.len() >= ENTRY_BYTES && rest[0] != 0 {
        let (entry, behind) = rest.split_at(ENTRY_BYTES);
        into.push(known_entry(entry))?;
        rest = behind;
    }
    Ok(())
}

/// The number of bytes of a key's value in a bucket, which are copied; the bytes behind them stay.
pub(crate) fn value_in(bytes: &[u8], key: &[u8], into: &mut [u8; 15]) -> Option<usize>
    requires { (pairs : List Pair) × HoldsEntries (length bytes.now) bytes.now pairs }
    ensures gives { (pairs : List Pair) → HoldsEntries (length bytes.now) bytes.now pairs →
        GivesValue (value_of key.now pairs) result into.old into.new }
    ensures few { IfSome result (λ len. len ≤ MAX_SHORT) }
{
    let mut rest = bytes;
    'entries: while rest.len() >= ENTRY_BYTES && rest[0] != 0 {
        let (entry, behind) = rest.split_at(ENTRY_BYTES);
        let (found, value) = read_entry(entry)?;
        if found.as_slice() == key {
            return Some(copy(value.as_slice(), into));
        }
        rest = behind;
    }
    None
}

/// Copies a value to the front of the room, and returns the number of its bytes.
fn copy(value: &[u8], into: &mut [u8; 15]) -> usize
    requires { length value.now ≤ MAX_SHORT }
    ensures gives { GivesValue (Some value.now) (Some result) into.old into.new }
    ensures few { result ≤ MAX_SHORT }
{
    into[..value.len()].copy_from_slice(value);
    value.len()
}

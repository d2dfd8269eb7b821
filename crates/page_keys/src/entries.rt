ghost use Rattle.std.specs.Prelude.{◌≡◌, ◌<◌, ◌≤◌, ◌++◌, ◌∷◌, ◌*◌, ℕ, List, [], length, flat_map, IsTrue, IfOk, IfErr, OnOk, OnErr, All};
ghost use Rattle.page_keys.specs.Buckets.{entry_bytes};
ghost use Rattle.page_keys.specs.Entries.{changed, with_pair, IsFoundAt, IsGapAt};
ghost use Rattle.page_keys.specs.Groups.{changes_of};
ghost use Rattle.page_keys.specs.KeyMaps.{is_ascending};

use crate::changes::Change;
use crate::grouping::Placed;
use crate::short_bytes::ShortBytes;
use std::cmp::Ordering;
use tx_types::Memory;

/// A key with its value.
pub(crate) type Entry = (ShortBytes, ShortBytes);

/// Where a key stands among entries in ascending order, or else where it may be put.
fn place(entries: &[Entry], key: &[u8]) -> Result<usize, usize>
    ensures found { IfOk result (IsFoundAt entries.now key.now) }
    ensures gap { IfErr result (IsGapAt entries.now key.now) }
{
    for i in 0..entries.len() {
        match entries[i].0.as_slice().cmp(key) {
            Ordering::Less => {}
            Ordering::Equal => return Ok(i),
            Ordering::Greater => return Err(i),
        }
    }
    Err(entries.len())
}

/// Makes a change among entries in ascending order.
fn change(entries: &mut Vec<Entry>, change: &Change) -> Result<(), Memory>
    requires { IsTrue (is_ascending entries.old.items) }
    ensures { OnOk result
        (entries.new.items ≡ with_pair entries.old.items change.now.key change.now.value) }
{
    let key = change.key.as_slice();
    match place(entries, key) {
        Ok(at) => match &change.value {
            Some(value) => entries[at] = (change.key.copy(), value.copy()),
            None => {
                let _ = entries.remove(at);
            }
        },
        Err(at) => {
            if let Some(value) = &change.value {
                entries.insert(at, (change.key.copy(), value.copy()))?;
            }
        }
    }
    Ok(())
}

/// Makes changes, in their order, among entries in ascending order.
pub(crate) fn merge(entries: &mut Vec<Entry>, changes: &[Placed<'_>]) -> Result<(), Memory>
    requires { IsTrue (is_ascending entries.old.items) }
    ensures { OnOk result
        (entries.new.items ≡ changed entries.old.items (changes_of changes.now)) }
{
    for placed in changes {
        change(entries, placed.1)?;
    }
    Ok(())
}

/// Appends the bytes of entries.
pub(crate) fn write(entries: &[Entry], out: &mut Vec<u8>) -> Result<(), Memory>
    ensures { OnOk result (out.new.items ≡ out.old.items ++ flat_map entry_bytes entries.now) }
{
    for (key, value) in entries {
        key.write(out)?;
        value.write(out)?;
    }
    Ok(())
}

ghost use Rattle.std.specs.Prelude.{◌≡◌, ◌<◌, ◌^◌, [], length, IfOk};
ghost use Rattle.std.specs.List.{list_any};
ghost use Rattle.page_keys.specs.Puts.{has_key, repeated};

use crate::answers::PutError;
use crate::changes::Change;
use std::alloc::Global;
use std::collections::BTreeSet;
use tx_types::Memory;

/// Up to this many changes the keys before each one are looked through.
const FEW: usize = 16;

/// The refusal of the first change whose key stood earlier. Where there is no memory for a set of the keys, the changes
/// before each one are looked through. So the answer is exact whatever memory there is.
pub(crate) fn first_repeated(alloc: Global, changes: &[Change]) -> Option<PutError>
    requires { length changes.now < 2 ^ 32 }
    ensures { result ≡ repeated [] changes.now }
{
    if changes.len() > FEW {
        if let Ok(found) = find_by_set(alloc, changes) {
            return found;
        }
    }
    find_by_looking(changes)
}

/// The refusal of the first change whose key stood earlier, by a set of the keys.
fn find_by_set(alloc: Global, changes: &[Change]) -> Result<Option<PutError>, Memory>
    requires { length changes.now < 2 ^ 32 }
    ensures { IfOk result (λ found. found ≡ repeated [] changes.now) }
{
    let mut keys = BTreeSet::new(alloc);
    for i in 0..changes.len() {
        if !keys.insert(changes[i].key.as_slice())? {
            return Ok(Some(PutError::Repeated(i as u32)));
        }
    }
    Ok(None)
}

/// The refusal of the first change whose key stood earlier, without memory.
fn find_by_looking(changes: &[Change]) -> Option<PutError>
    requires { length changes.now < 2 ^ 32 }
    ensures { result ≡ repeated [] changes.now }
{
    for i in 0..changes.len() {
        if stands_in(&changes[..i], changes[i].key.as_slice()) {
            return Some(PutError::Repeated(i as u32));
        }
    }
    None
}

/// Whether some change has a key.
fn stands_in(changes: &[Change], key: &[u8]) -> bool
    ensures { result ≡ list_any (has_key key.now) changes.now }
{
    for change in changes {
        if change.key.as_slice() == key {
            return true;
        }
    }
    false
}

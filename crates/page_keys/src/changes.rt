ghost use Rattle.std.specs.Prelude.{◌≡◌, ◌≤◌, ◌++◌, ◌∷◌, [], Some, None, length, OnOk, OnErr};

use crate::short_bytes::{MAX_SHORT, ShortBytes};
use std::alloc::Global;
use std::marker::Model;
use tx_types::Memory;

/// A key and its new value, or none where the key is removed.
#[derive(Drop)]
pub struct Change {
    pub key: ShortBytes,
    pub value: Option<ShortBytes>,
}

/// The changes that a put makes, in order, seen as a list.
#[derive(Drop)]
pub struct Changes {
    all: Vec<Change>,
}

impl Model for Changes {
    ghost use Rattle.std.specs.Prelude.{List};
    ghost use Rattle.page_keys.specs.declared.changes.Change.{Change};

    ghost Value = { List Change };

    ghost view = { λ c. c.all.items };
}

impl Changes {
    /// No change.
    pub fn new(alloc: Global) -> Changes
        ensures { result ≡ [] }
    {
        Changes {
            all: Vec::new(alloc),
        }
    }

    /// Adds a key with its new value at the end. After `Memory` the changes are as before.
    pub fn add(&mut self, key: &[u8], value: &[u8]) -> Result<(), Memory>
        requires key { length key.now ≤ MAX_SHORT }
        requires value { length value.now ≤ MAX_SHORT }
        ensures ok { OnOk result
            (self.new ≡ self.old ++ record { key = key.now; value = Some value.now } ∷ []) }
        ensures err { OnErr result (self.new ≡ self.old) }
    {
        self.push(Change {
            key: ShortBytes::new(key),
            value: Some(ShortBytes::new(value)),
        })
    }

    /// Adds the removal of a key at the end. After `Memory` the changes are as before.
    pub fn remove(&mut self, key: &[u8]) -> Result<(), Memory>
        requires { length key.now ≤ MAX_SHORT }
        ensures ok { OnOk result
            (self.new ≡ self.old ++ record { key = key.now; value = None } ∷ []) }
        ensures err { OnErr result (self.new ≡ self.old) }
    {
        self.push(Change {
            key: ShortBytes::new(key),
            value: None,
        })
    }

    /// Adds a change at the end. After `Memory` the changes are as before.
    pub(crate) fn push(&mut self, change: Change) -> Result<(), Memory>
        ensures ok { OnOk result (self.new ≡ self.old ++ change ∷ []) }
        ensures err { OnErr result (self.new ≡ self.old) }
    {
        self.all.push(change)?;
        Ok(())
    }

    /// All changes.
    pub fn as_slice(&self) -> &[Change]
        ensures { result.now ≡ self.now }
    {
        &self.all
    }
}

//! Writes that are not durable yet, and what they make of the bytes of a file.
ghost use Rattle.std.specs.Prelude.{◌≡◌, ℕ, ◌<◌, length, slice_index, OnErr, OnOk};
ghost use Rattle.lossy_store.specs.Writes.{byte_over, byte_from, Notes};

use file_flash::StoreError;
use std::alloc::Global;

/// Bytes that were written from an offset on.
#[derive(Drop)]
pub struct Write {
    pub offset: usize,
    pub bytes: Vec<u8>,
}

impl Write {
    /// The byte at a place of the file once this is written, where another one stood.
    pub fn over(&self, at: usize, byte: u8) -> u8
        ensures { result ≡ byte_over self.now at byte }
    {
        if at < self.offset {
            return byte;
        }
        self.bytes.get(at - self.offset).copied().unwrap_or(byte)
    }
}

/// Notes a write behind others.
pub fn note(
    alloc: Global,
    writes: &mut Vec<Write>,
    offset: usize,
    bytes: &[u8],
) -> Result<(), StoreError>
    ensures ok { OnOk result (Notes offset bytes.now writes.old.items writes.new.items) }
    ensures err { OnErr result (writes.new.items ≡ writes.old.items) }
{
    let Ok(copy) = Vec::from_slice(alloc, bytes) else {
        return Err(StoreError);
    };
    let write = Write {
        offset,
        bytes: copy,
    };
    match writes.push(write) {
        Ok(()) => Ok(()),
        Err(_) => Err(StoreError),
    }
}

/// Lays a write over the bytes of a file.
fn lay(bytes: &mut [u8], write: &Write)
    ensures { (k : ℕ) → k < length bytes.old →
        slice_index bytes.new k ≡ byte_over write.now k (slice_index bytes.old k) }
{
    for at in 0..bytes.len() {
        bytes[at] = write.over(at, bytes[at]);
    }
}

/// Lays writes over the bytes of a file, the first of them first.
pub fn lay_all(bytes: &mut [u8], writes: &[Write])
    ensures { (k : ℕ) → k < length bytes.old →
        slice_index bytes.new k ≡ byte_from writes.now k (slice_index bytes.old k) }
{
    for write in writes {
        lay(bytes, write);
    }
}

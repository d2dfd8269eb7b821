//! How a flash is opened: what its file says is spelled in a new file, which is durable before it is held.
ghost use Rattle.std.specs.Prelude.{◌≡◌, ◌<◌, All, Ok};
ghost use Rattle.tx_types.specs.Config.{checked, shape_of, IsShape};
ghost use Rattle.mem_flash.specs.MemFlashState.{loaded};
ghost use Rattle.live_file.specs.Spelling.{live_spelling};

use live_file::{take_live, write_live};
use live_flash::LiveFlash;
use lossy_store::{Failure, LossyStore};
use mem_flash::MemFlash;
use std::alloc::Global;
use tx_types::{Config, Shape};

/// The flash of a new device, of whose file a call may fail.
pub fn open_new(
    alloc: Global,
    config: Config,
    failure: Option<Failure>,
) -> Option<LiveFlash<LossyStore>> {
    match new_file(alloc, config) {
        Some(bytes) => {
            let flash = open_file(alloc, &bytes, failure);
            drop(bytes);
            flash
        }
        None => None,
    }
}

/// The live file of a new device.
fn new_file(alloc: Global, config: Config) -> Option<Vec<u8>> {
    match config.check() {
        Ok(shape) => blank_file(alloc, config, shape),
        Err(_) => None,
    }
}

/// The live file of a blank flash.
fn blank_file(alloc: Global, config: Config, shape: Shape) -> Option<Vec<u8>>
    requires checks { checked config ≡ Ok shape }
    requires whole { IsShape shape }
{
    match MemFlash::new(alloc, shape) {
        Ok(memory) => {
            let bytes = write_live(alloc, &config, &memory).ok();
            drop(memory);
            bytes
        }
        Err(_) => None,
    }
}

/// The flash that the bytes of a live file say, if they are one. A call of its new file may fail.
pub fn open_file(
    alloc: Global,
    bytes: &[u8],
    failure: Option<Failure>,
) -> Option<LiveFlash<LossyStore>> {
    match take_live(alloc, bytes) {
        Ok((config, memory)) => turn(alloc, config, memory, failure),
        Err(_) => None,
    }
}

/// The flash in memory, in a new file.
fn turn(
    alloc: Global,
    config: Config,
    memory: MemFlash,
    failure: Option<Failure>,
) -> Option<LiveFlash<LossyStore>>
    requires checks { checked config ≡ Ok (shape_of config) }
    requires memory { memory ≡ loaded (shape_of config) memory.image memory.extras }
{
    match write_live(alloc, &config, &memory) {
        Ok(bytes) => hold(alloc, config, memory, bytes, failure),
        Err(_) => {
            drop(memory);
            None
        }
    }
}

/// The flash in memory, in a new file of these bytes.
fn hold(
    alloc: Global,
    config: Config,
    memory: MemFlash,
    bytes: Vec<u8>,
    failure: Option<Failure>,
) -> Option<LiveFlash<LossyStore>>
    requires checks { checked config ≡ Ok (shape_of config) }
    requires memory { memory ≡ loaded (shape_of config) memory.image memory.extras }
    requires spells { bytes.items ≡ live_spelling config memory.image memory.extras }
{
    are_bytes(&bytes);
    let file = LossyStore::new_durable(alloc, bytes, failure);
    LiveFlash::hold(alloc, config, memory, file).ok()
}

/// Nothing is done: this is there for what it ensures.
fn are_bytes(bytes: &[u8])
    ensures { All (λ b. b < 256) bytes.now }
{
    let _ = bytes;
}

//! A session on a live file begins.
ghost use Rattle.std.specs.Prelude.{◌≡◌, ◌<◌, ◌≤◌, [], length, vec_capacity, replicate, All, false, None, Ok, IfOk, IfSome};
ghost use Rattle.tx_types.specs.Config.{checked, shape_of, slots_of, IsShape};
ghost use Rattle.file_flash.specs.Opening.{IsDurable};
ghost use Rattle.live_file.specs.Spelling.{live_spelling};
ghost use Rattle.mem_flash.specs.MemFlashState.{loaded};
ghost use Rattle.live_flash.specs.Waiting.{room_bytes};

use crate::loads::no_slots;
use crate::{Follower, LiveFlash};
use file_flash::Store;
use flash_model::{Flash, Retire, SPARE_BYTES};
use mem_flash::MemFlash;
use std::alloc::{AllocError, Global};
use tx_types::{Config, Shape, Slot};

/// The bytes of a number of zero bits.
const NUMBER_BYTES: usize = 4;

/// Room for the slots that wait, taken beforehand, and for the bytes of those of a block; and a place for each die,
/// with no slot.
fn rooms(alloc: Global, shape: Shape) -> Result<(Vec<Slot>, Vec<u8>, Vec<Option<Slot>>), AllocError>
    requires { IsShape shape }
    ensures { IfOk result (λ rooms. (rooms.0.items ≡ [])
        × (length rooms.1.items ≡ room_bytes shape) × (rooms.2.items ≡ replicate shape.dies None)
        × (slots_of shape ≤ vec_capacity rooms.0)) }
{
    let waiting = Vec::with_capacity(alloc, shape.slots() as usize)?;
    let mut room = Vec::new(alloc);
    let slot_bytes = shape.page_bytes as usize + SPARE_BYTES + NUMBER_BYTES;
    room.resize(shape.pages_per_block as usize * slot_bytes, 0)?;
    Ok((waiting, room, no_slots(alloc, shape.dies)?))
}

impl<S: Store + Drop> LiveFlash<S> {
    /// The flash in memory, of which the file is the live file, durably. Each slot that is blank in memory is erased in
    /// such a file, so one that a loss tore before is not programmed as it was left.
    pub fn hold(
        alloc: Global,
        config: Config,
        memory: MemFlash,
        store: S,
    ) -> Result<LiveFlash<S>, AllocError>
        requires checks { checked config ≡ Ok (shape_of config) }
        requires memory { memory ≡ loaded (shape_of config) memory.image memory.extras }
        requires held { IfSome (S.told store)
            (IsDurable (live_spelling config memory.image memory.extras)) }
        requires bytes { All (λ b. b < 256) (live_spelling config memory.image memory.extras) }
        ensures { IfOk result (λ f. f ≡ record {
          config = config;
          memory = memory;
          waiting = [];
          failed = false;
          faults = S.faults store;
          file = S.told store;
        }) }
    {
        let shape = memory.shape();
        let _ = memory.allowance();
        let _ = memory.retired();
        match rooms(alloc, shape) {
            Ok((waiting, room, loaded)) => Ok(LiveFlash {
                config,
                memory,
                follower: Follower {
                    store,
                    waiting,
                    room,
                },
                loaded,
                failed: false,
            }),
            Err(error) => {
                drop(memory);
                drop(store);
                Err(error)
            }
        }
    }
}

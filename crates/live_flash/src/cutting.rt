//! The calls of a flash in memory whose file has failed: power goes off in each.
ghost use Rattle.std.specs.Prelude.{◌≡◌, ◌<◌, ◌≤◌, length, Err};
ghost use Rattle.tx_types.specs.Config.{blocks_of};
ghost use Rattle.flash_model.specs.Flash.{counted};
ghost use Rattle.flash_model.specs.Operations.{CanProgram, CanDo, fire};
ghost use Rattle.flash_model.specs.Firing.{no_loads, loads_in};
ghost use Rattle.flash_model.specs.Calls.{Programs, Erases, Operates};
ghost use Rattle.mem_flash.specs.MemFlashState.{MemFlashState};
ghost use Rattle.file_flash.specs.FileFlashState.{untold, powerless, IsCut};

use flash_model::{Arms, Broken, Flash, Outcome, Wide};
use mem_flash::MemFlash;
use tx_types::{Block, Slot};

/// Turns power off in the call that was just made, from before which the counts are.
pub(crate) fn lose_power(memory: &mut MemFlash, programs: u64, erases: u64) -> Result<(), Broken>
    ensures lost { (before : MemFlashState) → programs ≡ before.programs → erases ≡ before.erases →
        memory.new ≡ powerless before memory.old }
    ensures later { memory.old.faults ≤ counted memory.old.faults }
    ensures broken { result ≡ Err (record {}) }
{
    let _ = memory.faults();
    memory.lose_power(programs, erases);
    Err(Broken)
}

/// Programs a slot, where power goes off before anything is done.
pub(crate) fn cut_program(
    memory: &mut MemFlash,
    at: Slot,
    bytes: &[u8],
    spare_area: &[u8; 64],
) -> Result<(), Broken>
    requires blank { CanProgram memory.old.shape memory.old.image at.0 }
    requires page { length bytes.now ≡ memory.old.shape.page_bytes }
    ensures programs { Programs (untold memory.old) (untold memory.new) at.0 bytes.now spare_area.now result }
    ensures cut { IsCut memory.old memory.new }
    ensures registers { memory.new.registers ≡ memory.old.registers }
    ensures broken { result ≡ Err (record {}) }
{
    let programs = memory.programs();
    let erases = memory.erases();
    memory.arm_cut(1, Outcome::None);
    let _ = memory.program(at, bytes, spare_area);
    lose_power(memory, programs, erases)
}

/// Erases a block, where power goes off before anything is done.
pub(crate) fn cut_erase(memory: &mut MemFlash, block: Block) -> Result<(), Broken>
    requires { block.0 < blocks_of memory.old.shape }
    ensures erases { Erases (untold memory.old) (untold memory.new) block.0 result }
    ensures cut { IsCut memory.old memory.new }
    ensures registers { memory.new.registers ≡ memory.old.registers }
    ensures broken { result ≡ Err (record {}) }
{
    let programs = memory.programs();
    let erases = memory.erases();
    memory.arm_cut(1, Outcome::None);
    let _ = memory.erase(block);
    lose_power(memory, programs, erases)
}

/// Starts the programs that are loaded, where power goes off before anything is done.
pub(crate) fn cut_fire(memory: &mut MemFlash) -> Result<(), Broken>
    requires { CanDo memory.old.shape memory.old.image (fire (loads_in memory.old.registers)) }
    ensures fires { Operates (untold memory.old) (untold memory.new) (fire (loads_in memory.old.registers)) result }
    ensures cut { IsCut memory.old memory.new }
    ensures registers { memory.new.registers ≡ no_loads memory.old.shape }
    ensures broken { result ≡ Err (record {}) }
{
    let programs = memory.programs();
    let erases = memory.erases();
    memory.arm_cut(1, Outcome::None);
    let _ = memory.fire();
    lose_power(memory, programs, erases)
}

ghost use Rattle.std.specs.Prelude.{◌≡◌, ◌<◌, All, length, map, replicate, None, Some, IfOk};
ghost use Rattle.tx_types.specs.Config.{IsShape, slots_of};
ghost use Rattle.flash_model.specs.Firing.{no_loads};
ghost use Rattle.flash_model.specs.Operations.{die_of, left_each};
ghost use Rattle.tx_types.specs.declared.config.Shape.{Shape};
ghost use Rattle.mem_flash.specs.Registers.{load_in, loads_of, HasPage, AreRegisters, outcome_after, outcomes_from};

use crate::slots::Slots;
use flash_model::{Outcome, SPARE_BYTES};
use std::alloc::Global;
use tx_types::{Memory, Shape, Slot};

/// A register of a die: room for a program, taken beforehand, and the slot of the one that is loaded. Each die has one
/// of its own: in one list for all dies each load would be a write in the middle.
#[derive(Drop)]
pub struct Register {
    pub at: Option<Slot>,
    /// A page.
    pub bytes: Vec<u8>,
    pub spare_area: [u8; SPARE_BYTES],
}

/// An empty register for each die.
pub fn empty_registers(alloc: Global, shape: Shape) -> Result<Vec<Register>, Memory>
    ensures empty { IfOk result (λ all. map load_in all.items ≡ no_loads shape) }
    ensures room { IfOk result (λ all. AreRegisters shape all.items) }
{
    let mut all = Vec::new(alloc);
    for _ in 0..shape.dies {
        all.push(Register {
            at: None,
            bytes: vec![in alloc; 0; shape.page_bytes as usize]?,
            spare_area: [0; SPARE_BYTES],
        })?;
    }
    Ok(all)
}

/// The die that a slot lies in.
pub fn die_of(shape: Shape, at: Slot) -> usize
    requires shape { IsShape shape }
    requires exists { at.0 < slots_of shape }
    ensures die { result ≡ die_of shape at.0 }
    ensures within { result < shape.dies }
{
    (shape.block_of(at).0 / shape.blocks_per_die) as usize
}

/// Puts a program into a register.
pub fn put(register: &mut Register, at: Slot, bytes: &[u8], spare_area: &[u8; 64])
    requires { HasPage (length bytes.now) register.old }
    ensures loaded { load_in register.new
        ≡ Some (record { at = at.0; bytes = bytes.now; spare_area = spare_area.now }) }
    ensures room { HasPage (length bytes.now) register.new }
{
    register.at = Some(at);
    register.bytes.copy_from_slice(bytes);
    register.spare_area = *spare_area;
}

/// How many programs are loaded.
pub fn count_loaded(registers: &[Register]) -> u64
    ensures { result ≡ length (loads_of registers.now) }
{
    let mut count = 0;
    for register in registers {
        if register.at.is_some() {
            count += 1;
        }
    }
    count
}

/// What the other programs come to where one of those that are started together ends so: at most one is damaged.
fn outcome_after(how: Outcome) -> Outcome
    ensures { result ≡ outcome_after how }
{
    match how {
        Outcome::None => Outcome::None,
        Outcome::All | Outcome::Bad => Outcome::All,
    }
}

/// Does the programs that are loaded, with this outcome. Where it is to damage, it damages the slot in the lowest
/// die, and the other programs are whole.
pub fn write_loaded(registers: &[Register], slots: &mut Slots, how: Outcome)
    requires exist { All (λ load. load.at < slots_of slots.old.shape) (loads_of registers.now) }
    requires room { AreRegisters slots.old.shape registers.now }
    ensures { slots.new ≡ record slots.old {
      image = left_each slots.old.image (loads_of registers.now)
          (outcomes_from how (length (loads_of registers.now)));
    } }
{
    let mut how = how;
    for register in registers {
        if let Some(at) = register.at {
            slots.program(at, &register.bytes, &register.spare_area, how);
            how = outcome_after(how);
        }
    }
}

/// Empties the registers.
pub fn clear(registers: &mut [Register])
    ensures empty { map load_in registers.new ≡ replicate (length registers.old) None }
    ensures room { (shape : Shape) → AreRegisters shape registers.old → AreRegisters shape registers.new }
{
    for register in registers.iter_mut() {
        register.at = None;
    }
}

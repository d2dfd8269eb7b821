ghost use Rattle.std.specs.Prelude.{◌≡◌, ◌<◌, ◌≤◌, true, [], length, take, map, replicate, None, Some, IfOk, if◌then◌else◌};
ghost use Rattle.tx_types.specs.Config.{IsShape, slots_of};
ghost use Rattle.tx_types.specs.declared.config.Shape.{Shape};
ghost use Rattle.flash_model.specs.Firing.{no_loads};
ghost use Rattle.flash_model.specs.Operations.{die_of, program_of};
ghost use Rattle.list_flash.specs.Entries.{Grows};
ghost use Rattle.list_flash.specs.Registers.{load_in, loads_of, HasPage, AreRegisters};

use crate::entries::{Entry, Page, append_program};
use flash_model::SPARE_BYTES;
use std::alloc::Global;
use tx_types::{Memory, Shape, Slot};

/// A register of a die: room for a program, taken beforehand, and the slot of the one that is loaded.
#[derive(Drop)]
pub struct Register {
    pub at: Option<Slot>,
    pub page: Page,
}

/// An empty register for each die.
pub fn empty_registers(alloc: Global, shape: Shape) -> Result<Vec<Register>, Memory>
    ensures empty { IfOk result (λ all. map load_in all.items ≡ no_loads shape) }
    ensures room { IfOk result (λ all. AreRegisters shape all.items) }
{
    let mut all = Vec::new(alloc);
    for _ in 0..shape.dies {
        let page = Page {
            bytes: vec![in alloc; 0; shape.page_bytes as usize]?,
            spare_area: [0; SPARE_BYTES],
        };
        all.push(Register { at: None, page })?;
    }
    Ok(all)
}

/// The die that a slot lies in.
pub fn die_of(shape: Shape, at: Slot) -> usize
    requires shape { IsShape shape }
    requires exists { at.0 < slots_of shape }
    ensures die { result ≡ die_of shape at.0 }
    ensures within { result < shape.dies }
{
    (at.0 / shape.pages_per_block / shape.blocks_per_die) as usize
}

/// Puts a program into a register.
pub fn put(register: &mut Register, at: Slot, bytes: &[u8], spare_area: &[u8; 64])
    requires { HasPage (length bytes.now) register.old }
    ensures loaded { load_in register.new
        ≡ Some (record { at = at.0; bytes = bytes.now; spare_area = spare_area.now }) }
    ensures room { HasPage (length bytes.now) register.new }
{
    register.at = Some(at);
    register.page.bytes.copy_from_slice(bytes);
    register.page.spare_area = *spare_area;
}

/// How many programs are loaded.
pub fn count_loaded(registers: &[Register]) -> u64
    ensures { result ≡ length (loads_of registers.now) }
{
    let mut count = 0;
    for register in registers {
        if register.at.is_some() {
            count += 1;
        }
    }
    count
}

/// Puts the programs that are loaded at the end of a list that bears so many entries, until it can't. Returns whether
/// it could put all.
fn append_all(list: &mut Vec<Entry>, limit: usize, registers: &[Register]) -> bool
    requires { length list.old.items ≤ limit }
    ensures front { take (length list.old.items) list.new.items ≡ list.old.items }
    ensures all { result ≡ true → Grows list.old.items (map program_of (loads_of registers.now)) list.new.items }
    ensures within { length list.new.items ≤ limit }
{
    for register in registers {
        if let Some(at) = register.at {
            let page = &register.page;
            if !append_program(list, limit, at, &page.bytes, &page.spare_area) {
                return false;
            }
        }
    }
    true
}

/// Puts the programs that are loaded at the end of a list that bears so many entries, or none. Returns whether it
/// could.
pub fn append_loaded(list: &mut Vec<Entry>, limit: usize, registers: &[Register]) -> bool
    requires { length list.old.items ≤ limit }
    ensures grows { Grows list.old.items
        (if result then map program_of (loads_of registers.now) else []) list.new.items }
    ensures within { length list.new.items ≤ limit }
{
    let before = list.len();
    let is_done = append_all(list, limit, registers);
    if !is_done {
        list.truncate(before);
    }
    is_done
}

/// Empties the registers.
pub fn clear(registers: &mut [Register])
    ensures empty { map load_in registers.new ≡ replicate (length registers.old) None }
    ensures room { (shape : Shape) → AreRegisters shape registers.old → AreRegisters shape registers.new }
{
    for register in registers.iter_mut() {
        register.at = None;
    }
}

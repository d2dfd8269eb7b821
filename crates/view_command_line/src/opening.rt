ghost use Rattle.std.specs.Prelude.{◌≡◌, ◌<◌, Ok, IfOk, length};
ghost use Rattle.tx_types.specs.Config.{checked, shape_of, slots_of};
ghost use Rattle.flash_model.specs.Calls.{seen_of, spare_area_of};
ghost use Rattle.flash_model.specs.Flash.{slot_at};
ghost use Rattle.flash_model.specs.declared.flash.Seen.TheVariants as seen;
ghost use Rattle.mem_flash.specs.MemFlashState.{loaded};
ghost use Rattle.judged_records.specs.Notes.{note_of, notes_of};
ghost use Rattle.view_command_line.specs.Ending.{IsOpening};

use bpcc_commit::Bpcc;
use flash_model::{Flash, Seen, steady_stays};
use judged_records::Note;
use mem_flash::MemFlash;
use page_record::read_spare;
use record_list::{Breach, CommitRule};
use scan_recovery::{RecoverError, recover};
use scc_commit::Scc;
use std::alloc::Global;
use tx_types::{Block, Config, Memory, Protocol, Slot};

/// How an image opens.
#[derive(Clone, Copy, PartialEq, Eq)]
pub enum Opening {
    /// It is sound, and this block becomes the spare.
    Sound(Block),
    /// It is not sound: the first law that it breaks, and the slot that the law names.
    Unsound(Breach),
}

/// Opens the device of a flash.
pub fn open(alloc: Global, config: Config, flash: &mut MemFlash) -> Result<Opening, Memory>
    requires check { checked config ≡ Ok (shape_of config) }
    requires ready { flash.old ≡ loaded (shape_of config) flash.old.image flash.old.extras }
    ensures { IfOk result (IsOpening config flash.old.image) }
{
    match config.protocol {
        Protocol::Scc => open_by::<Scc>(alloc, config, flash),
        Protocol::Bpcc => open_by::<Bpcc>(alloc, config, flash),
    }
}

/// Opens the device of a flash under a rule.
fn open_by<R: CommitRule>(
    alloc: Global,
    config: Config,
    flash: &mut MemFlash,
) -> Result<Opening, Memory>
    requires check { checked config ≡ Ok (shape_of config) }
    requires rule { config.protocol ≡ R.protocol }
    requires ready { flash.old ≡ loaded (shape_of config) flash.old.image flash.old.extras }
    ensures { IfOk result (IsOpening config flash.old.image) }
{
    steady_stays();
    match recover::<MemFlash, R>(alloc, flash, config) {
        Ok((index, blocks)) => {
            let spare = blocks.spare();
            drop(index);
            drop(blocks);
            Ok(Opening::Sound(spare))
        }
        Err(RecoverError::Unsound { law, slot }) => Ok(Opening::Unsound(Breach { law, slot })),
        Err(RecoverError::Memory) => Err(Memory),
        Err(RecoverError::Fault) => unreachable!(),
    }
}

/// What is noted of the slots of a flash.
pub fn notes(alloc: Global, protocol: Protocol, flash: &MemFlash) -> Result<Vec<Note>, Memory>
    ensures notes { IfOk result (λ notes. notes.items ≡ notes_of protocol flash.now.image) }
    ensures whole { IfOk result (λ notes. length notes.items ≡ slots_of flash.now.shape) }
{
    let slots = flash.shape().slots();
    let mut notes = Vec::with_capacity(alloc, slots as usize)?;
    for slot in 0..slots {
        notes.push(note(protocol, flash, Slot(slot)))?;
    }
    Ok(notes)
}

/// What is noted of a slot.
fn note(protocol: Protocol, flash: &MemFlash, at: Slot) -> Note
    requires { at.0 < slots_of flash.now.shape }
    ensures { result ≡ note_of protocol (slot_at flash.now.image at.0) }
{
    match flash.seen(at) {
        Seen::Blank => Note::Blank,
        Seen::Damaged => Note::Damaged,
        Seen::Complete => match read_spare(&spare_area(flash, at), protocol) {
            Ok(rec) => Note::Holds(rec),
            Err(_) => Note::Damaged,
        },
    }
}

/// The spare area of a slot.
fn spare_area(flash: &MemFlash, at: Slot) -> [u8; 64]
    requires { at.0 < slots_of flash.now.shape }
    ensures { result ≡ spare_area_of (slot_at flash.now.image at.0) }
{
    let page = flash.shape().page_bytes as usize;
    let mut area = [0; 64];
    area.copy_from_slice(&flash.cell(at)[page..]);
    area
}

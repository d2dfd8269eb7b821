//! How a flash is shown.

ghost use Rattle.std.specs.Prelude.{◌<◌, IsTrue};
ghost use Rattle.tx_types.specs.Config.{shape_of, slots_of};

use super::steps::{Kept, is_sure};
use crate::building::has_block;
use collector::Unsure;
use flash_model::{Flash, Seen};
use record_list::CommitRule;
use std::alloc::AllocError;
use tx_types::{Block, Slot};

/// Whether a slot exists.
fn has_slot<R: CommitRule>(kept: &Kept<R>, at: Slot) -> bool
    ensures slot { IsTrue result → at.0 < slots_of kept.now.flash.shape }
    ensures noted { IsTrue result → at.0 < slots_of (shape_of kept.now.index.config) }
{
    let config = kept.index.config();
    let slots = config.pages_per_block * (config.blocks_per_die * config.dies);
    at.0 < slots && at.0 < kept.flash.shape().slots()
}

/// How a slot of a block reads, where it exists and the tables say the same of it or are not sure.
fn look<R: CommitRule>(kept: &Kept<R>, block: u32, at: u32) -> Option<(Slot, Seen)> {
    let pages = kept.index.config().pages_per_block;
    if block >= 65536 || pages >= 65536 || at >= pages {
        return None;
    }
    let at = Slot(block * pages + at);
    if !has_slot(kept, at) {
        return None;
    }
    let how = kept.flash.seen(at);
    if is_sure(kept.unsure) && kept.index.seen(at) != how {
        return None;
    }
    Some((at, how))
}

/// Whether all slots of a block are blank.
fn is_blank<R: CommitRule>(kept: &Kept<R>, block: u32) -> bool {
    for at in 0..kept.index.config().pages_per_block {
        if !matches!(look(kept, block, at), Some((_, Seen::Blank))) {
            return false;
        }
    }
    true
}

/// The page and the version of the record in a slot.
fn write_record<R: CommitRule>(
    kept: &Kept<R>,
    at: Slot,
    text: &mut String,
) -> Result<(), AllocError> {
    if !has_slot(kept, at) {
        return text.push_str(" !!");
    }
    match kept.index.rec(at) {
        Some(rec) => write!(text, " {}{}", rec.page, rec.version),
        None => text.push_str(" ??"),
    }
}

/// A slot of a block.
fn write_slot<R: CommitRule>(
    kept: &Kept<R>,
    block: u32,
    at: u32,
    text: &mut String,
) -> Result<(), AllocError> {
    match look(kept, block, at) {
        Some((_, Seen::Blank)) => text.push_str(" .."),
        Some((_, Seen::Damaged)) => text.push_str(" XX"),
        Some((slot, Seen::Complete)) => write_record(kept, slot, text),
        None => text.push_str(" !!"),
    }
}

/// The slots of a block.
fn write_block<R: CommitRule>(
    kept: &Kept<R>,
    block: u32,
    text: &mut String,
) -> Result<(), AllocError> {
    write!(text, "{block}:")?;
    for at in 0..kept.index.config().pages_per_block {
        write_slot(kept, block, at, text)?;
    }
    text.push(' ')
}

/// The blocks that are not all blank, the spare, and the count of erases.
pub fn write_picture<R: CommitRule>(kept: &Kept<R>, text: &mut String) -> Result<(), AllocError> {
    let config = kept.index.config();
    for block in 0..config.blocks_per_die * config.dies {
        if !is_blank(kept, block) {
            write_block(kept, block, text)?;
        }
    }
    let (spare, erases) = (kept.blocks.spare().0, kept.flash.erases());
    write!(text, "spare {spare} erases {erases}")
}

/// The block that may be lost: the spare, or the one whose erase was broken.
fn lost_block<R: CommitRule>(kept: &Kept<R>) -> Block {
    match kept.unsure {
        Unsure::VictimErase { block } => block,
        _ => kept.blocks.spare(),
    }
}

/// The first byte of a page in a slot, where the page is in one. Returns whether it could be said.
fn write_byte<R: CommitRule>(kept: &Kept<R>, at: Option<Slot>, text: &mut String) -> bool {
    match at {
        Some(at) if has_slot(kept, at) => {
            let byte = kept.flash.cell(at)[0];
            write!(text, "{byte} ").is_ok()
        }
        Some(_) => false,
        None => text.push_str("-- ").is_ok(),
    }
}

/// The first byte of each page as it reads while a block may be lost. Returns whether all could be said.
pub fn write_array<R: CommitRule>(kept: &Kept<R>, text: &mut String) -> bool {
    let lost = lost_block(kept);
    if !has_block(&kept.index, lost) {
        return false;
    }
    for page in 0..kept.index.config().logical {
        if !write_byte(kept, kept.index.locate_off(page, lost), text) {
            return false;
        }
    }
    true
}

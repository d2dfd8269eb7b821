ghost use Rattle.std.specs.Prelude.{◌≡◌, ◌<◌, ◌++◌, List, [], ◌∷◌, Option, Some, None, IfOk, OnOk, OnErr, length};
ghost use Rattle.std.specs.Prelude.{map, flat_map};
ghost use Rattle.flash_model.specs.Flash.{FlashState, slot_at};
ghost use Rattle.flash_model.specs.Calls.{seen_of};
ghost use Rattle.flash_model.specs.Operations.{moment_of};
ghost use Rattle.mem_flash.specs.MemFlashState.{state_of};
ghost use Rattle.mem_flash.specs.Slots.{cell_of};
ghost use Rattle.host_protocol.specs.Replies.{text_of};
ghost use Rattle.cut_replay.specs.Watching.{Grew};
ghost use Rattle.desk_tasks.specs.Keeping.{kept_of, reply_at, texts_in, told_in};

use cut_replay::Watch;
use flash_model::{Flash, Seen};
use host_protocol::{Reply, reply_text};
use mem_flash::MemFlash;
use std::alloc::{AllocError, AllocFailed, Global};
use std::marker::Model;
use tx_types::{Memory, Slot};

/// A reply as it was given.
#[derive(Drop)]
struct Entry {
    text: Vec<u8>,
    /// A copy of the flash, with the same slots.
    flash: MemFlash,
    programs: u64,
    erases: u64,
    started: u64,
}

/// The replies of a run, each with a copy of what the flash was when it was given. It is seen as
/// the list of their texts and moments, with how many bytes a page of each flash has. It stands in this library since
/// no crate can depend on a program.
#[derive(Drop)]
pub struct KeptReplies {
    alloc: Global,
    entries: Vec<Entry>,
}

impl Model for KeptReplies {
    ghost use Rattle.std.specs.Prelude.{List};
    ghost use Rattle.desk_tasks.specs.Keeping.{KeptReply};

    ghost Value = { List KeptReply };

    ghost use Rattle.desk_tasks.specs.KeptEntries.{kept_in};

    ghost view = { kept_in };
}

impl KeptReplies {
    /// No reply.
    pub fn new(alloc: Global) -> KeptReplies
        ensures { result ≡ [] }
    {
        KeptReplies {
            alloc,
            entries: Vec::new(alloc),
        }
    }

    /// How many replies were given.
    pub fn len(&self) -> usize
        ensures { result ≡ length self.now }
    {
        self.entries.len()
    }

    /// The text of a reply.
    pub fn text(&self, i: usize) -> &[u8]
        requires { i < length self.now }
        ensures { result.now ≡ (reply_at self.now i).told.text }
    {
        &self.entries[i].text
    }

    /// How many slots the flash had.
    pub fn slots(&self, i: usize) -> u32
        requires { i < length self.now }
        ensures { result ≡ length (reply_at self.now i).told.moment.image }
    {
        self.entries[i].flash.shape().slots()
    }

    /// How a slot read when a reply was given.
    pub fn seen(&self, i: usize, at: Slot) -> Seen
        requires reply { i < length self.now }
        requires slot { at.0 < length (reply_at self.now i).told.moment.image }
        ensures { result ≡ seen_of (slot_at (reply_at self.now i).told.moment.image at.0) }
    {
        let flash = &self.entries[i].flash;
        let _ = flash.shape();
        flash.seen(at)
    }

    /// The contents of a slot, which are a page, and then its spare area: all 0xff where the slot
    /// was blank, and all 0x00 where it was damaged.
    pub fn cell(&self, i: usize, at: Slot) -> &[u8]
        requires reply { i < length self.now }
        requires slot { at.0 < length (reply_at self.now i).told.moment.image }
        ensures { result.now ≡ cell_of (reply_at self.now i).page_bytes
            (slot_at (reply_at self.now i).told.moment.image at.0) }
    {
        let flash = &self.entries[i].flash;
        let _ = flash.shape();
        flash.cell(at)
    }

    /// The number of programs that were done.
    pub fn programs(&self, i: usize) -> u64
        requires { i < length self.now }
        ensures { result ≡ (reply_at self.now i).told.moment.programs }
    {
        self.entries[i].programs
    }

    /// The number of erases that were done.
    pub fn erases(&self, i: usize) -> u64
        requires { i < length self.now }
        ensures { result ≡ (reply_at self.now i).told.moment.erases }
    {
        self.entries[i].erases
    }
}

impl Watch<MemFlash> for KeptReplies {
    ghost text = { λ k. Some (texts_in k) };

    ghost kept = { λ k. Some (told_in k) };

    ghost flashes = { λ k. None };

    fn tell(&mut self, flash: &MemFlash, reply: &Reply) -> Result<(), Memory>
        ensures text { OnOk result (
            Grew (Some (texts_in self.old)) (Some (texts_in self.new)) (text_of reply.now)) }
        ensures kept { OnOk result (Grew (Some (told_in self.old)) (Some (told_in self.new))
            (record { text = text_of reply.now; moment = moment_of (state_of flash.now) } ∷ [])) }
        ensures flashes { OnOk result (Grew None None (state_of flash.now ∷ [])) }
        ensures err { OnErr result ((Some (texts_in self.new) ≡ Some (texts_in self.old))
            × (Some (told_in self.new) ≡ Some (told_in self.old))
            × (◌≡◌ {A = Option (List FlashState)} None None)) }
        ensures exact { OnOk result (
            self.new ≡ self.old ++ (kept_of (state_of flash.now) reply.now ∷ [])) }
        ensures same { OnErr result (self.new ≡ self.old) }
    {
        let mut text = Vec::new(self.alloc);
        reply_text(self.alloc, reply, &mut text)?;
        let entry = Entry {
            text,
            flash: copy_flash(self.alloc, flash)?,
            programs: flash.programs(),
            erases: flash.erases(),
            started: flash.started(),
        };
        self.entries.push(entry)?;
        Ok(())
    }
}

/// A flash of the same shape with the same slots.
fn copy_flash(alloc: Global, flash: &MemFlash) -> Result<MemFlash, Memory>
    ensures shape { IfOk result (λ copy. copy.shape ≡ flash.now.shape) }
    ensures slots { IfOk result (λ copy. copy.image ≡ flash.now.image) }
{
    let seen = states(alloc, flash)?;
    let cells = cells(alloc, flash)?;
    MemFlash::from_slots(alloc, flash.shape(), seen, cells)
}

/// How each slot reads.
fn states(alloc: Global, flash: &MemFlash) -> Result<Vec<Seen>, AllocFailed<Seen>>
    ensures { IfOk result (λ all. all.items ≡ map seen_of flash.now.image) }
{
    let mut all = Vec::new(alloc);
    for slot in 0..flash.shape().slots() {
        all.push(flash.seen(Slot(slot)))?;
    }
    Ok(all)
}

/// The contents and the spare area of each slot.
fn cells(alloc: Global, flash: &MemFlash) -> Result<Vec<u8>, AllocError>
    ensures { IfOk result (λ all. all.items ≡
        flat_map (cell_of flash.now.shape.page_bytes) flash.now.image) }
{
    let mut all = Vec::new(alloc);
    for slot in 0..flash.shape().slots() {
        all.extend_from_slice(flash.cell(Slot(slot)))?;
    }
    Ok(all)
}

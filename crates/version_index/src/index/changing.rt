ghost use Rattle.std.specs.Prelude.{◌≡◌, ◌<◌, All, IsSome};
ghost use Rattle.tx_types.specs.Config.{shape_of, slots_of, blocks_of};
ghost use Rattle.judged_records.specs.IndexState.{current_of, CanLose, IsNextRecord, IsCompleteCycle, programmed, damaged_at, copied, erased, lost, pinned, unpinned, with_spare};
ghost use Rattle.judged_records.specs.Notes.{note_at, rec_of};
ghost use Rattle.judged_records.specs.declared.note.Note.TheVariants as note;

use crate::Index;
use crate::committing::commit_if_complete;
use crate::losing::use_block;
use crate::mentioning::raise;
use record_list::CommitRule;
use slot_tables::SlotUse;
use tx_types::{Block, Link, Rec, Slot};

impl<R: CommitRule> Index<R> {
    /// Notes that a blank slot was programmed with a record that a transaction in progress asks
    /// for.
    pub fn note_program(&mut self, at: Slot, rec: Rec)
        requires exists { at.0 < slots_of (shape_of self.old.config) }
        requires blank { note_at self.old.notes at.0 ≡ note.Blank }
        requires asked { IsNextRecord self.old rec }
        ensures { self.new ≡ programmed self.old at.0 rec }
    {
        // For the proof: the sizes of the tables.
        let _ = self.tables.shape();
        let number = self.tables.add(&rec);
        self.tables.set_slot(at, SlotUse::Holds(number));
        self.tables.set_waits(number, Some(rec.next.page));
        raise(&mut self.mentions, rec);
        commit_if_complete(
            &mut self.tables,
            &mut self.written,
            self.config.logical,
            self.config.protocol,
            rec,
        );
    }

    /// Notes that a blank slot became damaged.
    pub fn note_damaged(&mut self, at: Slot)
        requires exists { at.0 < slots_of (shape_of self.old.config) }
        requires blank { note_at self.old.notes at.0 ≡ note.Blank }
        ensures { self.new ≡ damaged_at self.old at.0 }
    {
        self.tables.set_slot(at, SlotUse::Damaged);
    }

    /// Notes that a blank slot was programmed with the record of another slot.
    pub fn note_copy(&mut self, from: Slot, to: Slot)
        requires from { IsSome (rec_of (note_at self.old.notes from.0)) }
        requires exists { to.0 < slots_of (shape_of self.old.config) }
        requires blank { note_at self.old.notes to.0 ≡ note.Blank }
        ensures { self.new ≡ copied self.old from.0 to.0 }
    {
        let held = self.tables.slot(from);
        self.tables.set_slot(to, held);
    }

    /// Notes that each slot of a block became blank. Each current and each held record has a slot
    /// outside it.
    pub fn note_erased(&mut self, block: Block)
        requires exists { block.0 < blocks_of (shape_of self.old.config) }
        requires outside { CanLose self.old block.0 }
        ensures { self.new ≡ erased self.old block.0 }
    {
        use_block(&mut self.tables, block, SlotUse::Blank);
    }

    /// Notes that each slot of a block became damaged. Each current and each held record has a
    /// slot outside it.
    pub fn note_lost(&mut self, block: Block)
        requires exists { block.0 < blocks_of (shape_of self.old.config) }
        requires outside { CanLose self.old block.0 }
        ensures { self.new ≡ lost self.old block.0 }
    {
        use_block(&mut self.tables, block, SlotUse::Damaged);
    }

    /// Notes that the names of a transaction complete their cycle: each is current. It changes nothing, since
    /// `note_program` makes a complete cycle current. It is there for who builds on this crate: no program calls it.
    pub fn commit(&mut self, names: &[Link])
        requires complete { IsCompleteCycle self.old names.now }
        ensures current { All (λ name. current_of self.new name.page ≡ name.version) names.now }
        ensures stays { self.new ≡ self.old }
    {
        // For the proof: the names and the tables. Nothing is to be changed.
        let _ = names;
        let _ = &self.config;
    }

    /// Pins a page at a version, in place of an older one: the record of this name is needed. Version
    /// 0 pins none.
    pub fn pin(&mut self, page: u32, version: u64)
        requires { page < self.old.config.logical }
        ensures { self.new ≡ pinned self.old page version }
    {
        self.tables.pin(page, version);
    }

    /// Takes away the version at which a page is pinned, if there is one.
    pub fn unpin(&mut self, page: u32)
        requires { page < self.old.config.logical }
        ensures { self.new ≡ unpinned self.old page }
    {
        self.tables.unpin(page);
    }

    /// Makes a block the spare.
    pub fn set_spare(&mut self, block: Block)
        requires { block.0 < blocks_of (shape_of self.old.config) }
        ensures { self.new ≡ with_spare self.old block.0 }
    {
        self.tables.set_spare(block);
    }
}

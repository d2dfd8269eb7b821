ghost use Rattle.std.specs.Prelude.{◌≡◌, ◌≢◌, [], ◌<◌, ◌≤◌, ◌+◌, ◌*◌, length, drop, replicate, slice_set, IfOk};
ghost use Rattle.std.specs.List.{flat_map};
ghost use Rattle.tx_types.specs.Config.{IsShape, slots_of, blocks_of};
ghost use Rattle.tx_types.specs.Limits.{spare_bytes};
ghost use Rattle.flash_model.specs.Flash.{complete, slot_at, IsImage};
ghost use Rattle.flash_model.specs.Operations.{program, erase, image_left};
ghost use Rattle.flash_model.specs.Calls.{Shows, seen_of, spare_area_of};
ghost use Rattle.mem_flash.specs.Slots.{cell_of, cell_bytes, contents_of, image_of, overwritten, AreFilled};
ghost use Rattle.flash_model.specs.declared.flash.Seen.TheVariants as seen;

use crate::cells::{
    behind, cell_at, cell_bytes, fill_cells, filler, mark, read_cell, read_spare_area, write_cell,
};
use flash_model::{Outcome, Seen};
use std::alloc::Global;
use std::marker::Model;
use tx_types::{Block, Memory, Shape, Slot};

/// The slots of a flash.
#[derive(Drop)]
pub struct Slots {
    shape: Shape,
    /// How each slot reads.
    seen: Vec<Seen>,
    /// A head, and behind it for each slot its contents and then its spare area: all 0xff where it is
    /// blank, and all 0x00 where it is damaged.
    bytes: Vec<u8>,
    /// The bytes of the head.
    head: usize,
}

impl Model for Slots {
    ghost use Rattle.mem_flash.specs.Slots.{SlotsState};

    ghost Value = { SlotsState };

    ghost use Rattle.mem_flash.specs.SlotsInside.{slots_inside, SlotsInvariant};

    ghost view = { slots_inside };

    ghost invariant = { SlotsInvariant };
}

impl Slots {
    /// Slots that read this way and have the bytes behind a head.
    pub fn new(shape: Shape, seen: Vec<Seen>, bytes: Vec<u8>, head: usize) -> Slots
        requires shape { IsShape shape }
        requires slots { length seen.items ≡ slots_of shape }
        requires bytes { length bytes.items ≡ head + slots_of shape * cell_bytes shape.page_bytes }
        requires filled { AreFilled shape.page_bytes seen.items (drop head bytes.items) }
        ensures { result ≡ record {
          shape = shape;
          image = image_of shape.page_bytes seen.items (drop head bytes.items);
        } }
    {
        Slots {
            shape,
            seen,
            bytes,
            head,
        }
    }

    /// The bytes of the slots behind a head of any bytes. They are copied only where the head was not as
    /// long as this.
    pub fn into_bytes(self, alloc: Global, head: usize) -> Result<Vec<u8>, Memory>
        ensures cells { IfOk result (λ bytes.
            drop head bytes.items ≡ flat_map (cell_of self.shape.page_bytes) self.image) }
        ensures whole { IfOk result (λ bytes. head ≤ length bytes.items) }
    {
        if self.head == head {
            return Ok(self.bytes);
        }
        behind(alloc, &self.bytes[self.head..], head)
    }

    pub fn shape(&self) -> Shape
        ensures shape { result ≡ self.now.shape }
        ensures image { IsImage self.now.shape self.now.image }
    {
        self.shape
    }

    /// How a slot reads.
    pub fn seen(&self, at: Slot) -> Seen
        requires { at.0 < slots_of self.now.shape }
        ensures { result ≡ seen_of (slot_at self.now.image at.0) }
    {
        self.seen[at.0 as usize]
    }

    /// The contents of a slot and then its spare area.
    pub fn cell(&self, at: Slot) -> &[u8]
        requires { at.0 < slots_of self.now.shape }
        ensures bytes { result.now
            ≡ cell_of self.now.shape.page_bytes (slot_at self.now.image at.0) }
        ensures whole { length result.now ≡ self.now.shape.page_bytes + spare_bytes }
    {
        cell_at(
            &self.bytes,
            self.head,
            cell_bytes(self.shape),
            at.0 as usize,
        )
    }

    /// Copies a slot's contents and its spare area, and tells how it reads.
    pub fn read(&self, at: Slot, into: &mut [u8], spare_area: &mut [u8; 64]) -> Seen
        requires exists { at.0 < slots_of self.now.shape }
        requires page { length into.old ≡ self.now.shape.page_bytes }
        ensures { let contents = slot_at self.now.image at.0 in
            Shows self.now.shape.page_bytes contents result into.new spare_area.new }
    {
        let at = at.0 as usize;
        let cell = cell_at(&self.bytes, self.head, cell_bytes(self.shape), at);
        read_cell(cell, into, spare_area);
        self.seen[at]
    }

    /// Copies a slot's spare area, and tells how the slot reads.
    pub fn read_spare_area(&self, at: Slot, spare_area: &mut [u8; 64]) -> Seen
        requires { at.0 < slots_of self.now.shape }
        ensures how { result ≡ seen_of (slot_at self.now.image at.0) }
        ensures spare_area { spare_area.new ≡ spare_area_of (slot_at self.now.image at.0) }
    {
        let at = at.0 as usize;
        let cell = cell_at(&self.bytes, self.head, cell_bytes(self.shape), at);
        read_spare_area(cell, self.shape.page_bytes as usize, spare_area);
        self.seen[at]
    }

    /// Programs a slot, with this outcome.
    #[inline(always)]
    pub fn program(&mut self, at: Slot, bytes: &[u8], spare_area: &[u8; 64], how: Outcome)
        requires exists { at.0 < slots_of self.old.shape }
        requires page { length bytes.now ≡ self.old.shape.page_bytes }
        ensures { self.new ≡ record self.old {
          image = image_left self.old.shape self.old.image (program at.0 bytes.now spare_area.now) how;
        } }
    {
        match how {
            Outcome::None => {}
            Outcome::All => self.write(at.0 as usize, bytes, spare_area),
            Outcome::Bad => self.fill(at.0 as usize, 1, Seen::Damaged),
        }
    }

    /// Erases a block, with this outcome.
    pub fn erase(&mut self, block: Block, how: Outcome)
        requires { block.0 < blocks_of self.old.shape }
        ensures { self.new ≡ record self.old {
          image = image_left self.old.shape self.old.image (erase block.0) how;
        } }
    {
        let slots = self.shape.pages_per_block as usize;
        let first = block.0 as usize * slots;
        match how {
            Outcome::None => {}
            Outcome::All => self.fill(first, slots, Seen::Blank),
            Outcome::Bad => self.fill(first, slots, Seen::Damaged),
        }
    }

    /// Writes the contents and the spare area of a slot, which is complete then.
    fn write(&mut self, at: usize, bytes: &[u8], spare_area: &[u8; 64])
        requires exists { at < slots_of self.old.shape }
        requires page { length bytes.now ≡ self.old.shape.page_bytes }
        ensures { self.new ≡ record self.old {
          image = slice_set self.old.image at (complete bytes.now spare_area.now);
        } }
    {
        write_cell(
            &mut self.bytes,
            self.head + at * cell_bytes(self.shape),
            bytes,
            spare_area,
        );
        self.seen[at] = Seen::Complete;
    }

    /// Takes the contents of this many slots away, from one on. They are blank or damaged then.
    fn fill(&mut self, first: usize, count: usize, how: Seen)
        requires exist { first + count ≤ slots_of self.old.shape }
        requires bare { how ≢ seen.Complete }
        ensures slots { length self.old.image ≡ slots_of self.old.shape }
        ensures filled { self.new ≡ record self.old {
          image = overwritten self.old.image first
              (replicate count (contents_of self.old.shape.page_bytes how []));
        } }
    {
        let size = cell_bytes(self.shape);
        mark(&mut self.seen, first, count, how);
        fill_cells(
            &mut self.bytes,
            self.head + first * size,
            count * size,
            filler(how),
        );
    }
}

ghost use Rattle.std.specs.Prelude.{◌≡◌, ℕ, ◌+◌, ◌*◌, ◌^◌, ◌<◌, ◌++◌, ◌∷◌, [], IfOk, OnOk, codes, length, replicate};
ghost use Rattle.std.specs.Fmt.{decimal};
ghost use Rattle.std.specs.List.{flat_map, join_with_byte, range_with_len};
ghost use Rattle.tx_types.specs.Config.{IsShape, blocks_of, slots_of};
ghost use Rattle.flash_picture.specs.Cells.{cell_at, is_named, slot_text};
ghost use Rattle.flash_picture.specs.Map.{before_cell, block_text, cell_text, cells_in_line, cells_text, die_text, is_spare, label_columns, label_word, label_words, map_text, padded, widest};

use crate::cell::{Cell, write_flag};
use crate::marks::Marks;
use crate::text::{add, add_count, add_number, add_spaces, pad};
use std::alloc::{AllocError, Global};
use tx_types::{Block, Shape, Slot};

/// The columns of the label before the row of a block.
pub const LABEL_COLUMNS: usize = 11;

/// The columns that cells have in a line of 80: all but those of the label and the last bar.
const CELL_COLUMNS: usize = 68;

/// What a map is drawn of.
#[derive(Clone, Copy)]
pub struct Map<'a> {
    pub shape: Shape,
    /// The cells of all slots, in order.
    pub cells: &'a [Cell],
    pub marks: Marks,
}

impl Map<'_> {
    /// Appends the map.
    pub fn write(&self, alloc: Global, text: &mut Vec<u8>) -> Result<(), AllocError>
        requires shape { IsShape self.now.shape }
        requires cells { length self.now.cells.now ≡ slots_of self.now.shape }
        ensures { let m = self.now in OnOk result (text.new.items
            ≡ text.old.items ++ map_text m.shape m.cells.now m.marks) }
    {
        let width = self.width(alloc)?;
        for block in 0..self.shape.blocks() {
            self.write_block(width, Block(block), text)?;
        }
        Ok(())
    }

    /// The greatest length of the text of a slot.
    pub fn width(&self, alloc: Global) -> Result<usize, AllocError>
        requires { IsShape self.now.shape }
        ensures width { let m = self.now in
            IfOk result (λ width. width ≡ widest m.cells.now m.marks (slots_of m.shape)) }
        ensures few { IfOk result (λ width. width < 2 ^ 63) }
    {
        let mut text = Vec::new(alloc);
        let width = self.widest(&mut text);
        drop(text);
        width
    }

    /// The same. Each text takes the place of what stands in `text`.
    fn widest(&self, text: &mut Vec<u8>) -> Result<usize, AllocError>
        requires { IsShape self.now.shape }
        ensures width { let m = self.now in
            IfOk result (λ width. width ≡ widest m.cells.now m.marks (slots_of m.shape)) }
        ensures few { IfOk result (λ width. width < 2 ^ 63) }
    {
        let mut width = 0;
        for slot in 0..self.shape.slots() {
            width = width.max(self.slot_width(Slot(slot), text)?);
        }
        Ok(width)
    }

    /// The length of the text of a slot, which takes the place of what stands in `text`.
    fn slot_width(&self, slot: Slot, text: &mut Vec<u8>) -> Result<usize, AllocError>
        ensures width { let m = self.now in
            IfOk result (λ width. width ≡ length (slot_text m.cells.now m.marks slot.0)) }
        ensures few { IfOk result (λ width. width < 2 ^ 63) }
    {
        text.clear();
        self.write_slot(slot, text)?;
        Ok(text.len())
    }

    /// Appends the row of a block, with the heading of its die where it is the first of that.
    fn write_block(&self, width: usize, block: Block, text: &mut Vec<u8>) -> Result<(), AllocError>
        requires shape { IsShape self.now.shape }
        requires width { width < 2 ^ 63 }
        requires exists { block.0 < blocks_of self.now.shape }
        ensures { let m = self.now in OnOk result (text.new.items
            ≡ text.old.items ++ block_text m.shape m.cells.now m.marks width block.0) }
    {
        write_die(self.shape, block, text)
            .and(self.write_cells(width, block, text))
            .and(add(b"|\n", text))
    }

    /// Appends the cells of a block, with its label and the ends of all lines but the last.
    fn write_cells(&self, width: usize, block: Block, text: &mut Vec<u8>) -> Result<(), AllocError>
        requires shape { IsShape self.now.shape }
        requires width { width < 2 ^ 63 }
        requires exists { block.0 < blocks_of self.now.shape }
        ensures { let m = self.now in OnOk result (text.new.items
            ≡ text.old.items ++ cells_text m.shape m.cells.now m.marks width block.0) }
    {
        for at in 0..self.shape.pages_per_block {
            self.write_cell(width, block, at, text)?;
        }
        Ok(())
    }

    /// Appends the cell of this number in its block.
    fn write_cell(
        &self,
        width: usize,
        block: Block,
        at: u32,
        text: &mut Vec<u8>,
    ) -> Result<(), AllocError>
        requires shape { IsShape self.now.shape }
        requires width { width < 2 ^ 63 }
        requires exists { block.0 < blocks_of self.now.shape }
        requires within { at < self.now.shape.pages_per_block }
        ensures { let m = self.now in OnOk result (text.new.items
            ≡ text.old.items ++ cell_text m.shape m.cells.now m.marks width block.0 at) }
    {
        let slot = slot_in(self.shape, block, at);
        self.write_before(width, block, at, text)
            .and(add(b"|", text).and(self.write_padded(width, slot, text)))
    }

    /// Appends the text of a slot, padded to a width.
    fn write_padded(&self, width: usize, slot: Slot, text: &mut Vec<u8>) -> Result<(), AllocError>
        ensures { let m = self.now in OnOk result (text.new.items
            ≡ text.old.items ++ padded width (slot_text m.cells.now m.marks slot.0)) }
    {
        let start = text.len();
        self.write_slot(slot, text)?;
        pad(start, width, text)
    }

    /// Appends what stands before the cell of this number in its block.
    fn write_before(
        &self,
        width: usize,
        block: Block,
        at: u32,
        text: &mut Vec<u8>,
    ) -> Result<(), AllocError>
        requires { width < 2 ^ 63 }
        ensures { let m = self.now in OnOk result (text.new.items
            ≡ text.old.items ++ before_cell m.marks width block.0 at) }
    {
        if at == 0 {
            self.write_label(block, text)
        } else if (at as usize).is_multiple_of(cells_in_line(width)) {
            begin_line(b"|\n", text)
        } else {
            Ok(())
        }
    }

    /// Appends the label of a block, padded to its columns.
    pub fn write_label(&self, block: Block, text: &mut Vec<u8>) -> Result<(), AllocError>
        ensures { OnOk result (text.new.items
            ≡ text.old.items ++ padded 11 (join_with_byte 32 (label_words self.now.marks block.0))) }
    {
        let start = text.len();
        self.write_label_words(block, text)?;
        pad(start, LABEL_COLUMNS, text)
    }

    /// Appends the words of the label of a block.
    pub fn write_label_words(&self, block: Block, text: &mut Vec<u8>) -> Result<(), AllocError>
        ensures { OnOk result (text.new.items
            ≡ text.old.items ++ join_with_byte 32 (label_words self.now.marks block.0)) }
    {
        add(label_word(self.is_spare(block)), text).and(add(b" ", text).and(add_number(
            u64::from(block.0),
            text,
        )))
    }

    /// Whether a block is the spare.
    fn is_spare(&self, block: Block) -> bool
        ensures { result ≡ is_spare self.now.marks.spare block.0 }
    {
        self.marks.spare == Some(block)
    }

    /// Appends the text of a slot.
    pub fn write_slot(&self, slot: Slot, text: &mut Vec<u8>) -> Result<(), AllocError>
        ensures { OnOk result (text.new.items
            ≡ text.old.items ++ slot_text self.now.cells.now self.now.marks slot.0) }
    {
        self.cell(slot).write(text)?;
        write_flag(self.is_named(slot), b"!", text)
    }

    /// Whether a broken law names a slot.
    pub fn is_named(&self, slot: Slot) -> bool
        ensures { result ≡ is_named self.now.marks.breach slot.0 }
    {
        match self.marks.breach {
            Some(breach) => breach.slot == slot,
            None => false,
        }
    }

    /// The cell of a slot.
    pub fn cell(&self, slot: Slot) -> Cell
        ensures { result ≡ cell_at self.now.cells.now slot.0 }
    {
        match self.cells.get(slot.0 as usize) {
            Some(cell) => *cell,
            None => Cell::Blank,
        }
    }
}

/// Appends the end of a line, and the columns of a label.
pub fn begin_line(end: &[u8], text: &mut Vec<u8>) -> Result<(), AllocError>
    ensures { OnOk result (text.new.items ≡ text.old.items ++ (end.now ++ replicate label_columns 32)) }
{
    add(end, text).and(add_spaces(LABEL_COLUMNS, text))
}

/// The word of the label of a block.
fn label_word(is_spare: bool) -> &'static [u8]
    ensures { result.now ≡ label_word is_spare }
{
    if is_spare { b"spare" } else { b"block" }
}

/// Appends the heading of a die before its first block.
pub fn write_die(shape: Shape, block: Block, text: &mut Vec<u8>) -> Result<(), AllocError>
    requires { IsShape shape }
    ensures { OnOk result (text.new.items ≡ text.old.items ++ die_text shape block.0) }
{
    if block.0.is_multiple_of(shape.blocks_per_die) {
        write_heading(block.0 / shape.blocks_per_die, text)
    } else {
        Ok(())
    }
}

/// Appends the heading of a die.
fn write_heading(die: u32, text: &mut Vec<u8>) -> Result<(), AllocError>
    ensures { OnOk result (text.new.items ≡ text.old.items ++ (codes "die " ++ decimal die ++ 10 ∷ [])) }
{
    add(b"die ", text)
        .and(add_count(die, text))
        .and(add(b"\n", text))
}

/// The slot of this number in a block.
pub fn slot_in(shape: Shape, block: Block, at: u32) -> Slot
    requires shape { IsShape shape }
    requires exists { block.0 < blocks_of shape }
    requires within { at < shape.pages_per_block }
    ensures { result.0 ≡ block.0 * shape.pages_per_block + at }
{
    Slot(shape.first_slot(block).0 + at)
}

/// How many cells of a width stand in a line.
fn cells_in_line(width: usize) -> usize
    requires { width < 2 ^ 63 }
    ensures count { result ≡ cells_in_line width }
    ensures some { 0 < result }
{
    (CELL_COLUMNS / (width + 1)).max(1)
}

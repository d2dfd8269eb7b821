//! The row of a block in an overview in SVG: its label, a line in the square of each slot for each kind of the slot,
//! and what a pointer shows.
ghost use Rattle.std.specs.Prelude.{◌≡◌, ◌*◌, ◌<◌, ◌++◌, OnOk};
ghost use Rattle.std.specs.List.{flat_map, range_with_len};
ghost use Rattle.tx_types.specs.Config.{IsShape, blocks_of};
ghost use Rattle.flash_picture.specs.Kinds.{all_kinds, count_of};
ghost use Rattle.flash_picture.specs.OverviewSvg.{count_words, dash, dash_if, dashes, kind_svg, label_of, label_spot, pointed, pointed_inside, pointed_slots, row_inside, row_svg, row_title};
ghost use Rattle.flash_picture.specs.Pieces.{group_begin, title, words_at};

use crate::kind::{Kind, all_kinds};
use crate::map::{Map, slot_in};
use crate::pieces::{add_point, add_rectangle, open_group, open_words};
use crate::squares::{label_spot, square_in};
use crate::text::{add, add_number};
use std::alloc::AllocError;
use tx_types::Block;

/// A flash of more slots has no titles for single slots.
const MOST_TITLED: u32 = 4096;

impl Map<'_> {
    /// Appends the row of a block.
    pub fn write_square_row(&self, block: Block, text: &mut Vec<u8>) -> Result<(), AllocError>
        requires shape { IsShape self.now.shape }
        requires exists { block.0 < blocks_of self.now.shape }
        ensures { let m = self.now in OnOk result (text.new.items
            ≡ text.old.items ++ row_svg m.shape m.cells.now m.marks block.0) }
    {
        self.open_row(block, text)
            .and(self.write_row_inside(block, text))
            .and(add(b"</g>\n", text))
    }

    /// Begins what is drawn under the label of a block as its class.
    #[tactic(auto, unfolding(crate::specs::Pieces::group_begin))]
    pub fn open_row(&self, block: Block, text: &mut Vec<u8>) -> Result<(), AllocError>
        ensures { OnOk result (text.new.items
            ≡ text.old.items ++ group_begin (label_of self.now.marks block.0)) }
    {
        add(b"<g class='", text)
            .and(self.write_label_words(block, text))
            .and(add(b"'>", text))
    }

    /// Appends what the row of a block has in it.
    fn write_row_inside(&self, block: Block, text: &mut Vec<u8>) -> Result<(), AllocError>
        requires shape { IsShape self.now.shape }
        requires exists { block.0 < blocks_of self.now.shape }
        ensures { let m = self.now in OnOk result (text.new.items
            ≡ text.old.items ++ row_inside m.shape m.cells.now m.marks block.0) }
    {
        self.write_row_title(block, text)
            .and(self.write_row_label(block, text))
            .and(self.write_kinds(block, text))
            .and(self.write_pointed_slots(block, text))
    }

    /// Appends what a pointer shows at a row.
    fn write_row_title(&self, block: Block, text: &mut Vec<u8>) -> Result<(), AllocError>
        requires shape { IsShape self.now.shape }
        requires exists { block.0 < blocks_of self.now.shape }
        ensures { let m = self.now in OnOk result (text.new.items
            ≡ text.old.items ++ title (row_title m.shape m.cells.now m.marks block.0)) }
    {
        add(b"<title>", text)
            .and(self.write_row_words(block, text))
            .and(add(b"</title>", text))
    }

    /// Appends the label of a block, and how many of its slots are of each kind.
    fn write_row_words(&self, block: Block, text: &mut Vec<u8>) -> Result<(), AllocError>
        requires shape { IsShape self.now.shape }
        requires exists { block.0 < blocks_of self.now.shape }
        ensures { let m = self.now in OnOk result (text.new.items
            ≡ text.old.items ++ row_title m.shape m.cells.now m.marks block.0) }
    {
        self.write_label_words(block, text)
            .and(self.write_block_counts(block, text))
    }

    /// Appends how many slots of a block are of each kind.
    fn write_block_counts(&self, block: Block, text: &mut Vec<u8>) -> Result<(), AllocError>
        requires shape { IsShape self.now.shape }
        requires exists { block.0 < blocks_of self.now.shape }
        ensures { let m = self.now in OnOk result (text.new.items
            ≡ text.old.items ++ flat_map (count_words m.shape m.cells.now block.0) all_kinds) }
    {
        let kinds = all_kinds();
        for kind in kinds {
            self.write_block_count(block, *kind, text)?;
        }
        Ok(())
    }

    /// Appends how many slots of a block are of a kind.
    fn write_block_count(
        &self,
        block: Block,
        kind: Kind,
        text: &mut Vec<u8>,
    ) -> Result<(), AllocError>
        requires shape { IsShape self.now.shape }
        requires exists { block.0 < blocks_of self.now.shape }
        ensures { let m = self.now in OnOk result (text.new.items
            ≡ text.old.items ++ count_words m.shape m.cells.now block.0 kind) }
    {
        add(b" ", text)
            .and(add(kind.word(), text))
            .and(add(b" ", text))
            .and(add_number(self.count_in(block, kind), text))
    }

    /// How many slots of a block are of a kind.
    fn count_in(&self, block: Block, kind: Kind) -> u64
        requires shape { IsShape self.now.shape }
        requires exists { block.0 < blocks_of self.now.shape }
        ensures { let m = self.now in result ≡ count_of m.cells.now kind
            (block.0 * m.shape.pages_per_block) m.shape.pages_per_block }
    {
        let first = slot_in(self.shape, block, 0);
        self.count(kind, first.0, self.shape.pages_per_block)
    }

    /// Appends the label of a block in its row.
    fn write_row_label(&self, block: Block, text: &mut Vec<u8>) -> Result<(), AllocError>
        requires { IsShape self.now.shape }
        ensures { let m = self.now in OnOk result (text.new.items
            ≡ text.old.items ++ words_at (label_spot m.shape block.0) (label_of m.marks block.0)) }
    {
        open_words(label_spot(self.shape, block.0), text)
            .and(self.write_label_words(block, text))
            .and(add(b"</text>", text))
    }

    /// Appends the lines of all kinds of the slots of a block.
    fn write_kinds(&self, block: Block, text: &mut Vec<u8>) -> Result<(), AllocError>
        requires shape { IsShape self.now.shape }
        requires exists { block.0 < blocks_of self.now.shape }
        ensures { let m = self.now in OnOk result (text.new.items
            ≡ text.old.items ++ flat_map (kind_svg m.shape m.cells.now block.0) all_kinds) }
    {
        let kinds = all_kinds();
        for kind in kinds {
            self.write_kind(block, *kind, text)?;
        }
        Ok(())
    }

    /// Appends the lines of the slots of a block that are of a kind.
    fn write_kind(&self, block: Block, kind: Kind, text: &mut Vec<u8>) -> Result<(), AllocError>
        requires shape { IsShape self.now.shape }
        requires exists { block.0 < blocks_of self.now.shape }
        ensures { let m = self.now in OnOk result (text.new.items
            ≡ text.old.items ++ kind_svg m.shape m.cells.now block.0 kind) }
    {
        add(b"<path class='", text)
            .and(add(kind.word(), text))
            .and(add(b"' d='", text))
            .and(self.write_dashes(block, kind, text))
            .and(add(b"'/>", text))
    }

    /// Appends a line in the square of each slot of a block that is of a kind.
    fn write_dashes(&self, block: Block, kind: Kind, text: &mut Vec<u8>) -> Result<(), AllocError>
        requires shape { IsShape self.now.shape }
        requires exists { block.0 < blocks_of self.now.shape }
        ensures { let m = self.now in OnOk result (text.new.items
            ≡ text.old.items ++ dashes m.shape m.cells.now block.0 kind) }
    {
        for at in 0..self.shape.pages_per_block {
            self.write_dash_if(block, kind, at, text)?;
        }
        Ok(())
    }

    /// Appends a line in the square of this number in a block, where the slot is of a kind.
    fn write_dash_if(
        &self,
        block: Block,
        kind: Kind,
        at: u32,
        text: &mut Vec<u8>,
    ) -> Result<(), AllocError>
        requires shape { IsShape self.now.shape }
        requires exists { block.0 < blocks_of self.now.shape }
        requires within { at < self.now.shape.pages_per_block }
        ensures { let m = self.now in OnOk result (text.new.items
            ≡ text.old.items ++ dash_if m.shape m.cells.now block.0 kind at) }
    {
        if kind.is_of(self.cell(slot_in(self.shape, block, at))) {
            self.write_dash(block, kind, at, text)
        } else {
            Ok(())
        }
    }

    /// Appends a line in the square of this number in a block.
    fn write_dash(
        &self,
        block: Block,
        kind: Kind,
        at: u32,
        text: &mut Vec<u8>,
    ) -> Result<(), AllocError>
        requires { IsShape self.now.shape }
        ensures { OnOk result (text.new.items
            ≡ text.old.items ++ dash self.now.shape block.0 kind at) }
    {
        let square = square_in(self.shape, block.0, at);
        add_point(b"M", square.beside(0, kind.line_offset()), text).and(add(b"h5", text))
    }

    /// Appends what a pointer shows at the slots of a block, where a flash has few.
    fn write_pointed_slots(&self, block: Block, text: &mut Vec<u8>) -> Result<(), AllocError>
        requires shape { IsShape self.now.shape }
        requires exists { block.0 < blocks_of self.now.shape }
        ensures { let m = self.now in OnOk result (text.new.items
            ≡ text.old.items ++ pointed_slots m.shape m.cells.now m.marks block.0) }
    {
        if self.shape.slots() > MOST_TITLED {
            Ok(())
        } else {
            self.write_all_pointed(block, text)
        }
    }

    /// Appends what a pointer shows at the slots of a block.
    fn write_all_pointed(&self, block: Block, text: &mut Vec<u8>) -> Result<(), AllocError>
        requires shape { IsShape self.now.shape }
        requires exists { block.0 < blocks_of self.now.shape }
        ensures { let m = self.now in OnOk result (text.new.items ≡ text.old.items
            ++ flat_map (pointed m.shape m.cells.now m.marks block.0) (range_with_len 0 m.shape.pages_per_block)) }
    {
        for at in 0..self.shape.pages_per_block {
            self.write_pointed(block, at, text)?;
        }
        Ok(())
    }

    /// Appends what a pointer shows at the square of this number in a block.
    fn write_pointed(&self, block: Block, at: u32, text: &mut Vec<u8>) -> Result<(), AllocError>
        requires shape { IsShape self.now.shape }
        requires exists { block.0 < blocks_of self.now.shape }
        requires within { at < self.now.shape.pages_per_block }
        ensures { let m = self.now in OnOk result (text.new.items
            ≡ text.old.items ++ pointed m.shape m.cells.now m.marks block.0 at) }
    {
        open_group(b"slot", text)
            .and(self.write_pointed_inside(block, at, text))
            .and(add(b"</g>\n", text))
    }

    /// Appends the title of the square of this number in a block, and a rectangle that a pointer finds.
    fn write_pointed_inside(
        &self,
        block: Block,
        at: u32,
        text: &mut Vec<u8>,
    ) -> Result<(), AllocError>
        requires shape { IsShape self.now.shape }
        requires exists { block.0 < blocks_of self.now.shape }
        requires within { at < self.now.shape.pages_per_block }
        ensures { let m = self.now in OnOk result (text.new.items
            ≡ text.old.items ++ pointed_inside m.shape m.cells.now m.marks block.0 at) }
    {
        self.write_title(slot_in(self.shape, block, at), text).and(add_rectangle(
            square_in(self.shape, block.0, at),
            6,
            8,
            text,
        ))
    }
}

//! The map of a picture in SVG: headings of dies, labels of blocks, cells of slots, and arrows between cells.
ghost use Rattle.std.specs.Prelude.{◌≡◌, ◌<◌, ◌++◌, OnOk, codes};
ghost use Rattle.std.specs.List.{flat_map, join_with_byte, range_with_len};
ghost use Rattle.tx_types.specs.Config.{blocks_of, slots_of};
ghost use Rattle.flash_picture.specs.Cells.{slot_text};
ghost use Rattle.flash_picture.specs.Grid.{IsGrid};
ghost use Rattle.flash_picture.specs.Map.{label_words};
ghost use Rattle.flash_picture.specs.Pieces.{group_begin};
ghost use Rattle.flash_picture.specs.Svg.{arrow_svg, arrow_to, cell_svg, cells_svg, die_heading, first_slot, is_loose_rank, is_in_view, label_svg, map_svg, target, visible_arrow_svg, view_target, visible_arrow_to, visible_arrows_svg};

use crate::cell::{Cell, Rank};
use crate::grid::{Grid, Spot};
use crate::map::Map;
use crate::pieces::{add_curve, add_rectangle, open_group, open_words};
use crate::text::{add, add_count};
use record_list::Found;
use sorted_records::SortedRecords;
use std::alloc::AllocError;
use tx_types::{Block, Slot};

/// A map, and where its cells stand.
#[derive(Clone, Copy)]
pub struct Plan<'a> {
    pub map: Map<'a>,
    pub grid: Grid,
}

impl Plan<'_> {
    /// Appends the map.
    pub fn write(&self, chart: &SortedRecords, text: &mut Vec<u8>) -> Result<(), AllocError>
        requires { IsGrid self.now.grid }
        ensures { let p = self.now in OnOk result (text.new.items
            ≡ text.old.items ++ map_svg p.grid chart.now p.map.cells.now p.map.marks) }
    {
        self.write_dies(text)
            .and(self.write_labels(text))
            .and(self.write_visible_arrows(chart, text))
            .and(self.write_cells(chart, text))
    }

    /// Appends the headings of all dies.
    fn write_dies(&self, text: &mut Vec<u8>) -> Result<(), AllocError>
        requires { IsGrid self.now.grid }
        ensures { let grid = self.now.grid in OnOk result (text.new.items
            ≡ text.old.items ++ flat_map (die_heading grid) (range_with_len 0 grid.shape.dies)) }
    {
        for die in 0..self.grid.shape.dies {
            self.write_die(die, text)?;
        }
        Ok(())
    }

    /// Appends the heading of a die.
    fn write_die(&self, die: u32, text: &mut Vec<u8>) -> Result<(), AllocError>
        requires grid { IsGrid self.now.grid }
        requires exists { die < self.now.grid.shape.dies }
        ensures { OnOk result (text.new.items ≡ text.old.items ++ die_heading self.now.grid die) }
    {
        let top = self.grid.top_of_block(die * self.grid.shape.blocks_per_die);
        let spot = Spot {
            left: 8,
            top: top + 24,
        };
        open_group(b"die", text)
            .and(open_words(spot, text).and(add(b"die ", text).and(add_count(die, text))))
            .and(add(b"</text></g>\n", text))
    }

    /// Appends the labels of all blocks.
    fn write_labels(&self, text: &mut Vec<u8>) -> Result<(), AllocError>
        requires { IsGrid self.now.grid }
        ensures { let p = self.now in OnOk result (text.new.items ≡ text.old.items
            ++ flat_map (label_svg p.grid p.map.marks) (range_with_len 0 (blocks_of p.grid.shape))) }
    {
        for block in 0..self.grid.shape.blocks() {
            self.write_label(Block(block), text)?;
        }
        Ok(())
    }

    /// Appends the label of a block.
    fn write_label(&self, block: Block, text: &mut Vec<u8>) -> Result<(), AllocError>
        requires { IsGrid self.now.grid }
        ensures { let p = self.now in OnOk result (text.new.items
            ≡ text.old.items ++ label_svg p.grid p.map.marks block.0) }
    {
        let top = self.grid.top_of_block(block.0);
        let spot = Spot {
            left: 8,
            top: top + 58,
        };
        self.open_label(block, text)
            .and(open_words(spot, text).and(self.map.write_label_words(block, text)))
            .and(add(b"</text></g>\n", text))
    }

    /// Begins what is drawn under the label of a block as its class.
    #[tactic(auto, unfolding(crate::specs::Pieces::group_begin))]
    fn open_label(&self, block: Block, text: &mut Vec<u8>) -> Result<(), AllocError>
        ensures { let marks = self.now.map.marks in OnOk result (text.new.items
            ≡ text.old.items ++ group_begin (join_with_byte 32 (label_words marks block.0))) }
    {
        add(b"<g class='", text)
            .and(self.map.write_label_words(block, text))
            .and(add(b"'>", text))
    }

    /// Appends the cells of all slots.
    fn write_cells(&self, chart: &SortedRecords, text: &mut Vec<u8>) -> Result<(), AllocError>
        requires { IsGrid self.now.grid }
        ensures { let p = self.now in OnOk result (text.new.items
            ≡ text.old.items ++ cells_svg p.grid chart.now p.map.cells.now p.map.marks) }
    {
        for slot in 0..self.grid.shape.slots() {
            self.write_cell(chart, Slot(slot), text)?;
        }
        Ok(())
    }

    /// Appends the cell of a slot.
    fn write_cell(
        &self,
        chart: &SortedRecords,
        slot: Slot,
        text: &mut Vec<u8>,
    ) -> Result<(), AllocError>
        requires { IsGrid self.now.grid }
        ensures { let p = self.now in OnOk result (text.new.items
            ≡ text.old.items ++ cell_svg p.grid chart.now p.map.cells.now p.map.marks slot.0) }
    {
        let spot = self.grid.spot(slot);
        self.open_group(slot, text)
            .and(
                self.map
                    .write_title(slot, text)
                    .and(self.write_arrow(chart, slot, text))
                    .and(add_rectangle(spot.beside(0, 10), self.grid.cell_width(), 24, text))
                    .and(open_words(spot.beside(8, 26), text).and(self.map.write_slot(slot, text))),
            )
            .and(add(b"</text></g>\n", text))
    }

    /// Begins what is drawn under the words of a slot as its class.
    #[tactic(auto, unfolding(crate::specs::Pieces::group_begin))]
    fn open_group(&self, slot: Slot, text: &mut Vec<u8>) -> Result<(), AllocError>
        ensures { let m = self.now.map in OnOk result (text.new.items
            ≡ text.old.items ++ group_begin (slot_text m.cells.now m.marks slot.0)) }
    {
        add(b"<g class='", text)
            .and(self.map.write_slot(slot, text))
            .and(add(b"'>", text))
    }

    /// Appends the arrows that are in view.
    fn write_visible_arrows(
        &self,
        chart: &SortedRecords,
        text: &mut Vec<u8>,
    ) -> Result<(), AllocError>
        requires { IsGrid self.now.grid }
        ensures { let p = self.now in OnOk result (text.new.items
            ≡ text.old.items ++ visible_arrows_svg p.grid chart.now p.map.cells.now p.map.marks) }
    {
        for slot in 0..self.grid.shape.slots() {
            self.write_visible_arrow(chart, Slot(slot), text)?;
        }
        Ok(())
    }

    /// Appends the arrow from the cell of a slot, if it is in view.
    fn write_visible_arrow(
        &self,
        chart: &SortedRecords,
        slot: Slot,
        text: &mut Vec<u8>,
    ) -> Result<(), AllocError>
        requires { IsGrid self.now.grid }
        ensures { let p = self.now in OnOk result (text.new.items
            ≡ text.old.items ++ visible_arrow_svg p.grid chart.now p.map.cells.now p.map.marks slot.0) }
    {
        self.write_visible_arrow_to(slot, view_target(chart, self.map.cell(slot)), text)
    }

    /// Appends an arrow in view from the cell of a slot to that of another one, if there is one.
    fn write_visible_arrow_to(
        &self,
        slot: Slot,
        target: Option<Slot>,
        text: &mut Vec<u8>,
    ) -> Result<(), AllocError>
        requires { IsGrid self.now.grid }
        ensures { let p = self.now in OnOk result (text.new.items ≡ text.old.items
            ++ visible_arrow_to p.grid (slot_text p.map.cells.now p.map.marks slot.0) slot.0 target) }
    {
        match target {
            None => Ok(()),
            Some(to) => {
                self.open_visible_arrow(slot, text)
                    .and(add_curve(self.grid.spot(slot), self.grid.spot(to), text))
                    .and(add(b"</g>\n", text))
            }
        }
    }

    /// Begins an arrow that is in view, from the cell of a slot.
    #[tactic(auto, unfolding(crate::specs::Pieces::group_begin))]
    fn open_visible_arrow(&self, slot: Slot, text: &mut Vec<u8>) -> Result<(), AllocError>
        ensures { let m = self.now.map in OnOk result (text.new.items
            ≡ text.old.items ++ group_begin (codes "arrow " ++ slot_text m.cells.now m.marks slot.0)) }
    {
        add(b"<g class='arrow ", text)
            .and(self.map.write_slot(slot, text))
            .and(add(b"'>", text))
    }

    /// Appends the arrow from the cell of a slot.
    fn write_arrow(
        &self,
        chart: &SortedRecords,
        slot: Slot,
        text: &mut Vec<u8>,
    ) -> Result<(), AllocError>
        requires { IsGrid self.now.grid }
        ensures { let p = self.now in OnOk result (text.new.items
            ≡ text.old.items ++ arrow_svg p.grid chart.now p.map.cells.now slot.0) }
    {
        self.write_arrow_to(slot, target(chart, self.map.cell(slot)), text)
    }

    /// Appends an arrow from the cell of a slot to that of another one, if there is one.
    fn write_arrow_to(
        &self,
        slot: Slot,
        target: Option<Slot>,
        text: &mut Vec<u8>,
    ) -> Result<(), AllocError>
        requires { IsGrid self.now.grid }
        ensures { OnOk result (text.new.items
            ≡ text.old.items ++ arrow_to self.now.grid slot.0 target) }
    {
        match target {
            None => Ok(()),
            Some(to) => add_curve(self.grid.spot(slot), self.grid.spot(to), text),
        }
    }
}

/// The slot to which the record of a cell links, if there is one, and the arrow is in view.
fn view_target(chart: &SortedRecords, cell: Cell) -> Option<Slot>
    ensures { result ≡ view_target chart.now cell }
{
    if is_in_view(cell) {
        target(chart, cell)
    } else {
        None
    }
}

/// Whether the arrow from a cell is in view without a pointer: that of a loose record, and of one that is held.
pub fn is_in_view(cell: Cell) -> bool
    ensures { result ≡ is_in_view cell }
{
    match cell {
        Cell::Blank => false,
        Cell::Damaged => false,
        Cell::Holds { rank, held, .. } => is_loose_rank(rank) || held,
    }
}

/// Whether a record of this rank is above the current one.
pub fn is_loose_rank(rank: Rank) -> bool
    ensures { result ≡ is_loose_rank rank }
{
    match rank {
        Rank::Current => false,
        Rank::Loose => true,
        Rank::Stale => false,
    }
}

/// The slot to which the record of a cell links, if there is one.
fn target(chart: &SortedRecords, cell: Cell) -> Option<Slot>
    ensures { result ≡ target chart.now cell }
{
    match cell {
        Cell::Blank => None,
        Cell::Damaged => None,
        Cell::Holds { rec, .. } => first_slot(chart.with_name(rec.next)),
    }
}

/// The slot of the first of some records, if there is one.
fn first_slot(records: &[Found]) -> Option<Slot>
    ensures { result ≡ first_slot records.now }
{
    Some(records.first()?.slot)
}

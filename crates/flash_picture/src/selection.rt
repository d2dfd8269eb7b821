//! What is said of the slots that a selection names.
ghost use Rattle.std.specs.Prelude.{◌≡◌, ◌<◌, ◌++◌, Ok, OnErr, OnOk, length};
ghost use Rattle.std.specs.List.{join_with_byte};
ghost use Rattle.tx_types.specs.Config.{IsShape, checked, shape_of, slots_of};
ghost use Rattle.flash_picture.specs.Cells.{cell_at};
ghost use Rattle.flash_picture.specs.Selection.{is_of_page, is_selected, line_if, selected, selected_line, selected_lines, selected_parts, selected_walks, slot_line};

use crate::cell::Cell;
use crate::cells::NotedCells;
use crate::map::Map;
use crate::marks::Marks;
use crate::picture::{shape, write_breach, write_heading};
use crate::svg_map::is_in_view;
use crate::text::{add, append};
use crate::walk::{End, write_walk, write_walks};
use judged_records::Note;
use sorted_records::SortedRecords;
use std::alloc::{AllocError, Global};
use tx_types::{Block, Config, Memory, Slot};

/// The slots of a flash of which something is asked.
#[derive(Clone, Copy, PartialEq, Eq)]
pub enum Selection {
    /// Those of a block.
    Block(u32),
    /// Those with records of a page.
    Page(u32),
    /// Those with loose records, and with records that are held for them.
    Loose,
}

/// Appends what is said of the slots that a selection names. After `Memory` the bytes are as before.
///
/// The first line is that of a picture. Then each slot that is named has a line: its block, its number, the words of
/// its cell, and of a record the link and the back version. Then come walks, in the lines of a picture: that of the
/// page that is named, where its newest version does not count, or all, where loose records are asked for. Last comes
/// the law that is broken, if one is.
pub fn draw_selected(
    alloc: Global,
    config: Config,
    notes: &[Note],
    marks: Marks,
    selection: Selection,
    out: &mut Vec<u8>,
) -> Result<(), Memory>
    requires check { checked config ≡ Ok (shape_of config) }
    requires whole { length notes.now ≡ slots_of (shape_of config) }
    ensures text { OnOk result (out.new.items ≡ out.old.items ++ selected config notes.now marks selection) }
    ensures err { OnErr result (out.new.items ≡ out.old.items) }
{
    let mut text = Vec::new(alloc);
    write_selected(alloc, config, notes, marks, selection, &mut text)?;
    append(text, out)
}

/// Appends what is said of the slots that a selection names.
fn write_selected(
    alloc: Global,
    config: Config,
    notes: &[Note],
    marks: Marks,
    selection: Selection,
    text: &mut Vec<u8>,
) -> Result<(), AllocError>
    requires check { checked config ≡ Ok (shape_of config) }
    requires whole { length notes.now ≡ slots_of (shape_of config) }
    ensures { OnOk result (text.new.items ≡ text.old.items ++ selected config notes.now marks selection) }
{
    let noted = NotedCells::of(alloc, config, notes)?;
    let map = Map {
        shape: shape(config),
        cells: &noted.cells,
        marks,
    };
    let chart = noted.standing.sorted_records();
    let outcome = write_parts(alloc, config, chart, &map, selection, text);
    drop(noted);
    outcome
}

/// Appends what is said of records with these cells.
fn write_parts(
    alloc: Global,
    config: Config,
    chart: &SortedRecords,
    map: &Map<'_>,
    selection: Selection,
    text: &mut Vec<u8>,
) -> Result<(), AllocError>
    requires { IsShape map.now.shape }
    ensures { let m = map.now in OnOk result (text.new.items ≡ text.old.items
        ++ selected_parts config m.shape chart.now m.cells.now m.marks selection) }
{
    write_heading(config, text)
        .and(map.write_selected(selection, text))
        .and(write_selected_walks(alloc, config, chart, selection, text))
        .and(write_breach(map.marks.breach, text))
}

/// Appends the walks of a selection.
fn write_selected_walks(
    alloc: Global,
    config: Config,
    chart: &SortedRecords,
    selection: Selection,
    text: &mut Vec<u8>,
) -> Result<(), AllocError>
    ensures { OnOk result (text.new.items
        ≡ text.old.items ++ selected_walks config.protocol chart.now config.logical selection) }
{
    match selection {
        Selection::Block(_) => Ok(()),
        Selection::Page(page) => {
            let end = End::of_page(chart, config.protocol, config.logical, page);
            write_walk(alloc, chart, config.logical, page, end, text)
        }
        Selection::Loose => write_walks(alloc, chart, config.protocol, config.logical, text),
    }
}

impl Map<'_> {
    /// Appends the lines of the slots that a selection names.
    fn write_selected(&self, selection: Selection, text: &mut Vec<u8>) -> Result<(), AllocError>
        requires { IsShape self.now.shape }
        ensures { let m = self.now in OnOk result (text.new.items
            ≡ text.old.items ++ selected_lines m.shape m.cells.now m.marks selection) }
    {
        for slot in 0..self.shape.slots() {
            self.write_selected_line(selection, Slot(slot), text)?;
        }
        Ok(())
    }

    /// Appends the line of a slot, if a selection names it.
    fn write_selected_line(
        &self,
        selection: Selection,
        slot: Slot,
        text: &mut Vec<u8>,
    ) -> Result<(), AllocError>
        requires { IsShape self.now.shape }
        ensures { let m = self.now in OnOk result (text.new.items
            ≡ text.old.items ++ selected_line m.shape m.cells.now m.marks selection slot.0) }
    {
        self.write_line_if(self.is_selected(selection, slot), slot, text)
    }

    /// Whether a selection names a slot.
    fn is_selected(&self, selection: Selection, slot: Slot) -> bool
        requires { IsShape self.now.shape }
        ensures { let m = self.now in
            result ≡ is_selected m.shape selection (cell_at m.cells.now slot.0) slot.0 }
    {
        match selection {
            Selection::Block(block) => slot.0 / self.shape.pages_per_block == block,
            Selection::Page(page) => is_of_page(page, self.cell(slot)),
            Selection::Loose => is_in_view(self.cell(slot)),
        }
    }

    /// Appends the line of a slot, where it is selected.
    fn write_line_if(&self, there: bool, slot: Slot, text: &mut Vec<u8>) -> Result<(), AllocError>
        requires { IsShape self.now.shape }
        ensures { let m = self.now in OnOk result (text.new.items
            ≡ text.old.items ++ line_if there (slot_line m.shape m.cells.now m.marks slot.0)) }
    {
        if there {
            self.write_slot_line(slot, text)
        } else {
            Ok(())
        }
    }

    /// Appends the line of a slot.
    fn write_slot_line(&self, slot: Slot, text: &mut Vec<u8>) -> Result<(), AllocError>
        requires { IsShape self.now.shape }
        ensures { let m = self.now in OnOk result (text.new.items
            ≡ text.old.items ++ slot_line m.shape m.cells.now m.marks slot.0) }
    {
        let block = Block(slot.0 / self.shape.pages_per_block);
        self.write_label_words(block, text)
            .and(add(b" ", text))
            .and(self.write_slot_title(slot, text))
            .and(add(b"\n", text))
    }
}

/// Whether a cell has a record of a page.
fn is_of_page(page: u32, cell: Cell) -> bool
    ensures { result ≡ is_of_page page cell }
{
    match cell {
        Cell::Blank => false,
        Cell::Damaged => false,
        Cell::Holds { rec, .. } => rec.page == page,
    }
}

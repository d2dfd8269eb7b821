//! The overview of a flash of many slots: as text a letter for each slot, and how many slots are of each kind.
ghost use Rattle.std.specs.Prelude.{◌≡◌, ◌+◌, ◌*◌, ◌<◌, ◌≤◌, ◌^◌, ◌++◌, ◌∷◌, [], Ok, OnErr, OnOk, length};
ghost use Rattle.std.specs.List.{flat_map};
ghost use Rattle.tx_types.specs.Config.{IsShape, blocks_of, checked, shape_of, slots_of};
ghost use Rattle.flash_picture.specs.Kinds.{count_of, one_if};
ghost use Rattle.flash_picture.specs.Overview.{before_sign, count_text, counts_text, letter, overview_text, rank_letter, row_text, rows_text, sign_at, sign_text, signs_text};
ghost use Rattle.flash_picture.specs.OverviewSvg.{overview, overview_by};

use crate::cell::{Cell, Rank};
use crate::cells::NotedCells;
use crate::kind::{Kind, all_kinds};
use crate::map::{Map, begin_line, slot_in, write_die};
use crate::marks::Marks;
use crate::overview_svg::write_svg;
use crate::picture::{shape, write_breach, write_heading};
use crate::text::{add, add_byte, add_number, append};
use crate::walk::write_walks;
use judged_records::Note;
use sorted_records::SortedRecords;
use std::alloc::{AllocError, Global};
use tx_types::{Block, Config, Memory, Slot};

/// How many letters stand in a line.
const SIGNS_IN_LINE: u32 = 64;

/// Appends the overview of a device whose slots are noted so, in SVG or as lines of text. After `Memory` the bytes are
/// as before.
///
/// As text the first line is that of a picture. Then each block has a row of letters, one for each slot, 64 in a line:
/// a dot for a blank slot, `x` for a damaged one, `c`, `l` or `s` for a current, loose or stale record, a capital where
/// the record is held, and `!` where a broken law names the slot. Then lines say how many slots are of each kind. Walks
/// and a law that is broken are as in a picture. In SVG each slot is a square.
pub fn draw_overview(
    alloc: Global,
    config: Config,
    notes: &[Note],
    marks: Marks,
    in_svg: bool,
    out: &mut Vec<u8>,
) -> Result<(), Memory>
    requires check { checked config ≡ Ok (shape_of config) }
    requires whole { length notes.now ≡ slots_of (shape_of config) }
    ensures text { OnOk result (out.new.items ≡ out.old.items ++ overview in_svg config notes.now marks) }
    ensures err { OnErr result (out.new.items ≡ out.old.items) }
{
    let mut text = Vec::new(alloc);
    write_overview(alloc, config, notes, marks, in_svg, &mut text)?;
    append(text, out)
}

/// Appends the overview.
fn write_overview(
    alloc: Global,
    config: Config,
    notes: &[Note],
    marks: Marks,
    in_svg: bool,
    text: &mut Vec<u8>,
) -> Result<(), AllocError>
    requires check { checked config ≡ Ok (shape_of config) }
    requires whole { length notes.now ≡ slots_of (shape_of config) }
    ensures { OnOk result (text.new.items ≡ text.old.items ++ overview in_svg config notes.now marks) }
{
    let noted = NotedCells::of(alloc, config, notes)?;
    let map = Map {
        shape: shape(config),
        cells: &noted.cells,
        marks,
    };
    let chart = noted.standing.sorted_records();
    let outcome = write_by(alloc, config, chart, &map, in_svg, text);
    drop(noted);
    outcome
}

/// Appends the overview of records with these cells.
fn write_by(
    alloc: Global,
    config: Config,
    chart: &SortedRecords,
    map: &Map<'_>,
    in_svg: bool,
    text: &mut Vec<u8>,
) -> Result<(), AllocError>
    requires { IsShape map.now.shape }
    ensures { let m = map.now in OnOk result (text.new.items ≡ text.old.items
        ++ overview_by in_svg config m.shape chart.now m.cells.now m.marks) }
{
    if in_svg {
        write_svg(alloc, config, chart, map, text)
    } else {
        write_text(alloc, config, chart, map, text)
    }
}

/// Appends the overview of records with these cells as text.
fn write_text(
    alloc: Global,
    config: Config,
    chart: &SortedRecords,
    map: &Map<'_>,
    text: &mut Vec<u8>,
) -> Result<(), AllocError>
    requires { IsShape map.now.shape }
    ensures { let m = map.now in OnOk result (text.new.items ≡ text.old.items
        ++ overview_text config m.shape chart.now m.cells.now m.marks) }
{
    write_heading(config, text)
        .and(map.write_rows(text))
        .and(map.write_counts(text))
        .and(write_walks(alloc, chart, config.protocol, config.logical, text))
        .and(write_breach(map.marks.breach, text))
}

impl Map<'_> {
    /// Appends the letters of all blocks.
    fn write_rows(&self, text: &mut Vec<u8>) -> Result<(), AllocError>
        requires { IsShape self.now.shape }
        ensures { let m = self.now in OnOk result (text.new.items
            ≡ text.old.items ++ rows_text m.shape m.cells.now m.marks) }
    {
        for block in 0..self.shape.blocks() {
            self.write_row(Block(block), text)?;
        }
        Ok(())
    }

    /// Appends the letters of a block, with the heading of its die where it is the first of that.
    fn write_row(&self, block: Block, text: &mut Vec<u8>) -> Result<(), AllocError>
        requires shape { IsShape self.now.shape }
        requires exists { block.0 < blocks_of self.now.shape }
        ensures { let m = self.now in OnOk result (text.new.items
            ≡ text.old.items ++ row_text m.shape m.cells.now m.marks block.0) }
    {
        write_die(self.shape, block, text)
            .and(self.write_signs(block, text))
            .and(add(b"\n", text))
    }

    /// Appends the letters of a block, with its label and the ends of all lines but the last.
    fn write_signs(&self, block: Block, text: &mut Vec<u8>) -> Result<(), AllocError>
        requires shape { IsShape self.now.shape }
        requires exists { block.0 < blocks_of self.now.shape }
        ensures { let m = self.now in OnOk result (text.new.items
            ≡ text.old.items ++ signs_text m.shape m.cells.now m.marks block.0) }
    {
        for at in 0..self.shape.pages_per_block {
            self.write_sign(block, at, text)?;
        }
        Ok(())
    }

    /// Appends the letter of this number in its block, with what stands before it.
    fn write_sign(&self, block: Block, at: u32, text: &mut Vec<u8>) -> Result<(), AllocError>
        requires shape { IsShape self.now.shape }
        requires exists { block.0 < blocks_of self.now.shape }
        requires within { at < self.now.shape.pages_per_block }
        ensures { let m = self.now in OnOk result (text.new.items
            ≡ text.old.items ++ sign_text m.shape m.cells.now m.marks block.0 at) }
    {
        let sign = self.sign(slot_in(self.shape, block, at));
        self.write_before_sign(block, at, text)
            .and(add_byte(sign, text))
    }

    /// Appends what stands before the letter of this number in its block.
    fn write_before_sign(&self, block: Block, at: u32, text: &mut Vec<u8>) -> Result<(), AllocError>
        ensures { OnOk result (text.new.items
            ≡ text.old.items ++ before_sign self.now.marks block.0 at) }
    {
        if at == 0 {
            self.write_label(block, text)
        } else if at.is_multiple_of(SIGNS_IN_LINE) {
            begin_line(b"\n", text)
        } else {
            Ok(())
        }
    }

    /// The letter of a slot, or a `!` where a broken law names it.
    fn sign(&self, slot: Slot) -> u8
        ensures { let m = self.now in result ≡ sign_at m.cells.now m.marks slot.0 }
    {
        if self.is_named(slot) {
            b'!'
        } else {
            letter(self.cell(slot))
        }
    }

    /// Appends how many slots are of each kind.
    fn write_counts(&self, text: &mut Vec<u8>) -> Result<(), AllocError>
        requires { IsShape self.now.shape }
        ensures { let m = self.now in OnOk result (text.new.items
            ≡ text.old.items ++ counts_text m.shape m.cells.now) }
    {
        let kinds = all_kinds();
        for kind in kinds {
            self.write_count(*kind, text)?;
        }
        Ok(())
    }

    /// Appends how many slots are of a kind.
    fn write_count(&self, kind: Kind, text: &mut Vec<u8>) -> Result<(), AllocError>
        requires { IsShape self.now.shape }
        ensures { let m = self.now in OnOk result (text.new.items
            ≡ text.old.items ++ count_text m.shape m.cells.now kind) }
    {
        add(kind.letters(), text)
            .and(add(kind.word(), text))
            .and(add(b" ", text))
            .and(add_number(self.count(kind, 0, self.shape.slots()), text))
            .and(add(b"\n", text))
    }

    /// How many of this many slots, from the first one on, are of a kind.
    pub fn count(&self, kind: Kind, first: u32, slots: u32) -> u64
        requires { first + slots < 2 ^ 32 }
        ensures { result ≡ count_of self.now.cells.now kind first slots }
    {
        let mut count = 0;
        for at in 0..slots {
            count += one_if(kind.is_of(self.cell(Slot(first + at))));
        }
        count
    }
}

/// One where something is there.
fn one_if(there: bool) -> u64
    ensures one { result ≡ one_if there }
    ensures few { result ≤ 1 }
{
    if there { 1 } else { 0 }
}

/// The letter of a slot with this cell.
fn letter(cell: Cell) -> u8
    ensures { result ≡ letter cell }
{
    match cell {
        Cell::Blank => b'.',
        Cell::Damaged => b'x',
        Cell::Holds { rank, held, .. } => rank_letter(rank, held),
    }
}

/// The letter of a record.
fn rank_letter(rank: Rank, held: bool) -> u8
    ensures { result ≡ rank_letter rank held }
{
    match rank {
        Rank::Current => if held { b'C' } else { b'c' },
        Rank::Loose => if held { b'L' } else { b'l' },
        Rank::Stale => if held { b'S' } else { b's' },
    }
}

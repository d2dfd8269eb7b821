//! The overview of a flash of many slots in SVG.
ghost use Rattle.std.specs.Prelude.{◌≡◌, ◌<◌, ◌^◌, ◌++◌, [], OnOk};
ghost use Rattle.std.specs.List.{flat_map, range_with_len};
ghost use Rattle.tx_types.specs.Config.{IsShape, blocks_of};
ghost use Rattle.flash_picture.specs.Kinds.{all_kinds};
ghost use Rattle.flash_picture.specs.OverviewSvg.{die_svg, die_words, entry_inside, entry_svg, entry_text, named_svg, overview_above, overview_style, overview_svg, row_svg, squares};
ghost use Rattle.flash_picture.specs.Picture.{heading};
ghost use Rattle.flash_picture.specs.Pieces.{words_at};

use crate::grid::Spot;
use crate::kind::{Kind, all_kinds};
use crate::legend::write_head;
use crate::map::Map;
use crate::picture::write_heading;
use crate::pieces::{add_rectangle, open_group, open_words};
use crate::squares::{die_spot, overview_bottom, overview_height, overview_width, square_of};
use crate::svg_lines::{write_below, write_walks};
use crate::text::{add, add_count, add_number};
use record_list::Breach;
use sorted_records::SortedRecords;
use std::alloc::{AllocError, Global};
use tx_types::{Block, Config, Shape};

/// Appends the overview of records with these cells.
pub fn write_svg(
    alloc: Global,
    config: Config,
    chart: &SortedRecords,
    map: &Map<'_>,
    text: &mut Vec<u8>,
) -> Result<(), AllocError>
    requires { IsShape map.now.shape }
    ensures { let m = map.now in OnOk result (text.new.items ≡ text.old.items
        ++ overview_svg config m.shape chart.now m.cells.now m.marks) }
{
    let mut walks = Vec::new(alloc);
    let outcome = write_drawing(alloc, config, chart, map, &mut walks, text);
    drop(walks);
    outcome
}

/// Appends the same. The lines of walks go to a text that is empty before.
fn write_drawing(
    alloc: Global,
    config: Config,
    chart: &SortedRecords,
    map: &Map<'_>,
    walks: &mut Vec<u8>,
    text: &mut Vec<u8>,
) -> Result<(), AllocError>
    requires shape { IsShape map.now.shape }
    requires empty { walks.old.items ≡ [] }
    ensures { let m = map.now in OnOk result (text.new.items ≡ text.old.items
        ++ overview_svg config m.shape chart.now m.cells.now m.marks) }
{
    let lines = write_walks(alloc, chart, config.protocol, config.logical, walks)?;
    map.write_above(config, lines, text)
        .and(map.write_squares(text))
        .and(write_below(
            overview_bottom(map.shape),
            walks.as_slice(),
            map.marks.breach,
            text,
        ))
        .and(add(b"</svg>\n", text))
}

impl Map<'_> {
    /// Appends what stands above the rows of an overview with this many lines of walks.
    fn write_above(&self, config: Config, lines: u64, text: &mut Vec<u8>) -> Result<(), AllocError>
        requires shape { IsShape self.now.shape }
        requires few { lines < 2 ^ 40 }
        ensures { let m = self.now in OnOk result (text.new.items
            ≡ text.old.items ++ overview_above config m.shape m.cells.now lines) }
    {
        let shape = self.shape;
        write_head(overview_width(shape), overview_height(shape, lines), text)
            .and(add(overview_style(), text))
            .and(write_first(config, text))
            .and(self.write_entries(text))
    }

    /// Appends the legend.
    fn write_entries(&self, text: &mut Vec<u8>) -> Result<(), AllocError>
        requires { IsShape self.now.shape }
        ensures { let m = self.now in OnOk result (text.new.items
            ≡ text.old.items ++ flat_map (entry_svg m.shape m.cells.now) all_kinds) }
    {
        let kinds = all_kinds();
        for kind in kinds {
            self.write_entry(*kind, text)?;
        }
        Ok(())
    }

    /// Appends what the legend says of a kind.
    fn write_entry(&self, kind: Kind, text: &mut Vec<u8>) -> Result<(), AllocError>
        requires { IsShape self.now.shape }
        ensures { let m = self.now in OnOk result (text.new.items
            ≡ text.old.items ++ entry_svg m.shape m.cells.now kind) }
    {
        open_group(kind.word(), text)
            .and(self.write_entry_inside(kind, text))
            .and(add(b"</g>\n", text))
    }

    /// Appends a rectangle that looks like a kind, and what the legend says of the kind.
    fn write_entry_inside(&self, kind: Kind, text: &mut Vec<u8>) -> Result<(), AllocError>
        requires { IsShape self.now.shape }
        ensures { let m = self.now in OnOk result (text.new.items
            ≡ text.old.items ++ entry_inside m.shape m.cells.now kind) }
    {
        let spot = kind.entry_spot();
        add_rectangle(spot, 16, 12, text).and(self.write_entry_words(
            kind,
            spot.beside(22, 10),
            text,
        ))
    }

    /// Appends what the legend says of a kind, at a place.
    fn write_entry_words(
        &self,
        kind: Kind,
        spot: Spot,
        text: &mut Vec<u8>,
    ) -> Result<(), AllocError>
        requires { IsShape self.now.shape }
        ensures { let m = self.now in OnOk result (text.new.items
            ≡ text.old.items ++ words_at spot (entry_text m.shape m.cells.now kind)) }
    {
        open_words(spot, text)
            .and(self.write_entry_text(kind, text))
            .and(add(b"</text>", text))
    }

    /// Appends how many slots are of a kind.
    fn write_entry_text(&self, kind: Kind, text: &mut Vec<u8>) -> Result<(), AllocError>
        requires { IsShape self.now.shape }
        ensures { let m = self.now in OnOk result (text.new.items
            ≡ text.old.items ++ entry_text m.shape m.cells.now kind) }
    {
        add(kind.word(), text)
            .and(add(kind.line_words(), text))
            .and(add(b": ", text))
            .and(add_number(self.count(kind, 0, self.shape.slots()), text))
    }

    /// Appends the headings of dies, the rows, and a frame around the slot that a broken law names.
    fn write_squares(&self, text: &mut Vec<u8>) -> Result<(), AllocError>
        requires { IsShape self.now.shape }
        ensures { let m = self.now in OnOk result (text.new.items
            ≡ text.old.items ++ squares m.shape m.cells.now m.marks) }
    {
        write_dies(self.shape, text)
            .and(self.write_square_rows(text))
            .and(write_named(self.shape, self.marks.breach, text))
    }

    /// Appends the rows of all blocks.
    fn write_square_rows(&self, text: &mut Vec<u8>) -> Result<(), AllocError>
        requires { IsShape self.now.shape }
        ensures { let m = self.now in OnOk result (text.new.items ≡ text.old.items
            ++ flat_map (row_svg m.shape m.cells.now m.marks) (range_with_len 0 (blocks_of m.shape))) }
    {
        for block in 0..self.shape.blocks() {
            self.write_square_row(Block(block), text)?;
        }
        Ok(())
    }
}

/// Appends the first line.
fn write_first(config: Config, text: &mut Vec<u8>) -> Result<(), AllocError>
    ensures { OnOk result (text.new.items
        ≡ text.old.items ++ words_at (record { left = 8; top = 20 }) (heading config)) }
{
    open_words(Spot { left: 8, top: 20 }, text)
        .and(write_heading(config, text))
        .and(add(b"</text>", text))
}

/// Appends the headings of all dies.
fn write_dies(shape: Shape, text: &mut Vec<u8>) -> Result<(), AllocError>
    requires { IsShape shape }
    ensures { OnOk result (text.new.items
        ≡ text.old.items ++ flat_map (die_svg shape) (range_with_len 0 shape.dies)) }
{
    for die in 0..shape.dies {
        write_die(shape, die, text)?;
    }
    Ok(())
}

/// Appends the heading of a die.
fn write_die(shape: Shape, die: u32, text: &mut Vec<u8>) -> Result<(), AllocError>
    requires { IsShape shape }
    ensures { OnOk result (text.new.items ≡ text.old.items ++ die_svg shape die) }
{
    open_group(b"die", text)
        .and(write_die_at(die_spot(shape, die), die, text))
        .and(add(b"</g>\n", text))
}

/// Appends the words of the heading of a die, at a place.
fn write_die_at(spot: Spot, die: u32, text: &mut Vec<u8>) -> Result<(), AllocError>
    ensures { OnOk result (text.new.items ≡ text.old.items ++ words_at spot (die_words die)) }
{
    open_words(spot, text)
        .and(write_die_words(die, text))
        .and(add(b"</text>", text))
}

/// Appends the words of the heading of a die.
fn write_die_words(die: u32, text: &mut Vec<u8>) -> Result<(), AllocError>
    ensures { OnOk result (text.new.items ≡ text.old.items ++ die_words die) }
{
    add(b"die ", text).and(add_count(die, text))
}

/// Appends a frame around the slot that a broken law names, if one does.
fn write_named(shape: Shape, breach: Option<Breach>, text: &mut Vec<u8>) -> Result<(), AllocError>
    requires { IsShape shape }
    ensures { OnOk result (text.new.items ≡ text.old.items ++ named_svg shape breach) }
{
    match breach {
        None => Ok(()),
        Some(breach) => {
            open_group(b"!", text)
                .and(add_rectangle(square_of(shape, breach.slot), 6, 8, text))
                .and(add(b"</g>\n", text))
        }
    }
}

/// How the classes look in an overview.
#[tactic(auto, unfolding(crate::specs::OverviewSvg::overview_style))]
fn overview_style() -> &'static [u8]
    ensures { result.now ≡ overview_style }
{
    b"<style>path,g:hover path{stroke-width:5;marker-end:none;visibility:visible}\
        path.held,path.discard,g:hover path.held,g:hover path.discard{stroke-width:1}\
        path.current{stroke:#6cbf63}path.loose{stroke:#f09020}path.stale{stroke:#b4b4b4}\
        path.damaged{stroke:#d9483b}path.blank{stroke:#ececec}path.held{stroke:#0a62b5}\
        path.discard{stroke:#222}.block text,.spare text{font-size:7px}.blank text{fill:#222}\
        rect{fill-opacity:1}.current rect{fill:#6cbf63}.loose rect{fill:#f09020}\
        .stale rect{fill:#b4b4b4}.damaged rect{fill:#d9483b}\
        .blank rect{fill:#ececec}.slot rect,[class~='!'] rect{fill-opacity:0}.slot rect{stroke:none}\
        .slot:hover rect{stroke:#222}[class~='!'] rect{stroke-width:2}\
        @media(prefers-color-scheme:dark){path.current{stroke:#3f9447}path.loose{stroke:#e0861a}\
        path.stale{stroke:#5c6168}path.damaged{stroke:#c04a40}path.blank{stroke:#262a30}\
        path.held{stroke:#6ab0ff}path.discard{stroke:#ddd}.blank text{fill:#ddd}.blank rect{fill:#262a30}\
        .current rect{fill:#3f9447}.loose rect{fill:#e0861a}.stale rect{fill:#5c6168}\
        .damaged rect{fill:#c04a40}\
        .slot:hover rect{stroke:#ddd}}</style>\n"
}

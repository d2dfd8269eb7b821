ghost use Rattle.std.specs.Prelude.{◌≡◌, ◌++◌, [], Ok, IfOk, OnErr, OnOk, length};
ghost use Rattle.tx_types.specs.Config.{IsShape, checked, shape_of, slots_of};
ghost use Rattle.flash_picture.specs.Grid.{IsGrid};
ghost use Rattle.flash_picture.specs.Svg.{above, drawing, grid_of, lines_svg, svg};

use crate::cells::NotedCells;
use crate::grid::{Grid, Spot};
use crate::legend::{write_head, write_legend};
use crate::map::Map;
use crate::marks::Marks;
use crate::picture::{shape, write_heading};
use crate::pieces::open_words;
use crate::svg_lines::{write_below, write_walks};
use crate::svg_map::Plan;
use crate::text::{add, append};
use judged_records::Note;
use sorted_records::SortedRecords;
use std::alloc::{AllocError, Global};
use tx_types::{Config, Memory};

/// The columns of text that a cell is wide at most: the longest text of a slot of an image has no more.
const MOST_COLUMNS: usize = 53;

/// Appends the same picture in SVG.
pub fn draw_svg(
    alloc: Global,
    config: Config,
    notes: &[Note],
    marks: Marks,
    out: &mut Vec<u8>,
) -> Result<(), Memory>
    requires check { checked config ≡ Ok (shape_of config) }
    requires whole { length notes.now ≡ slots_of (shape_of config) }
    ensures text { OnOk result (out.new.items ≡ out.old.items ++ svg config notes.now marks) }
    ensures err { OnErr result (out.new.items ≡ out.old.items) }
{
    let mut text = Vec::new(alloc);
    write_svg(alloc, config, notes, marks, &mut text)?;
    append(text, out)
}

/// Appends the picture.
fn write_svg(
    alloc: Global,
    config: Config,
    notes: &[Note],
    marks: Marks,
    text: &mut Vec<u8>,
) -> Result<(), AllocError>
    requires check { checked config ≡ Ok (shape_of config) }
    requires whole { length notes.now ≡ slots_of (shape_of config) }
    ensures { OnOk result (text.new.items ≡ text.old.items ++ svg config notes.now marks) }
{
    let noted = NotedCells::of(alloc, config, notes)?;
    let map = Map {
        shape: shape(config),
        cells: &noted.cells,
        marks,
    };
    let outcome = write_map(alloc, config, &map, noted.standing.sorted_records(), text);
    drop(noted);
    outcome
}

/// Appends the picture of records with the cells of a map.
fn write_map(
    alloc: Global,
    config: Config,
    map: &Map<'_>,
    chart: &SortedRecords,
    text: &mut Vec<u8>,
) -> Result<(), AllocError>
    requires { IsShape map.now.shape }
    ensures { let m = map.now in OnOk result (text.new.items ≡ text.old.items
        ++ drawing config (grid_of m.shape m.cells.now m.marks) chart.now m.cells.now m.marks) }
{
    let grid = grid(alloc, map)?;
    let plan = Plan { map: *map, grid };
    let mut walks = Vec::new(alloc);
    let outcome = write_drawing(alloc, config, &plan, chart, &mut walks, text);
    drop(walks);
    outcome
}

/// How the cells of a map stand.
fn grid(alloc: Global, map: &Map<'_>) -> Result<Grid, AllocError>
    requires { IsShape map.now.shape }
    ensures grid { let m = map.now in
        IfOk result (λ grid. grid ≡ grid_of m.shape m.cells.now m.marks) }
    ensures bounds { IfOk result IsGrid }
{
    let width = map.width(alloc)?;
    Ok(Grid {
        shape: map.shape,
        columns: width.min(MOST_COLUMNS) as u32,
    })
}

/// Appends the picture of records whose cells stand so. The lines of walks go to a text that is empty before.
fn write_drawing(
    alloc: Global,
    config: Config,
    plan: &Plan<'_>,
    chart: &SortedRecords,
    walks: &mut Vec<u8>,
    text: &mut Vec<u8>,
) -> Result<(), AllocError>
    requires grid { IsGrid plan.now.grid }
    requires empty { walks.old.items ≡ [] }
    ensures { let p = plan.now in OnOk result (text.new.items ≡ text.old.items
        ++ drawing config p.grid chart.now p.map.cells.now p.map.marks) }
{
    let lines = write_walks(alloc, chart, config.protocol, config.logical, walks)?;
    write_above(config, plan.grid.width(), plan.grid.height(lines), text)
        .and(plan.write(chart, text))
        .and(write_lines(plan, walks.as_slice(), text))
        .and(add(b"</svg>\n", text))
}

/// Appends what stands above the map of a picture of this width and height.
#[tactic(auto, unfolding(crate::specs::Svg::above))]
fn write_above(
    config: Config,
    width: u64,
    height: u64,
    text: &mut Vec<u8>,
) -> Result<(), AllocError>
    ensures { OnOk result (text.new.items ≡ text.old.items ++ above config width height) }
{
    write_head(width, height, text)
        .and(
            open_words(Spot { left: 8, top: 20 }, text)
                .and(write_heading(config, text))
                .and(add(b"</text>", text)),
        )
        .and(write_legend(text))
}

/// Appends the lines below the map, with these of walks.
fn write_lines(plan: &Plan<'_>, walks: &[u8], text: &mut Vec<u8>) -> Result<(), AllocError>
    requires { IsGrid plan.now.grid }
    ensures { let p = plan.now in OnOk result (text.new.items ≡ text.old.items
        ++ lines_svg p.grid walks.now p.map.marks.breach) }
{
    write_below(plan.grid.bottom(), walks, plan.map.marks.breach, text)
}

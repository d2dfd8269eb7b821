//! Where the squares of an overview in SVG stand.
ghost use Rattle.std.specs.Prelude.{◌≡◌, ◌<◌, ◌≤◌, ◌^◌};
ghost use Rattle.tx_types.specs.Config.{IsShape};
ghost use Rattle.flash_picture.specs.OverviewSvg.{die_spot, die_width, label_spot, left_of_die, overview_bottom, overview_height, overview_width, square_in, square_of, top_of_row};

use crate::grid::Spot;
use tx_types::{Shape, Slot};

/// The width of a die.
fn die_width(shape: Shape) -> u64
    requires { IsShape shape }
    ensures width { result ≡ die_width shape }
    ensures few { result ≤ 1608 }
{
    72 + 6 * u64::from(shape.pages_per_block)
}

/// Where a die begins.
fn left_of_die(shape: Shape, die: u32) -> u64
    requires { IsShape shape }
    ensures left { result ≡ left_of_die shape die }
    ensures few { result < 2 ^ 44 }
{
    8 + u64::from(die) * die_width(shape)
}

/// Where the row of a block begins.
fn top_of_row(shape: Shape, block: u32) -> u64
    requires { IsShape shape }
    ensures top { result ≡ top_of_row shape block }
    ensures few { result < 2 ^ 40 }
{
    140 + 8 * u64::from(block % shape.blocks_per_die)
}

/// Where the square of this number in a block stands.
pub fn square_in(shape: Shape, block: u32, at: u32) -> Spot
    requires { IsShape shape }
    ensures spot { result ≡ square_in shape block at }
    ensures left { result.left < 2 ^ 48 }
    ensures top { result.top < 2 ^ 40 }
{
    Spot {
        left: left_of_die(shape, block / shape.blocks_per_die) + 64 + 6 * u64::from(at),
        top: top_of_row(shape, block),
    }
}

/// Where the square of a slot stands.
pub fn square_of(shape: Shape, slot: Slot) -> Spot
    requires { IsShape shape }
    ensures { result ≡ square_of shape slot.0 }
{
    let count = shape.pages_per_block;
    square_in(shape, slot.0 / count, slot.0 % count)
}

/// Where the label of a block stands.
pub fn label_spot(shape: Shape, block: u32) -> Spot
    requires { IsShape shape }
    ensures { result ≡ label_spot shape block }
{
    Spot {
        left: left_of_die(shape, block / shape.blocks_per_die),
        top: top_of_row(shape, block) + 6,
    }
}

/// Where the heading of a die stands.
pub fn die_spot(shape: Shape, die: u32) -> Spot
    requires { IsShape shape }
    ensures { result ≡ die_spot shape die }
{
    Spot {
        left: left_of_die(shape, die),
        top: 134,
    }
}

/// The width of an overview.
pub fn overview_width(shape: Shape) -> u64
    requires { IsShape shape }
    ensures { result ≡ overview_width shape }
{
    left_of_die(shape, shape.dies).max(640)
}

/// Where the rows of an overview end.
pub fn overview_bottom(shape: Shape) -> u64
    ensures bottom { result ≡ overview_bottom shape }
    ensures few { result < 2 ^ 40 }
{
    144 + 8 * u64::from(shape.blocks_per_die)
}

/// The height of an overview with this many lines of walks.
pub fn overview_height(shape: Shape, lines: u64) -> u64
    requires { lines < 2 ^ 40 }
    ensures { result ≡ overview_height shape lines }
{
    overview_bottom(shape) + 20 * (lines + 2)
}

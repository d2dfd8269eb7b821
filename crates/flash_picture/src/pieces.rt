//! The pieces of which a picture in SVG consists. A piece that has another one within is opened, and closed by
//! its own words.
ghost use Rattle.std.specs.Prelude.{◌≡◌, ◌+◌, ◌<◌, ◌^◌, ◌++◌, OnOk};
ghost use Rattle.flash_picture.specs.Pieces.{attribute, curve, group_begin, place, point, rectangle, words_at, words_begin};

use crate::grid::Spot;
use crate::text::{add, add_number};
use std::alloc::AllocError;

/// Appends an attribute whose value is a number.
#[tactic(auto, unfolding(crate::specs::Pieces::attribute))]
pub fn add_attribute(name: &[u8], value: u64, text: &mut Vec<u8>) -> Result<(), AllocError>
    ensures { OnOk result (text.new.items ≡ text.old.items ++ attribute name.now value) }
{
    add(b" ", text)
        .and(add(name, text))
        .and(add(b"='", text))
        .and(add_number(value, text))
        .and(add(b"'", text))
}

/// Appends the place of what is drawn.
#[tactic(auto, unfolding(crate::specs::Pieces::place))]
fn add_place(spot: Spot, text: &mut Vec<u8>) -> Result<(), AllocError>
    ensures { OnOk result (text.new.items ≡ text.old.items ++ place spot) }
{
    add_attribute(b"x", spot.left, text).and(add_attribute(b"y", spot.top, text))
}

/// Appends a rectangle.
#[tactic(auto, unfolding(crate::specs::Pieces::rectangle))]
pub fn add_rectangle(
    spot: Spot,
    width: u64,
    height: u64,
    text: &mut Vec<u8>,
) -> Result<(), AllocError>
    ensures { OnOk result (text.new.items ≡ text.old.items ++ rectangle spot width height) }
{
    add(b"<rect", text)
        .and(add_place(spot, text))
        .and(add_attribute(b"width", width, text))
        .and(add_attribute(b"height", height, text))
        .and(add(b"/>", text))
}

/// Begins words at a place.
#[tactic(auto, unfolding(crate::specs::Pieces::words_begin))]
pub fn open_words(spot: Spot, text: &mut Vec<u8>) -> Result<(), AllocError>
    ensures { OnOk result (text.new.items ≡ text.old.items ++ words_begin spot) }
{
    add(b"<text", text)
        .and(add_place(spot, text))
        .and(add(b">", text))
}

/// Appends words at a place.
pub fn add_words(spot: Spot, words: &[u8], text: &mut Vec<u8>) -> Result<(), AllocError>
    ensures { OnOk result (text.new.items ≡ text.old.items ++ words_at spot words.now) }
{
    open_words(spot, text)
        .and(add(words, text))
        .and(add(b"</text>", text))
}

/// Begins what is drawn under a class.
#[tactic(auto, unfolding(crate::specs::Pieces::group_begin))]
pub fn open_group(class: &[u8], text: &mut Vec<u8>) -> Result<(), AllocError>
    ensures { OnOk result (text.new.items ≡ text.old.items ++ group_begin class.now) }
{
    add(b"<g class='", text)
        .and(add(class, text))
        .and(add(b"'>", text))
}

/// Appends a place as a path names it, behind some words.
#[tactic(auto, unfolding(crate::specs::Pieces::point))]
pub fn add_point(words: &[u8], spot: Spot, text: &mut Vec<u8>) -> Result<(), AllocError>
    ensures { OnOk result (text.new.items ≡ text.old.items ++ words.now ++ point spot) }
{
    add(words, text).and(add_number(spot.left, text).and(add(b",", text).and(add_number(
        spot.top, text,
    ))))
}

/// Appends a curve from a cell to a cell.
#[tactic(auto, unfolding(crate::specs::Pieces::curve))]
pub fn add_curve(from: Spot, to: Spot, text: &mut Vec<u8>) -> Result<(), AllocError>
    requires from_left { from.left < 2 ^ 32 }
    requires from_top { from.top < 2 ^ 49 }
    requires to_left { to.left < 2 ^ 32 }
    requires to_top { to.top < 2 ^ 49 }
    ensures { OnOk result (text.new.items ≡ text.old.items ++ curve from to) }
{
    add_point(b"<path d='M", from.beside(28, 10), text)
        .and(add_point(b"C", from.beside(28, 0), text))
        .and(add_point(b" ", to.beside(12, 0), text))
        .and(add_point(b" ", to.beside(12, 10), text))
        .and(add(b"'/>", text))
}

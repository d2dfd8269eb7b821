//! What stands above the map of a picture in SVG.
ghost use Rattle.std.specs.Prelude.{◌≡◌, ◌++◌, ◌<◌, ◌^◌, OnOk};
ghost use Rattle.flash_picture.specs.Svg.{entry, head, legend, link_entry, style, tip};

use crate::grid::Spot;
use crate::pieces::{add_attribute, add_rectangle, add_words, open_group};
use crate::text::{add, add_number};
use std::alloc::AllocError;

/// Appends the head of a picture of this width and height.
pub fn write_head(width: u64, height: u64, text: &mut Vec<u8>) -> Result<(), AllocError>
    ensures { OnOk result (text.new.items ≡ text.old.items ++ head width height) }
{
    add(b"<svg xmlns='http://www.w3.org/2000/svg'", text)
        .and(add_attribute(b"width", width, text))
        .and(add_attribute(b"height", height, text))
        .and(add(b" viewBox='0 0 ", text))
        .and(add_number(width, text))
        .and(add(b" ", text))
        .and(add_number(height, text))
        .and(add(b"'>\n", text))
        .and(add(style(), text))
        .and(add(tip(), text))
}

/// How the classes look. A cell's words are also the names of its class, by which this style colours it.
#[tactic(auto, unfolding(crate::specs::Svg::style))]
fn style() -> &'static [u8]
    ensures { result.now ≡ style }
{
    b"<style>svg{max-width:100%;height:auto;background:#fff}text{font:12px monospace;fill:#222}\
        rect{fill:#fff;fill-opacity:.8;stroke:#888}\
        path{fill:none;stroke:#557;marker-end:url(#tip);visibility:hidden}\
        .arrow path,g:hover path{visibility:visible}g:hover path{stroke-width:3}.loose path{stroke:#b60}\
        .current rect{fill:#cdebc9}.loose rect{fill:#fde1b1}.stale rect{fill:#e4e4e4}\
        .held rect{stroke:#0a62b5;stroke-width:2}.discard rect{stroke-dasharray:5 2}\
        .damaged rect{fill:#f4c3c3}[class~='!'] rect{stroke:#c00;stroke-width:3}\
        .blank text{fill:#777}.die text,.spare text,.unsound{font-weight:bold}.spare text{fill:#1a4fb4}\
        .unsound{fill:#c00}@media(prefers-color-scheme:dark){svg{background:#16181c}rect{fill:#16181c}\
        text,polygon{fill:#ddd}path{stroke:#9aa7d8}.loose path{stroke:#f0a03c}.current rect{fill:#1d4a22}\
        .loose rect{fill:#5c4210}.stale rect{fill:#3a3d42}.held rect{stroke:#6ab0ff}\
        .damaged rect{fill:#5d2525}.blank text{fill:#888}.spare text{fill:#8ab4f8}.unsound{fill:#f66}}\
        </style>\n"
}

/// The tip of an arrow.
#[tactic(auto, unfolding(crate::specs::Svg::tip))]
fn tip() -> &'static [u8]
    ensures { result.now ≡ tip }
{
    b"<defs><marker id='tip' viewBox='0 0 8 8' refX='7' refY='4' markerWidth='7' \
        markerHeight='7' markerUnits='userSpaceOnUse' orient='auto'><polygon points='0,1 8,4 0,7'/></marker></defs>\n"
}

/// Appends the legend.
#[tactic(auto, unfolding(crate::specs::Svg::legend))]
pub fn write_legend(text: &mut Vec<u8>) -> Result<(), AllocError>
    ensures { OnOk result (text.new.items ≡ text.old.items ++ legend) }
{
    write_entry(b"current", 8, 34, b"current: the version that counts", text)
        .and(write_entry(b"loose", 8, 56, b"loose: above the current version", text))
        .and(write_entry(b"stale", 8, 78, b"stale: below the current version", text))
        .and(write_entry(b"held", 8, 100, b"held: a loose record needs it", text))
        .and(write_entry(
            b"discard",
            308,
            34,
            b"discard: written to empty its page",
            text,
        ))
        .and(write_entry(
            b"damaged",
            308,
            56,
            b"damaged: nothing that can be read",
            text,
        ))
        .and(write_entry(b"!", 308, 78, b"!: a broken law names the slot", text))
        .and(write_link_entry(text))
}

/// Appends what the legend says of a class.
#[tactic(auto, unfolding(crate::specs::Svg::entry))]
fn write_entry(
    class: &[u8],
    left: u64,
    top: u64,
    says: &[u8],
    text: &mut Vec<u8>,
) -> Result<(), AllocError>
    requires left { left < 2 ^ 32 }
    requires top { top < 2 ^ 32 }
    ensures { OnOk result (text.new.items ≡ text.old.items ++ entry class.now left top says.now) }
{
    let spot = Spot { left, top };
    open_group(class, text)
        .and(add_rectangle(spot, 16, 12, text).and(add_words(spot.beside(22, 10), says, text)))
        .and(add(b"</g>\n", text))
}

/// Appends what the legend says of arrows.
#[tactic(auto, unfolding(crate::specs::Svg::link_entry))]
fn write_link_entry(text: &mut Vec<u8>) -> Result<(), AllocError>
    ensures { OnOk result (text.new.items ≡ text.old.items ++ link_entry) }
{
    let spot = Spot {
        left: 308,
        top: 110,
    };
    open_group(b"link", text)
        .and(add_words(
            spot,
            b"arrow: to the record of a link; a pointer shows others",
            text,
        ))
        .and(add(b"</g>\n", text))
}

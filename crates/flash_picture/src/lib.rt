//! The picture of a flash: what each slot holds, which block is the spare, and which walks decide that a
//! newest version does not count.
#![tactic(auto)]

mod asked;
mod cell;
mod cells;
mod grid;
mod kind;
mod legend;
mod map;
mod marks;
mod overview;
mod overview_row;
mod overview_svg;
mod own_lines;
mod picture;
mod pieces;
mod selection;
mod squares;
mod svg;
mod svg_lines;
mod svg_map;
mod text;
mod theorems;
mod titles;
mod walk;

pub use cell::{Cell, Rank};
pub use marks::Marks;
pub use overview::draw_overview;
pub use picture::draw;
pub use selection::{Selection, draw_selected};
pub use svg::draw_svg;
pub use theorems::{
    cells_tell, labels_tell, overviews_tell, places_tell, selection_tells, svg_tells, walks_tell,
    words_tell,
};

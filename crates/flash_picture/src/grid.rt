ghost use Rattle.std.specs.Prelude.{◌≡◌, ◌*◌, ◌+◌, ◌<◌, ◌≤◌, ◌^◌};
ghost use Rattle.flash_picture.specs.Grid.{IsGrid, bottom, cell_width, cells_in_row, height, pitch, rows_of_block, spot_in, spot_of, top_of_block, width};
ghost use Rattle.flash_picture.specs.Pieces.{beside};

use tx_types::{Shape, Slot};

/// How the cells of a picture stand.
#[derive(Clone, Copy)]
pub struct Grid {
    pub shape: Shape,
    /// The columns of text that a cell has.
    pub columns: u32,
}

/// A place, in pixels from the left edge and from the top.
#[derive(Clone, Copy)]
pub struct Spot {
    pub left: u64,
    pub top: u64,
}

impl Spot {
    /// The place so far to the right of this one and below it.
    pub fn beside(self, right: u64, below: u64) -> Spot
        requires left { self.left + right < 2 ^ 64 }
        requires top { self.top + below < 2 ^ 64 }
        ensures { result ≡ beside self right below }
    {
        Spot {
            left: self.left + right,
            top: self.top + below,
        }
    }
}

impl Grid {
    /// How far it is from a cell to the next one in its line.
    fn pitch(self) -> u64
        requires { IsGrid self }
        ensures pitch { result ≡ pitch self }
        ensures few { result ≤ 480 }
    {
        8 * (u64::from(self.columns) + 4)
    }

    /// The width of a cell.
    pub fn cell_width(self) -> u64
        ensures { result ≡ cell_width self }
    {
        8 * (u64::from(self.columns) + 2)
    }

    /// How many cells stand in a line.
    fn cells_in_row(self) -> u64
        requires { IsGrid self }
        ensures count { result ≡ cells_in_row self }
        ensures some { 0 < result }
        ensures few { result ≤ 40 }
    {
        (160 / (u64::from(self.columns) + 4)).max(1)
    }

    /// How many lines the cells of a block take.
    fn rows_of_block(self) -> u64
        requires { IsGrid self }
        ensures count { result ≡ rows_of_block self }
        ensures few { result ≤ 257 }
    {
        u64::from(self.shape.pages_per_block).div_ceil(self.cells_in_row())
    }

    /// Where a block begins.
    pub fn top_of_block(self, block: u32) -> u64
        requires { IsGrid self }
        ensures top { result ≡ top_of_block self block }
        ensures few { result < 2 ^ 48 }
    {
        let die = block / self.shape.blocks_per_die;
        132 + 32 * u64::from(die) + 36 * (u64::from(block) * self.rows_of_block())
    }

    /// The width of a picture.
    pub fn width(self) -> u64
        requires { IsGrid self }
        ensures { result ≡ width self }
    {
        let count = u64::from(self.shape.pages_per_block).min(self.cells_in_row());
        (104 + self.pitch() * count).max(800)
    }

    /// Where the map ends.
    pub fn bottom(self) -> u64
        requires { IsGrid self }
        ensures bottom { result ≡ bottom self }
        ensures few { result < 2 ^ 48 }
    {
        self.top_of_block(self.shape.blocks())
    }

    /// The height of a picture with this many lines of walks.
    pub fn height(self, lines: u64) -> u64
        requires grid { IsGrid self }
        requires few { lines < 2 ^ 40 }
        ensures { result ≡ height self lines }
    {
        self.bottom() + 20 * (lines + 2)
    }

    /// Where the cell of this number in a block stands.
    fn spot_in(self, block: u32, at: u32) -> Spot
        requires { IsGrid self }
        ensures spot { result ≡ spot_in self block at }
        ensures left { result.left < 2 ^ 32 }
        ensures top { result.top < 2 ^ 49 }
    {
        let count = self.cells_in_row();
        Spot {
            left: 104 + self.pitch() * (u64::from(at) % count),
            top: self.top_of_block(block) + 32 + 36 * (u64::from(at) / count),
        }
    }

    /// Where the cell of a slot stands.
    pub fn spot(self, slot: Slot) -> Spot
        requires { IsGrid self }
        ensures spot { result ≡ spot_of self slot.0 }
        ensures left { result.left < 2 ^ 32 }
        ensures top { result.top < 2 ^ 49 }
    {
        let count = self.shape.pages_per_block;
        self.spot_in(slot.0 / count, slot.0 % count)
    }
}

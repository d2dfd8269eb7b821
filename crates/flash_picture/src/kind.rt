//! What an overview tells slots apart by.
ghost use Rattle.std.specs.Prelude.{◌≡◌};
ghost use Rattle.flash_picture.specs.Kinds.{all_kinds, is_current_rank, is_blank, is_damaged, is_of, is_of_record, is_stale_rank, kind_word};
ghost use Rattle.flash_picture.specs.Overview.{kind_letters};
ghost use Rattle.flash_picture.specs.OverviewSvg.{line_offset, entry_spot, kind_line_words};

use crate::cell::{Cell, Rank};
use crate::grid::Spot;
use crate::svg_map::is_loose_rank;

/// What a slot is, or what is so of its record besides.
#[derive(Clone, Copy, PartialEq, Eq)]
pub enum Kind {
    /// Its record is the current one of its page.
    Current,
    /// Its record is above that.
    Loose,
    /// Its record is below that.
    Stale,
    /// It has nothing that can be read as a record.
    Damaged,
    /// Nothing was programmed since the last erase.
    Blank,
    /// Its record is responsible for a loose one.
    Held,
    /// Its record has no contents.
    Discard,
}

/// All kinds, in the order of a legend.
pub fn all_kinds() -> &'static [Kind]
    ensures { result.now ≡ all_kinds }
{
    &[
        Kind::Current,
        Kind::Loose,
        Kind::Stale,
        Kind::Damaged,
        Kind::Blank,
        Kind::Held,
        Kind::Discard,
    ]
}

impl Kind {
    /// Whether a slot with this cell is of the kind.
    pub fn is_of(self, cell: Cell) -> bool
        ensures { result ≡ is_of self cell }
    {
        match cell {
            Cell::Blank => self.is_blank(),
            Cell::Damaged => self.is_damaged(),
            Cell::Holds { rec, rank, held } => self.is_of_record(rank, held, rec.discard),
        }
    }

    /// Whether a slot with such a record is of the kind.
    fn is_of_record(self, rank: Rank, held: bool, discard: bool) -> bool
        ensures { result ≡ is_of_record self rank held discard }
    {
        match self {
            Kind::Current => is_current_rank(rank),
            Kind::Loose => is_loose_rank(rank),
            Kind::Stale => is_stale_rank(rank),
            Kind::Damaged => false,
            Kind::Blank => false,
            Kind::Held => held,
            Kind::Discard => discard,
        }
    }

    /// Whether a slot that is blank is of the kind.
    fn is_blank(self) -> bool
        ensures { result ≡ is_blank self }
    {
        match self {
            Kind::Current => false,
            Kind::Loose => false,
            Kind::Stale => false,
            Kind::Damaged => false,
            Kind::Blank => true,
            Kind::Held => false,
            Kind::Discard => false,
        }
    }

    /// Whether a slot with nothing that can be read is of the kind.
    fn is_damaged(self) -> bool
        ensures { result ≡ is_damaged self }
    {
        match self {
            Kind::Current => false,
            Kind::Loose => false,
            Kind::Stale => false,
            Kind::Damaged => true,
            Kind::Blank => false,
            Kind::Held => false,
            Kind::Discard => false,
        }
    }

    /// The word of a kind.
    pub fn word(self) -> &'static [u8]
        ensures { result.now ≡ kind_word self }
    {
        match self {
            Kind::Current => b"current",
            Kind::Loose => b"loose",
            Kind::Stale => b"stale",
            Kind::Damaged => b"damaged",
            Kind::Blank => b"blank",
            Kind::Held => b"held",
            Kind::Discard => b"discard",
        }
    }

    /// The letters of a kind in an overview as text.
    pub fn letters(self) -> &'static [u8]
        ensures { result.now ≡ kind_letters self }
    {
        match self {
            Kind::Current => b"c ",
            Kind::Loose => b"l ",
            Kind::Stale => b"s ",
            Kind::Damaged => b"x ",
            Kind::Blank => b". ",
            Kind::Held => b"C L S ",
            Kind::Discard => b"",
        }
    }

    /// How a kind is drawn that is no colour.
    pub fn line_words(self) -> &'static [u8]
        ensures { result.now ≡ kind_line_words self }
    {
        match self {
            Kind::Current => b"",
            Kind::Loose => b"",
            Kind::Stale => b"",
            Kind::Damaged => b"",
            Kind::Blank => b"",
            Kind::Held => b", a line below",
            Kind::Discard => b", a line across",
        }
    }

    /// Where the legend of an overview in SVG tells of a kind.
    pub fn entry_spot(self) -> Spot
        ensures { result ≡ entry_spot self }
    {
        match self {
            Kind::Current => Spot { left: 8, top: 34 },
            Kind::Loose => Spot { left: 8, top: 56 },
            Kind::Stale => Spot { left: 8, top: 78 },
            Kind::Damaged => Spot { left: 268, top: 34 },
            Kind::Blank => Spot { left: 8, top: 100 },
            Kind::Held => Spot { left: 268, top: 56 },
            Kind::Discard => Spot { left: 268, top: 78 },
        }
    }

    /// How far below the top of a square its line is drawn.
    pub fn line_offset(self) -> u64
        ensures { result ≡ line_offset self }
    {
        match self {
            Kind::Current => 3,
            Kind::Loose => 3,
            Kind::Stale => 3,
            Kind::Damaged => 3,
            Kind::Blank => 3,
            Kind::Held => 6,
            Kind::Discard => 3,
        }
    }
}

/// Whether a rank is that of a current record.
fn is_current_rank(rank: Rank) -> bool
    ensures { result ≡ is_current_rank rank }
{
    match rank {
        Rank::Current => true,
        Rank::Loose => false,
        Rank::Stale => false,
    }
}

/// Whether a rank is that of a record below the current one.
fn is_stale_rank(rank: Rank) -> bool
    ensures { result ≡ is_stale_rank rank }
{
    match rank {
        Rank::Current => false,
        Rank::Loose => false,
        Rank::Stale => true,
    }
}

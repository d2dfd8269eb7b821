ghost use Rattle.std.specs.Prelude.{◌≡◌, ◌++◌, ◌∷◌, [], OnOk};
ghost use Rattle.std.specs.List.{join_with_byte};
ghost use Rattle.flash_picture.specs.Cells.{after_spaces, cell_words, rank_by, rank_word, word_if};

use crate::text::add_name;
use std::alloc::AllocError;
use tx_types::Rec;

/// What a record is by the version that is current of its page.
#[derive(Clone, Copy, PartialEq, Eq)]
pub enum Rank {
    Current,
    /// Above it.
    Loose,
    /// Below it.
    Stale,
}

/// What a cell says of its slot.
#[derive(Clone, Copy, PartialEq, Eq)]
pub enum Cell {
    /// Nothing was programmed since the last erase.
    Blank,
    /// It has nothing that can be read as a record.
    Damaged,
    /// It holds a record.
    Holds {
        rec: Rec,
        rank: Rank,
        /// Whether the record is responsible for a loose one.
        held: bool,
    },
}

impl Rank {
    /// What a record of this version is where this version is the current one of its page.
    pub fn of(current: u64, version: u64) -> Rank
        ensures { result ≡ rank_by current version }
    {
        if version == current {
            Rank::Current
        } else if current < version {
            Rank::Loose
        } else {
            Rank::Stale
        }
    }

    /// Appends the word of a rank.
    fn write(self, text: &mut Vec<u8>) -> Result<(), AllocError>
        ensures { OnOk result (text.new.items
            ≡ text.old.items ++ after_spaces (rank_word self ∷ [])) }
    {
        match self {
            Rank::Current => text.extend_from_slice(b" current"),
            Rank::Loose => text.extend_from_slice(b" loose"),
            Rank::Stale => text.extend_from_slice(b" stale"),
        }
    }
}

impl Cell {
    /// Appends the words of a cell, with a space between each two.
    pub fn write(self, text: &mut Vec<u8>) -> Result<(), AllocError>
        ensures { OnOk result (text.new.items
            ≡ text.old.items ++ join_with_byte 32 (cell_words self)) }
    {
        match self {
            Cell::Blank => text.extend_from_slice(b"blank"),
            Cell::Damaged => text.extend_from_slice(b"damaged"),
            Cell::Holds { rec, rank, held } => write_record(rec, rank, held, text),
        }
    }
}

/// Appends the words of a record.
fn write_record(rec: Rec, rank: Rank, held: bool, text: &mut Vec<u8>) -> Result<(), AllocError>
    ensures { OnOk result (text.new.items
        ≡ text.old.items ++ join_with_byte 32 (cell_words (Cell.Holds rec rank held))) }
{
    add_name(rec.name(), text)
        .and(rank.write(text))
        .and(write_flag(held, b"held", text))
        .and(write_flag(rec.discard, b"discard", text))
}

/// Appends a word with a space before it, or nothing.
pub fn write_flag(there: bool, word: &[u8], text: &mut Vec<u8>) -> Result<(), AllocError>
    ensures { OnOk result (text.new.items
        ≡ text.old.items ++ after_spaces (word_if there word.now)) }
{
    if there {
        text.extend_from_slice(b" ")?;
        text.extend_from_slice(word)?;
    }
    Ok(())
}

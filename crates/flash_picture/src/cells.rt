ghost use Rattle.std.specs.Prelude.{◌≡◌, Ok, map, IfOk, length};
ghost use Rattle.tx_types.specs.Config.{checked, shape_of, slots_of};
ghost use Rattle.judged_records.specs.Notes.{found_in};
ghost use Rattle.sorted_records.specs.SortedRecords.{Sorts};
ghost use Rattle.flash_picture.specs.Cells.{cell_of};
ghost use Rattle.flash_picture.specs.Held.{AreAsked};

use crate::asked::{asked_versions, is_held};
use crate::cell::{Cell, Rank};
use crate::picture::current_versions_of;
use judged_records::Note;
use sorted_records::CurrentVersions;
use std::alloc::{AllocError, Global};
use tx_types::Config;

/// What notes tell of a device.
#[derive(Drop)]
pub struct NotedCells {
    /// Where the pages stand among the records that are noted.
    pub standing: CurrentVersions,
    /// The cells of all slots, in order.
    pub cells: Vec<Cell>,
}

impl NotedCells {
    /// What these notes tell.
    pub fn of(alloc: Global, config: Config, notes: &[Note]) -> Result<NotedCells, AllocError>
        requires check { checked config ≡ Ok (shape_of config) }
        requires whole { length notes.now ≡ slots_of (shape_of config) }
        ensures sorts { IfOk result (λ noted. Sorts (found_in notes.now) noted.standing.list) }
        ensures cells { IfOk result (λ noted. noted.cells.items
            ≡ map (cell_of config.protocol noted.standing.list config.logical) notes.now) }
    {
        let standing = current_versions_of(alloc, config, notes)?;
        match cells(alloc, &standing, notes) {
            Ok(cells) => Ok(NotedCells { standing, cells }),
            Err(error) => {
                drop(standing);
                Err(error)
            }
        }
    }
}

/// The cells of slots of which this is noted.
fn cells(alloc: Global, standing: &CurrentVersions, notes: &[Note]) -> Result<Vec<Cell>, AllocError>
    ensures { let s = standing.now in
        IfOk result (λ cells. cells.items ≡ map (cell_of s.protocol s.list s.logical) notes.now) }
{
    let asked = asked_versions(alloc, standing)?;
    let cells = cells_by(alloc, standing, &asked, notes);
    drop(asked);
    cells
}

/// The same, by what loose records ask for.
fn cells_by(
    alloc: Global,
    standing: &CurrentVersions,
    asked: &[u64],
    notes: &[Note],
) -> Result<Vec<Cell>, AllocError>
    requires { AreAsked standing.now standing.now.list asked.now }
    ensures { let s = standing.now in
        IfOk result (λ cells. cells.items ≡ map (cell_of s.protocol s.list s.logical) notes.now) }
{
    let mut cells = Vec::with_capacity(alloc, notes.len())?;
    for note in notes {
        cells.push_reserved(cell(standing, asked, *note));
    }
    Ok(cells)
}

/// The cell of a slot of which this is noted.
fn cell(standing: &CurrentVersions, asked: &[u64], note: Note) -> Cell
    requires { AreAsked standing.now standing.now.list asked.now }
    ensures { let s = standing.now in result ≡ cell_of s.protocol s.list s.logical note }
{
    match note {
        Note::Blank => Cell::Blank,
        Note::Damaged => Cell::Damaged,
        Note::Holds(rec) => Cell::Holds {
            rec,
            rank: Rank::of(standing.current(rec.page), rec.version),
            held: is_held(standing, asked, rec),
        },
    }
}

//! What is said of a slot in one line.
ghost use Rattle.std.specs.Prelude.{◌≡◌, ◌++◌, OnOk};
ghost use Rattle.flash_picture.specs.Pieces.{title};
ghost use Rattle.flash_picture.specs.Svg.{links_text, slot_title};

use crate::cell::Cell;
use crate::map::Map;
use crate::text::{add, add_count, add_name, add_number};
use std::alloc::AllocError;
use tx_types::Slot;

impl Map<'_> {
    /// Appends what a pointer shows at a slot.
    pub fn write_title(&self, slot: Slot, text: &mut Vec<u8>) -> Result<(), AllocError>
        ensures { let m = self.now in OnOk result (text.new.items
            ≡ text.old.items ++ title (slot_title m.cells.now m.marks slot.0)) }
    {
        add(b"<title>", text)
            .and(self.write_slot_title(slot, text))
            .and(add(b"</title>", text))
    }

    /// Appends the number of a slot, the words of its cell, and what its record links to.
    pub fn write_slot_title(&self, slot: Slot, text: &mut Vec<u8>) -> Result<(), AllocError>
        ensures { OnOk result (text.new.items
            ≡ text.old.items ++ slot_title self.now.cells.now self.now.marks slot.0) }
    {
        add(b"slot ", text)
            .and(add_count(slot.0, text))
            .and(add(b": ", text))
            .and(self.write_slot(slot, text))
            .and(write_links(self.cell(slot), text))
    }
}

/// Appends what a record links to, and its back version.
fn write_links(cell: Cell, text: &mut Vec<u8>) -> Result<(), AllocError>
    ensures { OnOk result (text.new.items ≡ text.old.items ++ links_text cell) }
{
    match cell {
        Cell::Blank => Ok(()),
        Cell::Damaged => Ok(()),
        Cell::Holds { rec, .. } => {
            add(b", link ", text)
                .and(add_name(rec.next, text))
                .and(add(b", back ", text))
                .and(add_number(rec.back, text))
        }
    }
}

//! Transactions over many pages.
use record_list::Found;
use std::alloc::{AllocError, Global};
use tx_types::{Link, Rec, Slot};

/// A transaction over this many pages, whole: each page at version 1, in the slot of its number.
pub fn cycle_of(alloc: Global, pages: u32) -> Result<Vec<Found>, AllocError> {
    let mut list = Vec::new(alloc);
    for page in 0..pages {
        let next = Link {
            page: if page + 1 < pages { page + 1 } else { 0 },
            version: 1,
        };
        let rec = Rec {
            page,
            version: 1,
            next,
            back: 0,
            count: 0,
            discard: false,
        };
        list.push(Found {
            slot: Slot(page),
            rec,
        })?;
    }
    Ok(list)
}

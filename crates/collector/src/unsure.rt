use tx_types::{Block, Rec, Slot};

/// The one operation whose outcome is not known, because it was broken. The tables stand as if it
/// had not been tried.
#[derive(Clone, Copy, PartialEq, Eq)]
pub enum Unsure {
    /// There is none: the tables mirror the flash.
    Nothing,
    /// The program of this record of an open transaction in this slot.
    Own { at: Slot, rec: Rec },
    /// The program of a copy of the record in `from`, in a slot of the spare.
    Copy { from: Slot, to: Slot },
    /// The erase of the spare, or its replacement where it is retired.
    SpareErase,
    /// The erase of a collected block, or the replacement of a retired one. Its needed records were copied to the
    /// spare.
    VictimErase { block: Block },
}

/// What was found of an operation whose outcome was not known.
#[derive(Clone, Copy, PartialEq, Eq)]
pub enum Settled {
    /// It was not the program of a record of an open transaction, or there was none.
    Other,
    /// The record of an open transaction is there.
    Present,
    /// The record of an open transaction is not there.
    Missing,
}

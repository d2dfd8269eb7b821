use tx_types::Rec;

/// What is noted of a slot.
#[derive(Clone, Copy, PartialEq, Eq)]
pub enum Note {
    /// Nothing was programmed since the last erase.
    Blank,
    /// It has nothing that can be read as a record.
    Damaged,
    /// It is complete, and its spare area spells this record.
    Holds(Rec),
}

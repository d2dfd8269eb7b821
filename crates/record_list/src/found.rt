use tx_types::{Rec, Slot};

/// A record and the slot that it stands in.
#[derive(Clone, Copy, PartialEq, Eq)]
pub struct Found {
    pub slot: Slot,
    pub rec: Rec,
}

/// Whether the newest record of a page counts.
#[derive(Clone, Copy, PartialEq, Eq)]
pub enum Verdict {
    Committed,
    Uncommitted,
}

/// What decides a verdict: the link at which the walk from the newest record of a page ends.
#[derive(Clone, Copy, PartialEq, Eq)]
pub enum Why {
    /// It leads back to the record that the walk began at.
    Cycle,
    /// It leads to a version below the newest of its page.
    Passed,
    /// It leads to a version above the newest of its page.
    Absent,
    /// It leads below the newest version, and is straddled; this is the greatest version that does.
    Straddled(u64),
}

/// A law of sound lists that is broken, by its number, and the slot that the law names.
#[derive(Clone, Copy, PartialEq, Eq)]
pub struct Breach {
    pub law: u8,
    pub slot: Slot,
}

/// What a broken program, erase or retirement leaves.
#[derive(Clone, Copy, PartialEq, Eq)]
pub enum Outcome {
    /// All is as before.
    None,
    /// The whole operation is done.
    All,
    /// The slot, or each slot of the block, is damaged. A block that was to be replaced is replaced.
    Bad,
}

/// A break that is to come: the operation that it will meet, counted from now on, and what it will leave.
#[derive(Clone, Copy, PartialEq, Eq)]
pub struct Arm {
    /// The number of the operation, from 1 for the next one.
    pub count: u32,
    pub outcome: Outcome,
}

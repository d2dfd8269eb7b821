/// How a logical page reads.
#[derive(Clone, Copy, PartialEq, Eq)]
pub enum ReadAnswer {
    /// It was never written.
    Blank,
    /// It has the bytes that were read.
    Page,
}

/// Why a logical page was not read.
#[derive(Clone, Copy, PartialEq, Eq)]
pub enum ReadError {
    /// There is no such page.
    Range,
    /// The flash met a fault.
    Fault,
}

/// Why a transaction was not opened. Each kind of refusal looks at the whole batch before the next kind is
/// tried, in this order.
#[derive(Clone, Copy, PartialEq, Eq)]
pub enum SubmitError {
    /// The batch has no entry.
    Empty,
    /// There is no such page.
    Range(u32),
    /// The page stood earlier in the batch.
    Repeated(u32),
    /// An open transaction has this tag.
    Tag,
    /// The page belongs to the open transaction with this tag.
    Overlap { page: u32, tag: u32 },
    /// The batch has more pages than may be pending beside the open transactions.
    Full { free: u32 },
    /// The page has no version left.
    Spent(u32),
}

/// How far a step brought a transaction.
#[derive(Clone, Copy, PartialEq, Eq)]
pub enum Progress {
    /// `done` of its `all` pages are written.
    Wrote { done: u32, all: u32 },
    /// All its pages are written, and the array has taken them at once.
    Done,
}

/// How far a step of several transactions at once brought them.
#[derive(Clone, Copy, PartialEq, Eq)]
pub struct Moved {
    /// How many of them went on by one step.
    pub moved: u32,
    /// How many of these are done: the array has taken their pages.
    pub finished: u32,
}

/// Why a transaction did not go on.
#[derive(Clone, Copy, PartialEq, Eq)]
pub enum StepError {
    /// No open transaction has the tag.
    Unknown,
    /// The flash met a fault.
    Fault,
}

/// How a transaction was given up.
#[derive(Clone, Copy, PartialEq, Eq)]
pub enum Aborted {
    /// None of its pages is in the array.
    Gone,
    /// It was too late: the array has taken all its pages.
    Late,
}

/// What a collection did.
#[derive(Clone, Copy, PartialEq, Eq)]
pub enum Collected {
    /// The block with the most garbage was collected.
    One,
    /// There was no garbage.
    Nothing,
}

/// The flash met a fault.
#[derive(Clone, Copy, PartialEq, Eq)]
pub struct Fault;

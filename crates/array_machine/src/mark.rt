/// What is known of the last page of an open transaction.
#[derive(Clone, Copy, PartialEq, Eq)]
pub enum Mark {
    /// It is not written.
    Plain,
    /// Its write failed, and it may be there or not.
    Doubt,
    /// It is there, so all pages were taken into the array.
    Whole,
}

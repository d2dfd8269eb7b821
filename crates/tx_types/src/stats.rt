/// What a device tells of itself.
#[derive(Clone, Copy, PartialEq, Eq)]
pub struct Stats {
    /// Pages that are not blank.
    pub written: u32,
    /// Open transactions.
    pub tags: u32,
    /// The pages of all open transactions.
    pub pending: u32,
    /// Flash programs that were done, since the flash was made or loaded.
    pub programs: u64,
    /// Flash erases that were done, since the flash was made or loaded.
    pub erases: u64,
    /// Slots that a collection would win back.
    pub garbage: u32,
}

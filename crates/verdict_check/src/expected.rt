use record_list::Why;

/// What the line of a page is to say.
#[derive(Clone, Copy)]
pub struct Expected {
    pub page: u32,
    /// Its newest version.
    pub newest: u64,
    /// What decides the verdict on that.
    pub why: Why,
    /// Its current version, 0 for none.
    pub current: u64,
    /// The number of the links of the walk that decides.
    pub links: u32,
}

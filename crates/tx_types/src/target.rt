/// The page that an entry is of, and whether it discards it.
#[derive(Clone, Copy)]
pub struct Target {
    pub page: u32,
    pub discard: bool,
}

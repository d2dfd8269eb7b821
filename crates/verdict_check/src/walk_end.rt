/// Where the links of newest records lead, from the newest record of a page.
#[derive(Clone, Copy)]
pub enum WalkEnd {
    /// After this many links it is at the record at this place, whose link leads to no newest record.
    Ends { after: u32, at: u32 },
    /// After this many links it is back, for the first time.
    Round { links: u32 },
    /// For one link more than there are pages it comes neither to an end nor back.
    Long,
}

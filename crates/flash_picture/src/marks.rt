use record_list::Breach;
use tx_types::Block;

/// What a picture marks.
#[derive(Clone, Copy, PartialEq, Eq)]
pub struct Marks {
    /// The block that is the spare.
    pub spare: Option<Block>,
    /// The first law that the image breaks, and the slot that it names.
    pub breach: Option<Breach>,
}

ghost use Rattle.std.specs.Prelude.{◌≡◌};
ghost use Rattle.program_base.specs.declared.stop.ImageStop.TheVariants as stop;

use crate::refusal::ImageRefusal;
use tx_types::Memory;

/// Why work on an image file stops before its end.
#[derive(Clone, Copy)]
pub enum ImageStop<'a> {
    Refused(ImageRefusal<'a>),
    /// The desk met a fault.
    Fault,
    /// There was no memory.
    Memory,
}

impl From<Memory> for ImageStop<'_> {
    ghost from_gives = { λ _ e. e ≡ stop.Memory };

    fn from(_: Memory) -> Self {
        ImageStop::Memory
    }
}

ghost use Rattle.std.specs.Prelude.{◌≡◌};
ghost use Rattle.image_file.specs.declared.error.ImageError.TheVariants as image;
ghost use Rattle.live_file.specs.declared.error.LiveError.TheVariants as error;

use image_file::ImageError;
use std::alloc::AllocError;
use tx_types::Slot;

/// The first rule that the bytes of a live file break, or want of memory.
#[derive(Clone, Copy, PartialEq, Eq)]
pub enum LiveError {
    /// A rule of image files. A live file begins with `TXFLASH3`, and may allow no block to be retired.
    Image(ImageError),
    /// No slot has more zero bits than its number says. This is the least one that does.
    Count(Slot),
}

impl From<ImageError> for LiveError {
    ghost from_gives = { λ rule e. e ≡ error.Image rule };

    fn from(rule: ImageError) -> Self {
        LiveError::Image(rule)
    }
}

impl From<AllocError> for LiveError {
    ghost from_gives = { λ _ e. e ≡ error.Image image.Memory };

    fn from(_: AllocError) -> Self {
        LiveError::Image(ImageError::Memory)
    }
}

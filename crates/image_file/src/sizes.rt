//! The sizes of the parts of an image file.
ghost use Rattle.std.specs.Prelude.{◌≡◌, ◌+◌};
ghost use Rattle.tx_types.specs.Config.{image_bytes, slots_of, IsShape};
ghost use Rattle.tx_types.specs.Limits.{header_bytes};

use crate::header::HEADER_BYTES;
use flash_model::SPARE_BYTES;
use tx_types::Shape;

/// The bytes in front of the slots' own: the header, and a state for each slot.
pub(crate) fn head_bytes(shape: Shape) -> usize
    requires { IsShape shape }
    ensures { result ≡ header_bytes + slots_of shape }
{
    HEADER_BYTES + shape.slots() as usize
}

/// The bytes of an image file of a flash of this shape.
pub(crate) fn image_bytes(shape: Shape) -> usize
    requires { IsShape shape }
    ensures { result ≡ image_bytes shape }
{
    HEADER_BYTES + shape.slots() as usize * (1 + shape.page_bytes as usize + SPARE_BYTES)
}

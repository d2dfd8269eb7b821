//! Line feeds, looked for in 32 bytes at once.
ghost use Rattle.std.specs.Prelude.{◌≡◌, ◌≤◌, length, take, position};
ghost use Rattle.host_protocol.specs.Lines.{is_line_feed};

use std::simd::prelude::*;

/// The bytes that are looked at at once.
pub const LANES: usize = 32;

/// Where the first line feed stands among the first 32 bytes.
#[inline(always)]
pub fn near_line_feed(bytes: &[u8]) -> Option<usize>
    requires { LANES ≤ length bytes.now }
    ensures { result ≡ position is_line_feed (take LANES bytes.now) }
{
    let found = u8x32::from_slice(bytes)
        .simd_eq(u8x32::splat(b'\n'))
        .to_bitmask();
    if found == 0 {
        None
    } else {
        Some(found.trailing_zeros() as usize)
    }
}

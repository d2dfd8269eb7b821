ghost use Rattle.std.specs.Prelude.{◌≡◌, ◌≤◌, length, take, nat_eq};
ghost use Rattle.std.specs.List.{common_prefix_len};
ghost use Rattle.lane_scan.specs.Scans.{all_equal};

use std::simd::prelude::*;

/// The bytes of a vector.
pub(crate) const LANES: usize = 32;

/// Whether each of the first 32 bytes has this value.
#[inline(always)]
pub(crate) fn all_equal(bytes: &[u8], value: u8) -> bool
    requires { LANES ≤ length bytes.now }
    ensures { result ≡ all_equal (take LANES bytes.now) value }
{
    let differ = u8x32::from_slice(bytes).simd_ne(u8x32::splat(value));
    differ.to_bitmask() == 0
}

/// How many of the first 32 bytes are the same in both, up to the first that is not.
#[inline(always)]
pub(crate) fn count_same(a: &[u8], b: &[u8]) -> usize
    requires a { LANES ≤ length a.now }
    requires b { LANES ≤ length b.now }
    ensures { result ≡ common_prefix_len nat_eq (take LANES a.now) (take LANES b.now) }
{
    let differ = u8x32::from_slice(a)
        .simd_ne(u8x32::from_slice(b))
        .to_bitmask();
    if differ == 0 {
        LANES
    } else {
        differ.trailing_zeros() as usize
    }
}

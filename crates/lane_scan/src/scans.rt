ghost use Rattle.std.specs.Prelude.{◌≡◌, ◌↔◌, ◌≤◌, length, nat_eq, IsNone, IfSome};
ghost use Rattle.std.specs.List.{common_prefix_len};
ghost use Rattle.lane_scan.specs.Scans.{all_equal, first_difference, DifferFirstAt};

use crate::lanes;
use crate::lanes::LANES;

/// Whether each byte has this value. It is so where there is no byte.
pub fn all_equal(bytes: &[u8], value: u8) -> bool
    ensures { result ≡ all_equal bytes.now value }
{
    let mut rest = bytes;
    while rest.len() >= LANES {
        if !lanes::all_equal(rest, value) {
            return false;
        }
        rest = &rest[LANES..];
    }
    if bytes.len() >= LANES {
        return lanes::all_equal(&bytes[bytes.len() - LANES..], value);
    }
    all_equal_by_one(rest, value)
}

/// Whether each byte has this value, of bytes that fill no vector.
fn all_equal_by_one(bytes: &[u8], value: u8) -> bool
    ensures { result ≡ all_equal bytes.now value }
{
    bytes.iter().all(|b| *b == value)
}

/// The least index at which two lists of one length differ.
pub fn first_difference(a: &[u8], b: &[u8]) -> Option<usize>
    requires { length a.now ≡ length b.now }
    ensures exact { result ≡ first_difference a.now b.now }

    // No index exactly where the lists are equal, in plain words.
    ensures equal { IsNone result ↔ (a.now ≡ b.now) }
    ensures least { IfSome result (DifferFirstAt a.now b.now) }
{
    let same = count_same(a, b);
    if same < a.len() { Some(same) } else { None }
}

/// How many bytes are the same in both, up to the first that is not.
fn count_same(a: &[u8], b: &[u8]) -> usize
    requires { length a.now ≡ length b.now }
    ensures { result ≡ common_prefix_len nat_eq a.now b.now }
{
    let mut at = 0;
    while a.len() - at >= LANES {
        let same = lanes::count_same(&a[at..], &b[at..]);
        if same < LANES {
            return at + same;
        }
        at += LANES;
    }
    at + count_same_by_one(&a[at..], &b[at..])
}

/// How many bytes at the front of both are equal, of the few bytes that fill no vector.
fn count_same_by_one(a: &[u8], b: &[u8]) -> usize
    requires { length a.now ≡ length b.now }
    ensures same { result ≡ common_prefix_len nat_eq a.now b.now }
    ensures within { result ≤ length a.now }
{
    let mut same = 0;
    for (x, y) in a.iter().zip(b) {
        if x != y {
            break;
        }
        same += 1;
    }
    same
}

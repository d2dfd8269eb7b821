ghost use Rattle.std.specs.Prelude.{◌<◌, ◌≤◌};

use crate::samples::number_at;
use lane_scan::{all_equal, first_difference};

/// As many bytes as the longest case has.
const SEVENS: [u8; 129] = [7; 129];

/// The bytes with another one at a place.
fn changed(bytes: [u8; 129], at: usize, byte: u8) -> [u8; 129]
    requires { at < 129 }
{
    let mut all = bytes;
    all[at] = byte;
    all
}

/// Whether a byte at this place counts where there are this many bytes.
fn is_counted(at: usize, len: usize) -> bool
    requires at { at < len }
    requires len { len ≤ 129 }
{
    let other = changed(SEVENS, at, 0);
    !all_equal(&other[..len], 7) && first_difference(&SEVENS[..len], &other[..len]) == Some(at)
}

/// Whether each byte counts where there are this many.
fn are_counted(len: usize) -> bool
    requires { len ≤ 129 }
{
    for at in 0..len {
        if !is_counted(at, len) {
            return false;
        }
    }
    let sevens = &SEVENS[..len];
    all_equal(sevens, 7)
        && all_equal(sevens, 8) == (len == 0)
        && first_difference(sevens, sevens).is_none()
}

/// Whether the lesser of two places is found where zeros and these bytes differ.
fn finds(least: usize, other: usize) -> bool
    requires least { least < 129 }
    requires other { other < 129 }
{
    let zeros = [0; 129];
    let bytes = changed(changed(zeros, least, 0xff), other, 0x80);
    first_difference(&zeros, &bytes) == Some(least)
        && first_difference(&bytes, &zeros) == Some(least)
}

/// Whether a last byte that is another one is found.
fn finds_last() -> bool {
    let zeros = [0; 129];
    let last = changed(zeros, 128, 1);
    !all_equal(&last, 0) && first_difference(&last, &zeros) == Some(128)
}

/// How many bytes there are, of which each counts; two places that differ, the lesser one first: in one vector, in two,
/// and behind the vectors; and the last place.
pub const SCANS: &str = "\
    each 0\n\
    each 1\n\
    each 31\n\
    each 32\n\
    each 33\n\
    each 64\n\
    each 100\n\
    each 129\n\
    places 0 31\n\
    places 5 6\n\
    places 31 32\n\
    places 40 127\n\
    places 100 128\n\
    places 127 128\n\
    last";

/// Whether a line is right of scans.
pub fn is_scan_right(kind: &str, line: &str) -> bool {
    let first = number_at(line, 0).unwrap_or(u32::MAX);
    let other = number_at(line, 1).unwrap_or(u32::MAX);
    match kind {
        "each" => first <= 129 && are_counted(first as usize),
        "places" => first < 129 && other < 129 && finds(first as usize, other as usize),
        _ => finds_last(),
    }
}

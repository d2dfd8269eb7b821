//! What a file with several contents may hold.
use super::Wanted;
use std::alloc::Global;

/// Where the disk tears a file: bytes that are written at once.
const BLOCK: usize = 64;

/// Adds the first block of one version and the rest of another, with zeros behind their ends. Tells whether there was
/// memory.
pub fn add_mix(first: &[u8], second: &[u8], length: usize, bytes: &mut Vec<u8>) -> bool {
    for at in 0..length {
        let from = if at < BLOCK { first } else { second };
        if bytes.push(from.get(at).copied().unwrap_or(0)).is_err() {
            return false;
        }
    }
    true
}

/// Whether a mix of this length may be left.
fn may_mix_be(alloc: Global, first: &[u8], second: &[u8], length: usize, wanted: &Wanted) -> bool {
    let mut bytes = Vec::new(alloc);
    add_mix(first, second, length, &mut bytes) && wanted.may_be(bytes.as_slice())
}

/// Whether each mix of two files may be left: with the length of one version, of another, or one between them.
fn may_lengths_be(
    alloc: Global,
    versions: &[Vec<u8>],
    first: &[u8],
    second: &[u8],
    wanted: &Wanted,
) -> bool {
    for one in versions {
        for other in versions {
            let length = one.len().midpoint(other.len());
            if !may_mix_be(alloc, first, second, length, wanted) {
                return false;
            }
        }
    }
    true
}

/// Whether each mix may be left of the first block of one version and the second of another, with the length of a
/// third or one between it and that of a fourth.
pub fn may_mixes_be(alloc: Global, versions: &[Vec<u8>], wanted: &Wanted) -> bool {
    for first in versions {
        for second in versions {
            if !may_lengths_be(alloc, versions, first, second, wanted) {
                return false;
            }
        }
    }
    true
}

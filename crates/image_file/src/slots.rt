ghost use Rattle.std.specs.Prelude.{◌≡◌, ◌*◌, ◌<◌, ◌≤◌, length, map, IfSome, None, Some, MatchResult};
ghost use Rattle.tx_types.specs.Limits.{max_slots};
ghost use Rattle.image_file.specs.Rules.{seen_from, all_seen, is_filled, wrong_state, wrong_bytes, broken_states, IsRefusal};
ghost use Rattle.image_file.specs.Spelling.{state_byte};

use crate::ImageError;
use flash_model::Seen;
use lane_scan::all_equal;
use std::alloc::Global;
use tx_types::Slot;

/// How each slot reads, or the first slot whose state stands for nothing.
pub(crate) fn read_states(alloc: Global, states: &[u8]) -> Result<Vec<Seen>, ImageError>
    requires { length states.now ≤ max_slots }
    ensures { MatchResult result
        (λ seen. (wrong_state states.now ≡ None) × (seen.items ≡ all_seen states.now))
        (IsRefusal (broken_states states.now)) }
{
    let mut seen = Vec::with_capacity(alloc, states.len())?;
    for (at, state) in states.iter().enumerate() {
        let Some(how) = seen_from(*state) else {
            return Err(ImageError::SlotState(Slot(at as u32)));
        };
        seen.push(how)?;
    }
    Ok(seen)
}

/// How a slot reads for which this byte stands.
fn seen_from(state: u8) -> Option<Seen>
    ensures { result ≡ seen_from state }
{
    match state {
        0 => Some(Seen::Blank),
        1 => Some(Seen::Complete),
        2 => Some(Seen::Damaged),
        _ => None,
    }
}

/// The byte that stands for how a slot reads.
pub(crate) fn state(seen: Seen) -> u8
    ensures { result ≡ state_byte seen }
{
    match seen {
        Seen::Blank => 0,
        Seen::Complete => 1,
        Seen::Damaged => 2,
    }
}

/// The first slot, of `size` bytes each, that does not have the bytes of how it reads.
pub(crate) fn wrong_bytes(seen: &[Seen], cells: &[u8], size: usize) -> Option<usize>
    requires { length cells.now ≡ length seen.now * size }
    ensures first { result ≡ wrong_bytes size seen.now cells.now }
    ensures in_range { IfSome result (λ at. at < length seen.now) }
{
    for (at, how) in seen.iter().enumerate() {
        let from = at * size;
        if !is_filled(*how, &cells[from..from + size]) {
            return Some(at);
        }
    }
    None
}

/// Whether these are the bytes of a slot that reads this way.
fn is_filled(how: Seen, cell: &[u8]) -> bool
    ensures { result ≡ is_filled how cell.now }
{
    match how {
        Seen::Blank => all_equal(cell, 0xff),
        Seen::Damaged => all_equal(cell, 0x00),
        Seen::Complete => true,
    }
}

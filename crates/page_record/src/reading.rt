ghost use Rattle.std.specs.Prelude.{◌≡◌, ◌&&◌, ◌+◌, ◌≤◌, IfOk, Ok, slice_range};
ghost use Rattle.std.specs.Int.{w32, w64};
ghost use Rattle.std.specs.Result.{result_ok, result_err};
ghost use Rattle.tx_types.specs.Limits.{spare_bytes};
ghost use Rattle.tx_types.specs.declared.record.Rec.{Rec};
ghost use Rattle.page_record.specs.Rules.{number_at, fields_of, are_zeros, is_counted, has_flags, is_count, rest_of, is_version, is_back, first_broken, record_of};
ghost use Rattle.page_record.specs.Spelling.{spelling, CanBeSpelled};

use crate::SpareError;
use crate::layout::{COUNTED, MARK, MAX_COUNT, PLAIN, code};
use tx_types::{Link, MAX_VERSION, Protocol, Rec};

/// The record that a spare area spells under this protocol, or the first rule that its bytes break.
#[inline]
pub fn read_spare(spare_area: &[u8; 64], protocol: Protocol) -> Result<Rec, SpareError>
    // What is read is spelled so.
    ensures spelled { IfOk result (λ rec.
        CanBeSpelled protocol rec × (spare_area.now ≡ spelling protocol rec)) }
    // What is spelled so is read.
    ensures only { (rec : Rec) → CanBeSpelled protocol rec → spare_area.now ≡ spelling protocol rec →
        result ≡ Ok rec }

    // Both answers as functions of the bytes: the error is the first rule in the table that is broken.
    ensures found { result_ok result ≡ record_of protocol spare_area.now }
    ensures error { result_err result ≡ first_broken protocol spare_area.now }
{
    let rec = fields(spare_area);
    match broken_rule(spare_area, protocol, rec) {
        Some(rule) => Err(rule),
        None => Ok(rec),
    }
}

/// The first rule that the bytes break, of which these numbers are read.
#[inline]
#[tactic(auto, unfolding(crate::specs::Rules::first_broken))]
fn broken_rule(spare_area: &[u8; 64], protocol: Protocol, rec: Rec) -> Option<SpareError>
    requires { rec ≡ fields_of spare_area.now }
    ensures { result ≡ first_broken protocol spare_area.now }
{
    if !spare_area.starts_with(&MARK) {
        Some(SpareError::Mark)
    } else if spare_area[4] != PLAIN && spare_area[4] != COUNTED {
        Some(SpareError::Format)
    } else if spare_area[5] != code(protocol) {
        Some(SpareError::Protocol)
    } else if !has_flags(spare_area) {
        Some(SpareError::Flags)
    } else if !has_versions(rec) {
        Some(SpareError::Version)
    } else if !is_back(protocol, rec.version, rec.back) {
        Some(SpareError::Back)
    } else if is_counted(spare_area) && !is_count(rec.count) {
        Some(SpareError::Count)
    } else if !has_zero_rest(spare_area) {
        Some(SpareError::Rest)
    } else {
        None
    }
}

/// The record whose numbers stand in the bytes.
#[inline(always)]
fn fields(spare_area: &[u8; 64]) -> Rec
    ensures { result ≡ fields_of spare_area.now }
{
    Rec {
        page: u32_at(spare_area, 8),
        version: u64_at(spare_area, 16),
        next: Link {
            page: u32_at(spare_area, 12),
            version: u64_at(spare_area, 24),
        },
        back: u64_at(spare_area, 32),
        count: u32_at(spare_area, 40),
        discard: spare_area[6] == 1,
    }
}

/// The number in the four bytes at an offset.
#[inline(always)]
#[tactic(auto, unfolding(crate::specs::Rules::number_at))]
fn u32_at(spare_area: &[u8; 64], offset: usize) -> u32
    requires { offset + 4 ≤ 64 }
    ensures { result ≡ number_at w32 offset spare_area.now }
{
    let bytes = &spare_area[offset..offset + 4];
    u32::from_le_bytes([bytes[0], bytes[1], bytes[2], bytes[3]])
}

/// The number in the eight bytes at an offset.
#[inline(always)]
#[tactic(auto, unfolding(crate::specs::Rules::number_at))]
fn u64_at(spare_area: &[u8; 64], offset: usize) -> u64
    requires { offset + 8 ≤ 64 }
    ensures { result ≡ number_at w64 offset spare_area.now }
{
    let bytes = &spare_area[offset..offset + 8];
    u64::from_le_bytes([
        bytes[0], bytes[1], bytes[2], bytes[3], bytes[4], bytes[5], bytes[6], bytes[7],
    ])
}

/// Whether the format is the one with a count.
#[inline(always)]
fn is_counted(spare_area: &[u8; 64]) -> bool
    ensures { result ≡ is_counted spare_area.now }
{
    spare_area[4] == COUNTED
}

/// Whether the flags are 0, or 1 where the format has a count.
#[inline(always)]
fn has_flags(spare_area: &[u8; 64]) -> bool
    ensures { result ≡ has_flags spare_area.now }
{
    let flag = spare_area[6];
    (flag == 0 || (is_counted(spare_area) && flag == 1)) && spare_area[7] == 0
}

/// Whether a number may be a count.
#[inline(always)]
fn is_count(number: u32) -> bool
    ensures { result ≡ is_count number }
{
    1 <= number && number <= MAX_COUNT
}

/// Whether the bytes behind the last field are 0, which is the back version where the format has no
/// count.
#[inline(always)]
fn has_zero_rest(spare_area: &[u8; 64]) -> bool
    ensures { result ≡ are_zeros (rest_of spare_area.now) }
{
    if is_counted(spare_area) {
        has_zero_tail(spare_area)
    } else {
        has_zero_tail_and_count(spare_area)
    }
}

/// Whether the bytes of the count and those behind them are 0.
#[inline(always)]
fn has_zero_tail_and_count(spare_area: &[u8; 64]) -> bool
    ensures { result ≡ are_zeros (slice_range spare_area.now 40 spare_bytes) }
{
    let count = u32_at(spare_area, 40);
    count == 0 && has_zero_tail(spare_area)
}

/// Whether the bytes behind the count are 0.
#[inline(always)]
fn has_zero_tail(spare_area: &[u8; 64]) -> bool
    ensures { result ≡ are_zeros (slice_range spare_area.now 44 spare_bytes) }
{
    let first = u32_at(spare_area, 44);
    let second = u64_at(spare_area, 48);
    let third = u64_at(spare_area, 56);
    first == 0 && second == 0 && third == 0
}

/// Whether the version and the link version are in range.
#[inline(always)]
fn has_versions(rec: Rec) -> bool
    ensures { result ≡ (is_version rec.version && is_version rec.next.version) }
{
    is_version(rec.version) && is_version(rec.next.version)
}

/// Whether a number is in the range of versions.
#[inline(always)]
fn is_version(number: u64) -> bool
    ensures { result ≡ is_version number }
{
    1 <= number && number <= MAX_VERSION
}

/// Whether a record of this version may have this back version.
#[inline(always)]
fn is_back(protocol: Protocol, version: u64, back: u64) -> bool
    ensures { result ≡ is_back protocol version back }
{
    match protocol {
        Protocol::Scc => back == 0,
        Protocol::Bpcc => back < version,
    }
}

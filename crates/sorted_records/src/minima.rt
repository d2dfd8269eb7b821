//! Least back versions, by which the records that straddle a version are found.
ghost use Rattle.std.specs.Prelude.{◌≡◌, ℕ, ◌+◌, ◌-◌, ◌<◌, ◌≤◌, true, IfOk, IfSome, length, slice_set, slice_index_or};
ghost use Rattle.std.specs.List.Sorted.{IsPartitionPoint};
ghost use Rattle.sorted_records.specs.Minima.{counts, AreMinima, least_from, last_above};
ghost use Rattle.sorted_records.specs.SortedRecords.{IsInOrder};

use record_list::Found;
use std::alloc::{AllocError, Global};
use tx_types::Rec;

/// A page with more records than this has their least back versions noted: those of fewer are looked at.
const FEW: u32 = 16;

/// The least back versions of the records, as `minima` gives them, if some page has many records.
pub fn minima_of_many(
    alloc: Global,
    records: &[Found],
    starts: &[u32],
    tops: &[u64],
) -> Result<Option<Vec<u64>>, AllocError>
    requires { IsInOrder records.now }
    ensures { IfOk result (λ r. IfSome r (λ least. AreMinima records.now tops.now least.items)) }
{
    if !has_many(records.len(), starts) {
        return Ok(None);
    }
    Ok(Some(minima(alloc, records, tops)?))
}

/// Whether more than a few of this many records stand from one of these starts to the next. It goes on to the last one,
/// so that several starts are looked at at once.
fn has_many(count: usize, starts: &[u32]) -> bool {
    let mut most = 0;
    let mut before = 0;
    for start in starts {
        most = most.max(start.saturating_sub(before));
        before = *start;
    }
    most > FEW || count.saturating_sub(before as usize) > FEW as usize
}

/// For each record the least back version of the records of its page from it on. Those count whose
/// version is up to the bound of their page; a page beyond the bounds has none.
fn minima(alloc: Global, records: &[Found], tops: &[u64]) -> Result<Vec<u64>, AllocError>
    requires { IsInOrder records.now }
    ensures { IfOk result (λ least. AreMinima records.now tops.now least.items) }
{
    let mut least = vec![in alloc; 0; records.len()]?;
    let mut at = records.len();
    while at > 0 {
        at -= 1;
        let back = least_from(records, tops, &least, at);
        set(&mut least, at, back);
    }
    Ok(least)
}

/// The least back version from a place on, by that from the next one on.
fn least_from(records: &[Found], tops: &[u64], least: &[u64], at: usize) -> u64
    requires within { at < length records.now }
    requires size { length least.now ≡ length records.now }
    ensures { result ≡ least_from records.now tops.now least.now at }
{
    let rec = records[at].rec;
    let next = at + 1;
    if next < records.len()
        && records[next].rec.page == rec.page
        && counts(tops, records[next].rec)
    {
        rec.back.min(least[next])
    } else {
        rec.back
    }
}

/// Sets a number.
fn set(numbers: &mut Vec<u64>, at: usize, to: u64)
    requires { at < length numbers.old.items }
    ensures { numbers.new.items ≡ slice_set numbers.old.items at to }
{
    numbers[at] = to;
}

/// Whether a record's version is up to the bound of its page, if this has one.
#[inline]
fn counts(tops: &[u64], rec: Rec) -> bool
    ensures { result ≡ counts tops.now rec }
{
    match tops.get(rec.page as usize) {
        None => true,
        Some(top) => rec.version <= *top,
    }
}

/// How many of these numbers, which do not fall, are below a version: they are the first.
pub fn count_below(least: &[u64], version: u64) -> usize
    requires { (i j : ℕ) → i ≤ j → j < length least.now →
        slice_index_or least.now i 0 ≤ slice_index_or least.now j 0 }
    ensures within { result ≤ length least.now }
    ensures first { IsPartitionPoint (λ m. m < version) (λ m. version ≤ m) least.now result }
{
    least.partition_point(|back| *back < version)
}

/// How many of these numbers are below a version, where one more than this number, and this number, are tried first.
pub fn count_below_near(least: &[u64], version: u64, near: usize) -> usize
    requires { (i j : ℕ) → i ≤ j → j < length least.now →
        slice_index_or least.now i 0 ≤ slice_index_or least.now j 0 }
    ensures within { result ≤ length least.now }
    ensures first { IsPartitionPoint (λ m. m < version) (λ m. version ≤ m) least.now result }
{
    for count in [near.saturating_add(1), near] {
        if are_below(least, version, count) {
            return count;
        }
    }
    count_below(least, version)
}

/// Whether this many of these numbers, which do not fall, are below a version.
#[inline(always)]
fn are_below(least: &[u64], version: u64, count: usize) -> bool
    requires { (i j : ℕ) → i ≤ j → j < length least.now →
        slice_index_or least.now i 0 ≤ slice_index_or least.now j 0 }
    ensures within { result ≡ true → count ≤ length least.now }
    ensures first { result ≡ true →
        IsPartitionPoint (λ m. m < version) (λ m. version ≤ m) least.now count }
{
    count <= least.len() && is_below_before(least, version, count) && is_from(least, version, count)
}

/// Whether the number before this place, if there is one, is below a version.
#[inline(always)]
fn is_below_before(least: &[u64], version: u64, at: usize) -> bool
    requires { at ≤ length least.now }
    ensures { result ≡ true → 0 < at → slice_index_or least.now (at - 1) 0 < version }
{
    at == 0 || least[at - 1] < version
}

/// Whether the number at this place, if there is one, is not below a version.
#[inline(always)]
fn is_from(least: &[u64], version: u64, at: usize) -> bool
    ensures { result ≡ true → at < length least.now → version ≤ slice_index_or least.now at 0 }
{
    at >= least.len() || least[at] >= version
}

/// The version of the last of these records whose least back version is below a version, where it is
/// above this, else 0.
#[inline]
pub fn last_above(records: &[Found], from: usize, count: usize, version: u64) -> u64
    requires { from + count ≤ length records.now }
    ensures { result ≡ last_above records.now from count version }
{
    if count == 0 {
        return 0;
    }
    let top = records[from + count - 1].rec.version;
    if top > version { top } else { 0 }
}

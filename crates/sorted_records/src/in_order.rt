//! What records say that are in order of their names.
ghost use Rattle.std.specs.Prelude.{◌≡◌, ◌<◌, ◌≤◌, ◌^◌, true, false, Some, position, filter, OnOk, length};
ghost use Rattle.std.specs.List.Sorted.{IsPartitionPoint};
ghost use Rattle.record_list.specs.Records.{name_of, has_name, record_at, newest, next_older};
ghost use Rattle.record_list.specs.Verdict.{link_of, back_of, newest_name};
ghost use Rattle.sorted_records.specs.SortedRecords.{is_below, IsInOrder, Sorts, SortsByLink, last_version};
ghost use Rattle.sorted_records.specs.Starts.{AreStarts};

use crate::search::{is_below_before, names_below, names_below_near, pages_below, pages_up_to};
use record_list::Found;
use std::alloc::AllocError;
use tx_types::Link;

/// Puts records in order of their names. Those of one name stay in the order that they have.
pub fn sort(records: &mut Vec<Found>) -> Result<(), AllocError>
    ensures { OnOk result (Sorts records.old.items records.new.items) }
{
    records.sort_by_key(|found| (found.rec.page, found.rec.version))?;
    Ok(())
}

/// Puts records in order of their links. Those of one link stay in the order that they have.
pub fn sort_by_link(records: &mut Vec<Found>) -> Result<(), AllocError>
    ensures { OnOk result (SortsByLink records.old.items records.new.items) }
{
    records.sort_by_key(|found| (found.rec.next.page, found.rec.next.version))?;
    Ok(())
}

/// The place of the first record with this name.
#[inline]
pub fn find(records: &[Found], starts: &[u32], name: Link) -> Option<u32>
    requires order { IsInOrder records.now }
    requires starts { AreStarts records.now starts.now }
    requires few { length records.now < 2 ^ 32 }
    ensures { result ≡ position (λ f. has_name name f.rec) records.now }
{
    find_near(records, starts, name, &mut 0)
}

/// The place of the first record with this name, by a search that begins where the last one ended.
#[inline]
pub fn find_near(records: &[Found], starts: &[u32], name: Link, near: &mut usize) -> Option<u32>
    requires order { IsInOrder records.now }
    requires starts { AreStarts records.now starts.now }
    requires few { length records.now < 2 ^ 32 }
    ensures { result ≡ position (λ f. has_name name f.rec) records.now }
{
    let at = pages_below(records, starts, name.page);
    if at == records.len() {
        return None;
    }
    let rec = &records[at].rec;
    if rec.page != name.page {
        None
    } else if rec.version == name.version {
        Some(at as u32)
    } else {
        find_by_search(records, starts, name, at, near)
    }
}

/// The place of the first record with this name, by a search among the records of its page, of which the second is
/// tried first.
#[inline(never)]
fn find_by_search(
    records: &[Found],
    starts: &[u32],
    name: Link,
    first: usize,
    near: &mut usize,
) -> Option<u32>
    requires order { IsInOrder records.now }
    requires starts { AreStarts records.now starts.now }
    requires few { length records.now < 2 ^ 32 }
    ensures { result ≡ position (λ f. has_name name f.rec) records.now }
{
    let at = names_below_near(records, starts, name, first, *near);
    *near = at;
    if at < records.len() && records[at].rec.has_name(name) {
        Some(at as u32)
    } else {
        None
    }
}

/// The place of the first record of the newest version of a page: the last record of the page has its name.
#[inline(always)]
pub fn find_newest(records: &[Found], starts: &[u32], page: u32) -> Option<u32>
    requires order { IsInOrder records.now }
    requires starts { AreStarts records.now starts.now }
    requires few { length records.now < 2 ^ 32 }
    ensures { result ≡ position (λ f. has_name (newest_name records.now page) f.rec) records.now }
{
    let end = pages_up_to(records, starts, page);
    if end == 0 {
        return None;
    }
    if records[end - 1].rec.page != page {
        return None;
    }
    Some(first_namesake(records, starts, (end - 1) as u32))
}

/// The place of the first record that has the name of the one at this place.
#[inline]
pub fn first_namesake(records: &[Found], starts: &[u32], at: u32) -> u32
    requires order { IsInOrder records.now }
    requires starts { AreStarts records.now starts.now }
    requires few { length records.now < 2 ^ 32 }
    requires within { at < length records.now }
    ensures { position (λ f. has_name (name_of (record_at records.now at)) f.rec) records.now
        ≡ Some result }
{
    let name = records[at as usize].rec.name();
    if is_below_before(records, name, at as usize) {
        return at;
    }
    match find(records, starts, name) {
        Some(place) => place,
        None => unreachable!(),
    }
}

/// The records with this name.
pub fn with_name<'a>(records: &'a [Found], starts: &[u32], name: Link) -> &'a [Found]
    requires order { IsInOrder records.now }
    requires starts { AreStarts records.now starts.now }
    ensures { result.now ≡ filter (λ f. has_name name f.rec) records.now }
{
    let from = names_below(records, starts, name);
    let to = names_up_to(records, starts, name);
    &records[from..to]
}

/// The link of the first record with this name, and the name itself where no record has it.
#[tactic(auto, using(crate::proofs::OfWalk::WalkOrbits::link_found, crate::proofs::OfWalk::WalkOrbits::link_nowhere))]
pub fn link_of(records: &[Found], starts: &[u32], name: Link) -> Link
    requires order { IsInOrder records.now }
    requires starts { AreStarts records.now starts.now }
    requires few { length records.now < 2 ^ 32 }
    ensures { result ≡ link_of records.now name }
{
    match find(records, starts, name) {
        Some(place) => records[place as usize].rec.next,
        None => name,
    }
}

/// The back version of the first record with this name, 0 where no record has it.
#[tactic(auto, using(crate::proofs::OfWalk::WalkOrbits::back_found, crate::proofs::OfWalk::WalkOrbits::back_nowhere))]
pub fn back_of(records: &[Found], starts: &[u32], name: Link) -> u64
    requires order { IsInOrder records.now }
    requires starts { AreStarts records.now starts.now }
    requires few { length records.now < 2 ^ 32 }
    ensures { result ≡ back_of records.now name }
{
    match find(records, starts, name) {
        Some(place) => records[place as usize].rec.back,
        None => 0,
    }
}

/// The greatest version of a page, 0 for none.
#[inline]
pub fn newest(records: &[Found], starts: &[u32], page: u32) -> u64
    requires order { IsInOrder records.now }
    requires starts { AreStarts records.now starts.now }
    ensures { result ≡ newest records.now page }
{
    last_version(records, pages_up_to(records, starts, page), page)
}

/// The greatest version of a page below a version, 0 for none.
pub fn next_older(records: &[Found], starts: &[u32], page: u32, below: u64) -> u64
    requires order { IsInOrder records.now }
    requires starts { AreStarts records.now starts.now }
    ensures { result ≡ next_older records.now page below }
{
    let name = Link {
        page,
        version: below,
    };
    last_version(records, names_below(records, starts, name), page)
}

/// How many of the records have names up to this one: they are the first.
pub fn names_up_to(records: &[Found], starts: &[u32], name: Link) -> usize
    requires order { IsInOrder records.now }
    requires starts { AreStarts records.now starts.now }
    ensures within { result ≤ length records.now }
    ensures first { IsPartitionPoint (λ f. is_below name (name_of f.rec) ≡ false)
        (λ f. is_below name (name_of f.rec) ≡ true) records.now result }
{
    match name.version.checked_add(1) {
        Some(version) => names_below(records, starts, Link { version, ..name }),
        None => records.partition_point(|found| {
            found.rec.page < name.page
                || found.rec.page == name.page && found.rec.version <= name.version
        }),
    }
}

/// The version of the record before this place, where it is of this page, else 0.
#[inline(always)]
fn last_version(records: &[Found], end: usize, page: u32) -> u64
    requires { end ≤ length records.now }
    ensures { result ≡ last_version records.now end page }
{
    if end == 0 {
        return 0;
    }
    let rec = records[end - 1].rec;
    if rec.page == page { rec.version } else { 0 }
}

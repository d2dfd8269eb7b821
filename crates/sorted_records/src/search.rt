//! Where the records of a page begin and end among records in order of their names, and a search among
//! those of a page.
ghost use Rattle.std.specs.Prelude.{◌≡◌, ℕ, ◌+◌, ◌<◌, ◌≤◌, ◌^◌, ◌-◌, ◌++◌, true, false, length, replicate, vec_capacity, IfOk};
ghost use Rattle.std.specs.List.Sorted.{IsPartitionPoint};
ghost use Rattle.record_list.specs.Records.{name_of, record_at};
ghost use Rattle.sorted_records.specs.SortedRecords.{is_below, IsInOrder};
ghost use Rattle.sorted_records.specs.Names.{AreNames};
ghost use Rattle.sorted_records.specs.Starts.{AreStarts, HaveStarts};

use crate::names::Names;
use record_list::Found;
use std::alloc::{AllocError, Global};
use tx_types::Link;

/// For each page up to the last one how many records stand before its own, and what their names are. Where that would
/// be more than four numbers for a record, the rest is left out: there a search finds them.
pub fn page_starts(alloc: Global, records: &[Found]) -> Result<(Vec<u32>, Names), AllocError>
    requires order { IsInOrder records.now }
    requires few { length records.now < 2 ^ 32 }
    ensures starts { IfOk result (λ r. AreStarts records.now r.0.items) }
    ensures names { IfOk result (λ r. AreNames records.now (length records.now) r.1) }
{
    let pages = match records.last() {
        None => 0,
        Some(found) => found.rec.page as usize + 1,
    };
    let size = pages.min(records.len().saturating_mul(4));
    let mut starts = Vec::with_capacity(alloc, size)?;
    let mut names = Names {
        differ: true,
        one_version: true,
    };
    for at in 0..records.len() {
        note_record(records, at, size, &mut starts, &mut names);
    }
    Ok((starts, names))
}

/// Notes where the pages up to that of the record at a place begin, of no more than this many pages, and how its name
/// differs from that of the one before.
#[inline(always)]
pub fn note_record(
    records: &[Found],
    at: usize,
    size: usize,
    starts: &mut Vec<u32>,
    names: &mut Names,
)
    requires order { IsInOrder records.now }
    requires few { length records.now < 2 ^ 32 }
    requires within { at < length records.now }
    requires room { size ≤ vec_capacity starts.old }
    requires starts { HaveStarts records.now size at starts.old.items }
    requires names { AreNames records.now at names.old }
    ensures starts { HaveStarts records.now size (at + 1) starts.new.items }
    ensures names { AreNames records.now (at + 1) names.new }
    ensures room { vec_capacity starts.new ≡ vec_capacity starts.old }
{
    note_name(records, at, names);
    let end = size.min(records[at].rec.page as usize + 1);
    if starts.len() < end {
        fill_up(starts, end, at as u32);
    }
}

/// Adds a number as often as it takes to have this many, for which there is room. Mostly that is once.
#[inline(always)]
fn fill_up(numbers: &mut Vec<u32>, size: usize, number: u32)
    requires few { length numbers.old.items < size }
    requires room { size ≤ vec_capacity numbers.old }
    ensures items { numbers.new.items
        ≡ numbers.old.items ++ replicate (size - length numbers.old.items) number }
    ensures room { vec_capacity numbers.new ≡ vec_capacity numbers.old }
{
    let next = numbers.len() + 1;
    if next == size {
        numbers.push_reserved(number);
        return;
    }
    fill(numbers, size, number);
}

/// Notes how the name of the record at a place differs from that of the one before, if there is one.
#[inline(always)]
fn note_name(records: &[Found], at: usize, names: &mut Names)
    requires within { at < length records.now }
    requires before { AreNames records.now at names.old }
    ensures { AreNames records.now (at + 1) names.new }
{
    if at == 0 {
        return;
    }
    let before = &records[at - 1].rec;
    let rec = &records[at].rec;
    if before.has_name(rec.name()) {
        names.differ = false;
    } else if before.page == rec.page {
        names.one_version = false;
    }
}

/// Adds a number as often as it takes to have this many, for which there is room.
#[inline(never)]
pub fn fill(numbers: &mut Vec<u32>, size: usize, number: u32)
    requires few { length numbers.old.items ≤ size }
    requires room { size ≤ vec_capacity numbers.old }
    ensures items { numbers.new.items
        ≡ numbers.old.items ++ replicate (size - length numbers.old.items) number }
    ensures room { vec_capacity numbers.new ≡ vec_capacity numbers.old }
{
    while numbers.len() < size {
        numbers.push_reserved(number);
    }
}

/// How many of the records are of pages below this one: they are the first.
#[inline(always)]
pub fn pages_below(records: &[Found], starts: &[u32], page: u32) -> usize
    requires order { IsInOrder records.now }
    requires starts { AreStarts records.now starts.now }
    ensures within { result ≤ length records.now }
    ensures first { IsPartitionPoint
        (λ f. is_below (name_of f.rec) record { page = page; version = 0 } ≡ true)
        (λ f. is_below (name_of f.rec) record { page = page; version = 0 } ≡ false)
        records.now result }
{
    match starts.get(page as usize) {
        Some(start) => *start as usize,
        None => pages_below_beyond(records, page),
    }
}

/// How many of the records are of pages below this one, where the start of the page is not known: a search among all
/// records, if the page is not behind them.
#[cold]
#[inline(never)]
fn pages_below_beyond(records: &[Found], page: u32) -> usize
    requires { IsInOrder records.now }
    ensures within { result ≤ length records.now }
    ensures first { IsPartitionPoint
        (λ f. is_below (name_of f.rec) record { page = page; version = 0 } ≡ true)
        (λ f. is_below (name_of f.rec) record { page = page; version = 0 } ≡ false)
        records.now result }
{
    let name = Link { page, version: 0 };
    if is_below_before(records, name, records.len()) {
        return records.len();
    }
    count_below(records, name)
}

/// How many of the records are of pages up to this one: they are the first.
#[inline]
pub fn pages_up_to(records: &[Found], starts: &[u32], page: u32) -> usize
    requires order { IsInOrder records.now }
    requires starts { AreStarts records.now starts.now }
    ensures within { result ≤ length records.now }
    ensures first { IsPartitionPoint (λ f. f.rec.page ≤ page) (λ f. page < f.rec.page)
        records.now result }
{
    match page.checked_add(1) {
        Some(page) => pages_below(records, starts, page),
        None => records.partition_point(|found| found.rec.page <= page),
    }
}

/// How many of the records have names below this one: they are the first.
pub fn names_below(records: &[Found], starts: &[u32], name: Link) -> usize
    requires order { IsInOrder records.now }
    requires starts { AreStarts records.now starts.now }
    ensures within { result ≤ length records.now }
    ensures first { IsPartitionPoint (λ f. is_below (name_of f.rec) name ≡ true)
        (λ f. is_below (name_of f.rec) name ≡ false) records.now result }
{
    let from = pages_below(records, starts, name.page);
    let to = pages_up_to(records, starts, name.page);
    if is_below_before(records, name, to) {
        return to;
    }
    from + count_below(&records[from..to], name)
}

/// How many of the records have names below this one, where one more than a first number, one more than a near one, and
/// the near one are tried before.
pub fn names_below_near(
    records: &[Found],
    starts: &[u32],
    name: Link,
    first: usize,
    near: usize,
) -> usize
    requires order { IsInOrder records.now }
    requires starts { AreStarts records.now starts.now }
    ensures within { result ≤ length records.now }
    ensures first { IsPartitionPoint (λ f. is_below (name_of f.rec) name ≡ true)
        (λ f. is_below (name_of f.rec) name ≡ false) records.now result }
{
    for count in [first.saturating_add(1), near.saturating_add(1), near] {
        if are_names_below(records, name, count) {
            return count;
        }
    }
    names_below(records, starts, name)
}

/// Whether the records that have names below this one are this many.
#[inline(always)]
fn are_names_below(records: &[Found], name: Link, count: usize) -> bool
    requires order { IsInOrder records.now }
    ensures within { result ≡ true → count ≤ length records.now }
    ensures first { result ≡ true → IsPartitionPoint (λ f. is_below (name_of f.rec) name ≡ true)
        (λ f. is_below (name_of f.rec) name ≡ false) records.now count }
{
    count <= records.len()
        && is_below_before(records, name, count)
        && (count == records.len() || !is_below(&records[count], name))
}

/// Whether the name of the record before this place, if there is one, is below this one.
#[inline(always)]
pub fn is_below_before(records: &[Found], name: Link, at: usize) -> bool
    requires order { IsInOrder records.now }
    requires within { at ≤ length records.now }
    ensures { result ≡ true → (k : ℕ) → k < at →
        is_below (name_of (record_at records.now k)) name ≡ true }
{
    at == 0 || is_below(&records[at - 1], name)
}

/// Whether a record's name is below this one.
#[inline(always)]
pub fn is_below(found: &Found, name: Link) -> bool
    ensures { result ≡ is_below (name_of found.now.rec) name }
{
    let rec = found.rec;
    rec.page < name.page || rec.page == name.page && rec.version < name.version
}

/// How many of the records have names below this one: they are the first.
fn count_below(records: &[Found], name: Link) -> usize
    requires { IsInOrder records.now }
    ensures within { result ≤ length records.now }
    ensures first { IsPartitionPoint (λ f. is_below (name_of f.rec) name ≡ true)
        (λ f. is_below (name_of f.rec) name ≡ false) records.now result }
{
    records.partition_point(|found| is_below(found, name))
}

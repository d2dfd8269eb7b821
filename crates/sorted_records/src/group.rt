//! The records of one page, in records that are in order of their names.
ghost use Rattle.std.specs.Prelude.{◌≡◌, ◌≢◌, ℕ, ◌<◌, [], IfSome, length, slice_index_or};
ghost use Rattle.tx_types.specs.declared.record.Rec.{Rec};
ghost use Rattle.record_list.specs.Current.{straddling_upto};
ghost use Rattle.record_list.specs.Records.{greatest};
ghost use Rattle.record_list.specs.Verdict.{straddling};
ghost use Rattle.sorted_records.specs.Minima.{AreMinima};
ghost use Rattle.sorted_records.specs.SortedRecords.{IsInOrder};
ghost use Rattle.sorted_records.specs.Starts.{AreStarts};

use crate::in_order::{names_up_to, newest};
use crate::minima::{count_below_near, last_above};
use crate::search::{pages_below, pages_up_to};
use record_list::Found;
use straddle_sets::{responsible_of, straddles};
use tx_types::Link;

/// The greatest version of a record that straddles this name, 0 for none: there is none where the page has no
/// newer version. The search may well end beside the place at which the last one ended.
#[inline(always)]
pub fn straddling(
    records: &[Found],
    starts: &[u32],
    least: &Option<Vec<u64>>,
    name: Link,
    near: &mut usize,
) -> u64
    requires order { IsInOrder records.now }
    requires starts { AreStarts records.now starts.now }
    requires minima { IfSome least.now (λ m. AreMinima records.now [] m.items) }
    ensures { result ≡ straddling records.now name }
{
    if newest(records, starts, name.page) <= name.version {
        return 0;
    }
    straddling_below_newest(records, starts, least, name, near)
}

/// The greatest version of a record that straddles this name, by the least back versions of the records, where they are
/// noted.
#[inline(never)]
fn straddling_below_newest(
    records: &[Found],
    starts: &[u32],
    least: &Option<Vec<u64>>,
    name: Link,
    near: &mut usize,
) -> u64
    requires order { IsInOrder records.now }
    requires starts { AreStarts records.now starts.now }
    requires minima { IfSome least.now (λ m. AreMinima records.now [] m.items) }
    ensures { result ≡ straddling records.now name }
{
    match least {
        Some(least) => straddling_by_minima(records, starts, least, name, near),
        None => straddling_of_few(records, starts, name),
    }
}

/// The greatest version of a record that straddles this name, 0 for none, by all records of its page.
fn straddling_of_few(records: &[Found], starts: &[u32], name: Link) -> u64
    requires order { IsInOrder records.now }
    requires starts { AreStarts records.now starts.now }
    ensures { result ≡ straddling records.now name }
{
    greatest_straddling(group(records, starts, name.page), name)
}

/// The greatest version of one of these records that straddles this name, 0 for none.
#[tactic(auto, using(record_list::proofs::OfFacts::Greatest::greatest_step))]
fn greatest_straddling(group: &[Found], name: Link) -> u64
    ensures { result ≡ straddling group.now name }
{
    let mut best = 0;
    for found in group {
        let rec = found.rec;
        if rec.page == name.page && straddles(rec, name.version) {
            best = rec.version.max(best);
        }
    }
    best
}

/// The greatest version of one of these records that straddles this name, by their least back versions.
fn straddling_by_minima(
    records: &[Found],
    starts: &[u32],
    least: &[u64],
    name: Link,
    near: &mut usize,
) -> u64
    requires order { IsInOrder records.now }
    requires starts { AreStarts records.now starts.now }
    requires minima { AreMinima records.now [] least.now }
    ensures { result ≡ straddling records.now name }
{
    let from = pages_below(records, starts, name.page);
    let end = pages_up_to(records, starts, name.page);
    let count = count_below_near(&least[from..end], name.version, *near);
    *near = count;
    last_above(records, from, count, name.version)
}

/// The greatest version, up to the bound of its page, of a record that straddles this name, 0 for none,
/// by the least back versions of the records up to their bounds, where they are noted. The search may well
/// end beside the place at which the last one ended.
pub fn straddling_up_to_bound(
    records: &[Found],
    starts: &[u32],
    tops: &[u64],
    least: &Option<Vec<u64>>,
    name: Link,
    near: &mut usize,
) -> u64
    requires order { IsInOrder records.now }
    requires starts { AreStarts records.now starts.now }
    requires minima { IfSome least.now (λ m. AreMinima records.now tops.now m.items) }
    requires bound { name.page < length tops.now }
    ensures { result
        ≡ greatest (straddling_upto (slice_index_or tops.now name.page 0) name) records.now }
{
    match least {
        Some(least) => straddling_by_bounds(records, starts, tops, least, name, near),
        None => straddling_up_to(records, starts, name, tops[name.page as usize]),
    }
}

/// The greatest version, up to the bound of its page, of a record that straddles this name, by the least back versions
/// of the records up to their bounds.
fn straddling_by_bounds(
    records: &[Found],
    starts: &[u32],
    tops: &[u64],
    least: &[u64],
    name: Link,
    near: &mut usize,
) -> u64
    requires order { IsInOrder records.now }
    requires starts { AreStarts records.now starts.now }
    requires minima { AreMinima records.now tops.now least.now }
    requires bound { name.page < length tops.now }
    ensures { result
        ≡ greatest (straddling_upto (slice_index_or tops.now name.page 0) name) records.now }
{
    let top = tops[name.page as usize];
    let from = pages_below(records, starts, name.page);
    let end = names_up_to(
        records,
        starts,
        Link {
            version: top,
            ..name
        },
    );
    let count = count_below_near(&least[from..end], name.version, *near);
    *near = count;
    last_above(records, from, count, name.version)
}

/// The greatest version, up to `top`, of a record that straddles this name, 0 for none.
pub fn straddling_up_to(records: &[Found], starts: &[u32], name: Link, top: u64) -> u64
    requires order { IsInOrder records.now }
    requires starts { AreStarts records.now starts.now }
    ensures { result ≡ greatest (straddling_upto top name) records.now }
{
    greatest_up_to(group(records, starts, name.page), name, top)
}

/// The greatest version, up to `top`, of one of these records that straddles this name, 0 for none: that of the
/// record that answers for the name.
fn greatest_up_to(group: &[Found], name: Link, top: u64) -> u64
    ensures { result ≡ greatest (straddling_upto top name) group.now }
{
    match responsible_of(group, name, top) {
        Some(at) => group[at].rec.version,
        None => 0,
    }
}

/// The records of a page: what is 0 for those of other pages has the same greatest value among them.
fn group<'a>(records: &'a [Found], starts: &[u32], page: u32) -> &'a [Found]
    requires order { IsInOrder records.now }
    requires starts { AreStarts records.now starts.now }
    ensures { (of : Rec → ℕ) → ((r : Rec) → r.page ≢ page → of r ≡ 0) →
        greatest of result.now ≡ greatest of records.now }
{
    let from = pages_below(records, starts, page);
    let to = pages_up_to(records, starts, page);
    &records[from..to]
}

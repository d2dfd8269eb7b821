//! Law 9, by the orbits of the links.
ghost use Rattle.std.specs.Prelude.{◌≡◌, ℕ, ◌<◌, ◌^◌, ◌↔◌, true, false, IsTrue, All, IfOk, length, position, slice_index_or};
ghost use Rattle.std.specs.List.{list_any};
ghost use Rattle.record_list.specs.Counts.{IsFirstReturn, KeepsCount, IsFirstMiscount};
ghost use Rattle.record_list.specs.Records.{name_of, has_name, nothing, IsScanned};
ghost use Rattle.record_list.specs.Search.{FindsFirst};
ghost use Rattle.record_list.specs.SoundList.{CopiesAgree};
ghost use Rattle.sorted_records.specs.NameGraph.{name_graph, NamesakesAgree};
ghost use Rattle.sorted_records.specs.Orbits.{AreOrbits};
ghost use Rattle.sorted_records.specs.SortedRecords.{Sorts};

use crate::{Orbit, Orbits, SortedRecords};
use record_list::{Breach, Found, breach_at};
use std::alloc::{AllocError, Global};
use tx_types::{Link, Rec};

/// The slot that law 9 names, where it is broken, of a list that keeps law 2: by its records in order of
/// their names and the orbits of their links. The list itself is gone through only where a record breaks
/// the law. Each link is followed once, and law 7 is tried by the same orbits.
pub fn counts(chart: &SortedRecords, orbits: &Orbits, list: &[Found]) -> Option<Breach>
    requires scanned { IsScanned list.now }
    requires sorts { Sorts list.now chart.now }
    requires copies { All (CopiesAgree list.now) list.now }
    requires orbits { AreOrbits (name_graph chart.now) orbits.now }
    ensures { IsFirstMiscount list.now result }
{
    if !has_count(list) {
        return None;
    }
    if all_keep_count(chart, orbits) {
        return None;
    }
    match first_miscount(chart, orbits, list) {
        None => None,
        Some(at) => Some(breach_at(list, 9, at)),
    }
}

/// Whether a record has a count.
pub fn has_count(list: &[Found]) -> bool
    ensures { (result ≡ false) ↔ All (λ f. f.rec.count ≡ 0) list.now }
{
    list.iter().any(|found| found.rec.count != 0)
}

/// Where the links of records lead, each to the first record that it names.
pub fn name_orbits(alloc: Global, chart: &SortedRecords) -> Result<Orbits, AllocError>
    ensures { IfOk result (AreOrbits (name_graph chart.now)) }
{
    Orbits::new(alloc, chart.targets())
}

/// Whether each of the sorted records keeps law 9, tried in their order.
fn all_keep_count(chart: &SortedRecords, orbits: &Orbits) -> bool
    requires namesakes { NamesakesAgree chart.now }
    requires orbits { AreOrbits (name_graph chart.now) orbits.now }
    ensures { result ≡ true → All (KeepsCount chart.now) chart.now }
{
    for at in 0..chart.records().len() {
        if !keeps_count_at(chart, orbits, at as u32) {
            return false;
        }
    }
    true
}

/// Whether the record at this place keeps law 9, where those of one name are equal. Most have no count.
#[inline(always)]
#[tactic(auto, unfolding(record_list::specs::Counts::KeepsCount))]
pub fn keeps_count_at(chart: &SortedRecords, orbits: &Orbits, at: u32) -> bool
    requires namesakes { NamesakesAgree chart.now }
    requires orbits { AreOrbits (name_graph chart.now) orbits.now }
    requires within { at < length chart.now }
    ensures { IsTrue result ↔ KeepsCount chart.now (slice_index_or chart.now at nothing) }
{
    let found = &chart.records()[at as usize];
    let target = chart.targets()[at as usize];
    let count = found.rec.count;
    if count == 0 {
        return passes_count(chart, &found.rec, target);
    }
    let own = chart.first_namesake(at);
    keeps_count(chart, orbits, found, target, Some(own))
}

/// The index of the first record that breaks law 9, in the order of the names.
fn first_miscount(chart: &SortedRecords, orbits: &Orbits, list: &[Found]) -> Option<usize>
    requires namesakes { NamesakesAgree chart.now }
    requires orbits { AreOrbits (name_graph chart.now) orbits.now }
    ensures { FindsFirst (KeepsCount chart.now) list.now result }
{
    list.iter()
        .position(|found| !keeps_count_of(chart, orbits, found))
}

/// Whether a record keeps law 9.
fn keeps_count_of(chart: &SortedRecords, orbits: &Orbits, found: &Found) -> bool
    requires namesakes { NamesakesAgree chart.now }
    requires orbits { AreOrbits (name_graph chart.now) orbits.now }
    ensures { IsTrue result ↔ KeepsCount chart.now found.now }
{
    let own = chart.find(found.rec.name());
    keeps_count(chart, orbits, found, chart.find(found.rec.next), own)
}

/// Whether a record keeps law 9, by the place that its link names and by that of its own name.
#[inline(always)]
#[tactic(auto, unfolding(record_list::specs::Counts::KeepsCount))]
fn keeps_count(
    chart: &SortedRecords,
    orbits: &Orbits,
    found: &Found,
    target: Option<u32>,
    own: Option<u32>,
) -> bool
    requires namesakes { NamesakesAgree chart.now }
    requires orbits { AreOrbits (name_graph chart.now) orbits.now }
    requires target { target ≡ position (λ f. has_name found.now.rec.next f.rec) chart.now }
    requires own { own ≡ position (λ f. has_name (name_of found.now.rec) f.rec) chart.now }
    ensures { IsTrue result ↔ KeepsCount chart.now found.now }
{
    let rec = &found.rec;
    passes_count(chart, rec, target)
        && (rec.count == 0 || returns_after(chart, orbits, rec.name(), own, rec.count))
}

/// Whether each record that this one's link names, the first at this place, has its count.
#[inline(always)]
fn passes_count(chart: &SortedRecords, rec: &Rec, target: Option<u32>) -> bool
    requires namesakes { NamesakesAgree chart.now }
    requires target { target ≡ position (λ f. has_name rec.now.next f.rec) chart.now }
    ensures { IsTrue result
        ↔ All (λ g. name_of g.rec ≡ rec.now.next → g.rec.count ≡ rec.now.count) chart.now }
{
    match target {
        None => true,
        Some(place) => chart.records()[place as usize].rec.count == rec.count,
    }
}

/// Whether links that lead back to this name, which is first had at this place, do so after this many, if
/// they do at all. A name that no record has is its own link.
#[inline(always)]
fn returns_after(
    chart: &SortedRecords,
    orbits: &Orbits,
    name: Link,
    place: Option<u32>,
    count: u32,
) -> bool
    requires orbits { AreOrbits (name_graph chart.now) orbits.now }
    requires place { place ≡ position (λ f. has_name name f.rec) chart.now }
    ensures { IsTrue result ↔ ((n : ℕ) → IsFirstReturn chart.now name n → n ≡ count) }
{
    match place {
        None => count == 1,
        Some(place) => match orbits.orbit(place) {
            Orbit::Round { length } => length == count,
            Orbit::Ends { .. } | Orbit::Aside => true,
        },
    }
}

//! Laws 3 to 7 and 9 of a list that keeps laws 1 and 2, by its records in order of their names. They are tried of the
//! records in that order, in which what is looked up for one lies near that for the next, and only where one is broken
//! of them in the order of their slots.
ghost use Rattle.std.specs.Prelude.{◌≡◌, ◌<◌, ◌↔◌, true, IsTrue, All, IfOk, IfSome, length, slice_index_or};
ghost use Rattle.tx_types.specs.declared.config.Protocol.TheVariants.{Bpcc};
ghost use Rattle.record_list.specs.Records.{IsScanned, nothing};
ghost use Rattle.record_list.specs.Search.{FindsFirst};
ghost use Rattle.record_list.specs.SoundList.{PagesExist, CopiesAgree, LinksDiffer, CurrentIsPresent, LinkHasCounted, LooseIsShown, IsFirstBreach};
ghost use Rattle.sorted_records.specs.NameGraph.{name_graph, NamesakesAgree};
ghost use Rattle.sorted_records.specs.Orbits.{AreOrbits};
ghost use Rattle.sorted_records.specs.SortedRecords.{Sorts};
ghost use Rattle.scan_recovery.specs.Searches.{KnowsOrbits, KeepsLaws, KeepLaws, AreLinkedOnce, AreAbsentTo, HasCountKept, KeepCounts, AreLawful};

use crate::endings::{first_endless, is_ending};
use crate::own_links::{AbsentLinks, are_absent_once, is_linked_once, note_absent};
use crate::shared_links::lowest_shared_link;
use record_list::{Breach, Found, breach_at};
use sorted_records::{CurrentVersions, Orbits, SortedRecords, keeps_count_at};
use std::alloc::{AllocError, Global};
use tx_types::{Link, Protocol};

/// Where the last searches ended: for the place that a link names, and for the record that is responsible for those
/// which link to a name.
#[derive(Drop)]
struct Near {
    link: usize,
    responsible: usize,
}

/// Whether the records keep laws 3 to 7 and 9, tried of each in one pass in the order of names, and of a current record
/// laws 3, 4, 5 and 9 alone. Those of one name are equal. Links that lead to no record are put in order only if they do
/// not rise in the order of names.
pub fn keep_laws(
    alloc: Global,
    standing: &CurrentVersions,
    orbits: &Option<Orbits>,
) -> Result<bool, AllocError>
    requires namesakes { NamesakesAgree standing.now.list }
    requires orbits { KnowsOrbits standing.now orbits.now }
    ensures { IfOk result (λ kept. kept ≡ true → AreLawful standing.now orbits.now) }
{
    let chart = standing.sorted_records();
    let mut linked = vec![in alloc; false; chart.records().len()]?;
    let mut absent = AbsentLinks {
        top: None,
        rise: true,
    };
    if !all_keep_laws(standing, orbits, &mut linked, &mut absent) {
        return Ok(false);
    }
    if absent.rise {
        return Ok(true);
    }
    let once = are_absent_once(alloc, chart)?;
    Ok(once)
}

/// Whether each record keeps laws 4 to 7 and 9, and has the name of those before whose links lead to the same place.
/// The links that lead to no record are noted.
fn all_keep_laws(
    standing: &CurrentVersions,
    orbits: &Option<Orbits>,
    linked: &mut Vec<bool>,
    absent: &mut AbsentLinks,
) -> bool
    requires namesakes { NamesakesAgree standing.now.list }
    requires orbits { KnowsOrbits standing.now orbits.now }
    requires size { length linked.old.items ≡ length standing.now.list }
    requires absent { AreAbsentTo standing.now.list 0 absent.old }
    ensures laws { result ≡ true → KeepLaws standing.now standing.now.list }
    ensures counts { result ≡ true → KeepCounts orbits.now standing.now.list }
    ensures links { result ≡ true → AreLinkedOnce standing.now.list (length standing.now.list) }
    ensures absent { result ≡ true → AreAbsentTo standing.now.list (length standing.now.list) absent.new }
{
    let chart = standing.sorted_records();
    let mut near = Near {
        link: 0,
        responsible: 0,
    };
    for at in 0..chart.records().len() {
        if !is_linked_once(chart, linked, at) {
            return false;
        }
        if !keeps_laws(standing, orbits, &chart.records()[at], &mut near) {
            return false;
        }
        if !keeps_count(chart, orbits, at) {
            return false;
        }
        note_absent(chart, absent, at);
    }
    true
}

/// Whether the record at a place keeps law 9. Where no orbits are known, none may have a count.
#[inline(always)]
fn keeps_count(chart: &SortedRecords, orbits: &Option<Orbits>, at: usize) -> bool
    requires namesakes { NamesakesAgree chart.now }
    requires orbits { IfSome orbits.now (AreOrbits (name_graph chart.now)) }
    requires within { at < length chart.now }
    ensures { result ≡ true → HasCountKept orbits.now chart.now (slice_index_or chart.now at nothing) }
{
    let rec = &chart.records()[at].rec;
    match orbits {
        None => rec.count == 0,
        Some(orbits) => keeps_count_at(chart, orbits, at as u32),
    }
}

/// The first of laws 3 to 7 that is broken, and the slot that it names. The list keeps laws 1 and 2. Only where it was
/// not found before that the records keep them all it is gone through law by law in the order of slots, to find the law
/// and the slot that are named.
pub fn first_breach(
    alloc: Global,
    standing: &CurrentVersions,
    orbits: &Option<Orbits>,
    list: &[Found],
    kept: bool,
) -> Result<Option<Breach>, AllocError>
    requires scanned { IsScanned list.now }
    requires sorts { Sorts list.now standing.now.list }
    requires pages { All (PagesExist standing.now.logical) list.now }
    requires copies { All (CopiesAgree list.now) list.now }
    requires orbits { KnowsOrbits standing.now orbits.now }
    requires kept { kept ≡ true → AreLawful standing.now orbits.now }
    ensures { let s = standing.now in
        IfOk result (IsFirstBreach s.protocol list.now s.logical) }
{
    if kept {
        return Ok(None);
    }
    if let Some(slot) = lowest_shared_link(alloc, list)? {
        return Ok(Some(Breach { law: 3, slot }));
    }
    Ok(first_of_slots(standing, orbits, list))
}

/// The first of laws 4 to 7 that is broken, and the slot that it names. The list keeps laws 1 to 3.
fn first_of_slots(
    standing: &CurrentVersions,
    orbits: &Option<Orbits>,
    list: &[Found],
) -> Option<Breach>
    requires scanned { IsScanned list.now }
    requires sorts { Sorts list.now standing.now.list }
    requires pages { All (PagesExist standing.now.logical) list.now }
    requires copies { All (CopiesAgree list.now) list.now }
    requires links { All (LinksDiffer list.now) list.now }
    requires orbits { KnowsOrbits standing.now orbits.now }
    ensures { let s = standing.now in IsFirstBreach s.protocol list.now s.logical result }
{
    if let Some(at) = first_without_current(standing, list) {
        return Some(breach_at(list, 4, at));
    }
    if let Some(at) = first_early_link(standing, list) {
        return Some(breach_at(list, 5, at));
    }
    if let Some(at) = first_unshown(standing, list) {
        return Some(breach_at(list, 6, at));
    }
    if let Some(at) = first_endless(standing, orbits, list) {
        return Some(breach_at(list, 7, at));
    }
    None
}

/// Whether a record keeps laws 4 to 7. What is searched for may well be near what was found for the one before.
#[inline(always)]
fn keeps_laws(
    standing: &CurrentVersions,
    orbits: &Option<Orbits>,
    found: &Found,
    near: &mut Near,
) -> bool
    requires { KnowsOrbits standing.now orbits.now }
    ensures { result ≡ true → KeepsLaws standing.now found.now }
{
    if found.rec.version == standing.current(found.rec.page) {
        return has_counted_link(standing, found);
    }
    keeps_laws_aside(standing, orbits, found, near)
}

/// Whether a record keeps laws 4 to 7 that is not current.
fn keeps_laws_aside(
    standing: &CurrentVersions,
    orbits: &Option<Orbits>,
    found: &Found,
    near: &mut Near,
) -> bool
    requires { KnowsOrbits standing.now orbits.now }
    ensures { result ≡ true → KeepsLaws standing.now found.now }
{
    has_current(standing, found)
        && has_counted(standing, found)
        && is_shown(standing, found, &mut near.responsible)
        && is_ending(standing, orbits, found, &mut near.link)
}

/// The index of the first of these records that breaks law 4: where it is the newest of its page, the
/// current version of its page is 0 or present.
fn first_without_current(standing: &CurrentVersions, records: &[Found]) -> Option<usize>
    ensures { let s = standing.now in
        FindsFirst (CurrentIsPresent s.protocol s.list s.logical) records.now result }
{
    records
        .iter()
        .position(|found| !has_current(standing, found))
}

#[inline(always)]
fn has_current(standing: &CurrentVersions, found: &Found) -> bool
    ensures { let s = standing.now in
        IsTrue result ↔ CurrentIsPresent s.protocol s.list s.logical found.now }
{
    found.rec.version == standing.current(found.rec.page) || has_other_current(standing, found)
}

/// Whether the current version of its page is 0 or present, where a record is the newest of that.
fn has_other_current(standing: &CurrentVersions, found: &Found) -> bool
    ensures { let s = standing.now in
        IsTrue result ↔ CurrentIsPresent s.protocol s.list s.logical found.now }
{
    let page = found.rec.page;
    let version = standing.current(page);
    let chart = standing.sorted_records();
    version == 0
        || found.rec.version != chart.newest(page)
        || chart.is_present(Link { page, version })
}

/// The index of the first of these records that breaks law 5: the link of a current record is not above
/// the current version there, and under Back Pointer Cyclic Commit is not straddled.
fn first_early_link(standing: &CurrentVersions, records: &[Found]) -> Option<usize>
    ensures { let s = standing.now in
        FindsFirst (LinkHasCounted s.protocol s.list s.logical) records.now result }
{
    records
        .iter()
        .position(|found| !has_counted(standing, found))
}

#[inline(always)]
#[tactic(auto, unfolding(record_list::specs::SoundList::LinkHasCounted))]
fn has_counted(standing: &CurrentVersions, found: &Found) -> bool
    ensures { let s = standing.now in
        IsTrue result ↔ LinkHasCounted s.protocol s.list s.logical found.now }
{
    let rec = found.rec;
    let is_current = rec.version == standing.current(rec.page);
    let is_counted = rec.next.version <= standing.current(rec.next.page);
    match standing.protocol() {
        Protocol::Scc => !is_current || is_counted,
        Protocol::Bpcc => {
            !is_current || is_counted && standing.sorted_records().straddling(rec.next) == 0
        }
    }
}

/// Whether the link of a record is not above the current version there, and under Back Pointer Cyclic Commit is not
/// straddled, as law 5 wants it of a current record.
#[inline(always)]
#[tactic(auto, unfolding(record_list::specs::SoundList::LinkHasCounted))]
fn has_counted_link(standing: &CurrentVersions, found: &Found) -> bool
    ensures { let s = standing.now in
        result ≡ true → LinkHasCounted s.protocol s.list s.logical found.now }
{
    let next = found.rec.next;
    if next.version > standing.current(next.page) {
        return false;
    }
    match standing.protocol() {
        Protocol::Scc => true,
        Protocol::Bpcc => standing.sorted_records().straddling(next) == 0,
    }
}

/// The index of the first of these records that breaks law 6, which speaks of Back Pointer Cyclic Commit
/// alone: where it is loose, its back version is the current one of its page, its link is not to a current
/// record, and where its link is below the current version there, a record is responsible for it.
fn first_unshown(standing: &CurrentVersions, records: &[Found]) -> Option<usize>
    ensures { let s = standing.now in
        FindsFirst (LooseIsShown s.protocol s.list s.logical) records.now result }
{
    records
        .iter()
        .position(|found| !is_shown(standing, found, &mut 0))
}

#[inline(always)]
#[tactic(auto, unfolding(record_list::specs::SoundList::LooseIsShown))]
fn is_shown(standing: &CurrentVersions, found: &Found, near: &mut usize) -> bool
    ensures { let s = standing.now in
        IsTrue result ↔ LooseIsShown s.protocol s.list s.logical found.now }
{
    match standing.protocol() {
        Protocol::Scc => true,
        Protocol::Bpcc => is_shown_by_back(standing, found, near),
    }
}

#[tactic(auto, unfolding(record_list::specs::SoundList::LooseIsShown))]
fn is_shown_by_back(standing: &CurrentVersions, found: &Found, near: &mut usize) -> bool
    requires { standing.now.protocol ≡ Bpcc }
    ensures { IsTrue result ↔ LooseIsShown Bpcc standing.now.list standing.now.logical found.now }
{
    let rec = found.rec;
    let current = standing.current(rec.page);
    if rec.version <= current {
        return true;
    }
    let linked = standing.current(rec.next.page);
    rec.back == current
        && rec.next.version != linked
        && (rec.next.version > linked || standing.responsible_near(rec.next, near) != 0)
}

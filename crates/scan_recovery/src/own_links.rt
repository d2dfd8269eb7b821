//! Whether each link is that of one name, by the places to which the links of sorted records lead: those of one place
//! have one link. Only links that lead to no record may have to be put in order.

ghost use Rattle.std.specs.Prelude.{◌≡◌, ℕ, ◌+◌, ◌<◌, true, false, length, slice_index_or, slice_set, Some, None, IsNone, IfOk, Contains};
ghost use Rattle.record_list.specs.Records.{name_of, record_at};
ghost use Rattle.sorted_records.specs.NameGraph.{name_graph};
ghost use Rattle.scan_recovery.specs.Searches.{HasAbsent, AreTargetsMarked, AreLinkedOnce, AreAbsentOnce, AreAbsentTo, IsAsBefore, NotesLink, is_above};

use crate::held::mark;
use crate::shared_links::lowest_sharer;
use record_list::Found;
use sorted_records::{SortedRecords, sort_by_link};
use std::alloc::{AllocError, Global};
use tx_types::Link;

/// The links of the records so far that lead to no record: the last of them, and whether they rise.
#[derive(Clone, Copy)]
pub struct AbsentLinks {
    pub top: Option<Link>,
    pub rise: bool,
}

/// Whether the record at a place has the name of those before whose links lead to the same place. That place is marked.
/// If it is marked already, the record before is looked at, since copies stand side by side.
#[inline(always)]
pub fn is_linked_once(chart: &SortedRecords, linked: &mut Vec<bool>, at: usize) -> bool
    requires within { at < length chart.now }
    requires size { length linked.old.items ≡ length chart.now }
    requires marked { AreTargetsMarked chart.now linked.old.items at }
    requires once { AreLinkedOnce chart.now at }
    ensures size { length linked.new.items ≡ length chart.now }
    ensures marked { result ≡ true → AreTargetsMarked chart.now linked.new.items (at + 1) }
    ensures once { result ≡ true → AreLinkedOnce chart.now (at + 1) }
{
    match chart.targets()[at] {
        None => true,
        Some(place) => links_there(chart.records(), chart.targets(), linked, place, at),
    }
}

/// Notes the link of the record at a place, if it leads to no record.
#[inline(always)]
pub fn note_absent(chart: &SortedRecords, absent: &mut AbsentLinks, at: usize)
    requires within { at < length chart.now }
    requires before { AreAbsentTo chart.now at absent.old }
    ensures { AreAbsentTo chart.now (at + 1) absent.new }
{
    if chart.targets()[at].is_none() {
        let link = chart.records()[at].rec.next;
        if !is_above(absent.top, link) {
            absent.rise = false;
        }
        absent.top = Some(link);
    }
}

/// Whether any two records with one link, which leads to no record, have one name. These links are put in order.
#[cold]
pub fn are_absent_once(alloc: Global, chart: &SortedRecords) -> Result<bool, AllocError>
    ensures { IfOk result (λ once. once ≡ true → AreAbsentOnce chart.now (length chart.now)) }
{
    let mut absent = with_absent_links(alloc, chart)?;
    sort_by_link(&mut absent)?;
    match lowest_sharer(&absent) {
        None => Ok(true),
        Some(_) => Ok(false),
    }
}

/// Notes that the link of a record leads to a place. Where one is noted already, whether it is that of the record
/// before, and that has its name.
#[inline(always)]
fn links_there(
    records: &[Found],
    targets: &[Option<u32>],
    linked: &mut Vec<bool>,
    place: u32,
    at: usize,
) -> bool
    requires at { at < length records.now }
    requires targets { length targets.now ≡ length records.now }
    requires place { place < length linked.old.items }
    ensures { let was = slice_index_or linked.old.items place false in
        NotesLink records.now targets.now linked.old.items linked.new.items place at was result }
{
    if linked[place as usize] {
        return is_as_before(records, targets, place, at);
    }
    mark(linked, place);
    true
}

/// Whether the record before has the name of this one, and leads to this place.
fn is_as_before(records: &[Found], targets: &[Option<u32>], place: u32, at: usize) -> bool
    requires at { at < length records.now }
    requires targets { length targets.now ≡ length records.now }
    ensures { result ≡ true → IsAsBefore records.now targets.now place at }
{
    if at == 0 || !records[at - 1].rec.has_name(records[at].rec.name()) {
        return false;
    }
    match targets[at - 1] {
        Some(before) => before == place,
        None => false,
    }
}

/// Whether a link is above another one, if there is one.
#[inline(always)]
fn is_above(top: Option<Link>, link: Link) -> bool
    ensures { result ≡ is_above top link }
{
    match top {
        None => true,
        Some(top) => { top.page < link.page || top.page == link.page && top.version < link.version }
    }
}

/// The records of which the link leads to no record.
fn with_absent_links(alloc: Global, chart: &SortedRecords) -> Result<Vec<Found>, AllocError>
    ensures { IfOk result (λ absent. HasAbsent chart.now (length chart.now) absent.items) }
{
    let records = chart.records();
    let targets = chart.targets();
    let mut absent = Vec::new(alloc);
    for at in 0..records.len() {
        if targets[at].is_none() {
            absent.push(records[at])?;
        }
    }
    Ok(absent)
}

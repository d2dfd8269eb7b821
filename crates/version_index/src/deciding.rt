ghost use Rattle.std.specs.Prelude.{◌≡◌, ◌+◌, ◌≤◌, ◌<◌, ℕ, All, length};
ghost use Rattle.tx_types.specs.Config.{slots_of};
ghost use Rattle.record_list.specs.Current.{IsLoose};
ghost use Rattle.record_list.specs.Records.{record_at};
ghost use Rattle.record_list.specs.SoundList.{PagesExist};
ghost use Rattle.judged_records.specs.Derived.{name_at, answerer, is_waiting};
ghost use Rattle.judged_records.specs.Numbered.{awaited};
ghost use Rattle.slot_tables.specs.TablesState.{TablesState};
ghost use Rattle.version_index.specs.Filling.{derived_by, number_by, AreNumbered, ArePut, AreUndecided, AreDecided};

use crate::placing::place_records;
use slot_tables::{SlotUse, TablesBuilder};
use sorted_records::CurrentVersions;
use tx_types::{Link, Protocol, Rec};

/// The number of the record that answers for a record, if one does, and the page that it waits for, if it waits.
#[derive(Clone, Copy)]
struct Decided {
    answerer: Option<u32>,
    awaited: Option<u32>,
}

/// Where the last searches ended: for the record that answers for one, and for its place.
#[derive(Drop)]
struct Near {
    answerer: usize,
    place: usize,
}

/// Puts each record where it stands, and decides of it. Where no two records have one number both are done in one pass.
/// Else all are put first, the last before the others, as each then goes in front of its copies.
pub fn place_and_decide(
    tables: &mut TablesBuilder,
    logical: u32,
    standing: &CurrentVersions,
    numbers: &[u32],
)
    requires logical { standing.now.logical ≡ logical }
    requires numbered { AreNumbered standing.now.list numbers.now tables.old }
    requires whole { length numbers.now ≡ length standing.now.list }
    requires pages { length tables.old.pages ≡ logical }
    requires exist { All (PagesExist logical) standing.now.list }
    requires within { All (λ f. f.slot.0 < slots_of tables.old.shape) standing.now.list }
    requires undecided { AreUndecided tables.old }
    ensures put { ArePut standing.now.list numbers.now tables.old.slots (length standing.now.list) tables.new.slots }
    ensures decided { AreDecided standing.now.protocol standing.now.list numbers.now logical
        (record tables.old { slots = tables.new.slots }) tables.new (length standing.now.list) }
{
    if share_numbers(numbers) {
        place_records(tables, standing.sorted_records().records(), numbers);
        decide_records(tables, logical, standing, numbers);
        return;
    }
    place_and_decide_each(tables, logical, standing, numbers);
}

/// Whether two records have one number, as the last number tells where they are given from 0 on. Nothing but speed
/// rests on it.
fn share_numbers(numbers: &[u32]) -> bool {
    match numbers.last() {
        None => false,
        Some(last) => (*last as usize) + 1 < numbers.len(),
    }
}

/// Puts each record where it stands, and decides of it. This goes through the copies of a record that come before it.
fn place_and_decide_each(
    tables: &mut TablesBuilder,
    logical: u32,
    standing: &CurrentVersions,
    numbers: &[u32],
)
    requires logical { standing.now.logical ≡ logical }
    requires numbered { AreNumbered standing.now.list numbers.now tables.old }
    requires whole { length numbers.now ≡ length standing.now.list }
    requires pages { length tables.old.pages ≡ logical }
    requires exist { All (PagesExist logical) standing.now.list }
    requires within { All (λ f. f.slot.0 < slots_of tables.old.shape) standing.now.list }
    requires undecided { AreUndecided tables.old }
    ensures put { ArePut standing.now.list numbers.now tables.old.slots (length standing.now.list) tables.new.slots }
    ensures decided { AreDecided standing.now.protocol standing.now.list numbers.now logical
        (record tables.old { slots = tables.new.slots }) tables.new (length standing.now.list) }
{
    // For the proof: the sizes of the tables.
    let _ = tables.shape();
    let records = standing.sorted_records().records();
    let mut near = Near {
        answerer: 0,
        place: 0,
    };
    for at in 0..records.len() {
        tables.set_slot(records[at].slot, SlotUse::Holds(numbers[at]));
        decide_record(tables, logical, standing, numbers, at, &mut near);
    }
}

/// Sets which record of each page is current, and for each other record which one answers for it, and whether it waits.
fn decide_records(
    tables: &mut TablesBuilder,
    logical: u32,
    standing: &CurrentVersions,
    numbers: &[u32],
)
    requires logical { standing.now.logical ≡ logical }
    requires numbered { AreNumbered standing.now.list numbers.now tables.old }
    requires whole { length numbers.now ≡ length standing.now.list }
    requires pages { length tables.old.pages ≡ logical }
    requires exist { All (PagesExist logical) standing.now.list }
    requires undecided { AreUndecided tables.old }
    ensures { AreDecided standing.now.protocol standing.now.list numbers.now logical
        tables.old tables.new (length standing.now.list) }
{
    let mut near = Near {
        answerer: 0,
        place: 0,
    };
    for at in 0..standing.sorted_records().records().len() {
        decide_record(tables, logical, standing, numbers, at, &mut near);
    }
}

/// Decides of the record at a place, as it is stale, loose or current. What is decided of those before it stays.
#[inline(always)]
fn decide_record(
    tables: &mut TablesBuilder,
    logical: u32,
    standing: &CurrentVersions,
    numbers: &[u32],
    at: usize,
    near: &mut Near,
)
    requires logical { standing.now.logical ≡ logical }
    requires numbered { AreNumbered standing.now.list numbers.now tables.old }
    requires whole { length numbers.now ≡ length standing.now.list }
    requires pages { length tables.old.pages ≡ logical }
    requires exist { All (PagesExist logical) standing.now.list }
    requires within { at < length standing.now.list }
    ensures { (k : TablesState) →
        AreDecided standing.now.protocol standing.now.list numbers.now logical k tables.old at →
        AreDecided standing.now.protocol standing.now.list numbers.now logical k tables.new (at + 1) }
{
    // For the proof: the sizes of the tables.
    let _ = tables.shape();
    let rec = standing.sorted_records().records()[at].rec;
    let current = standing.current(rec.page);
    if rec.version < current {
        return;
    }
    if current < rec.version {
        decide_loose(tables, logical, standing, numbers, at, near);
        return;
    }
    if current == 0 {
        return;
    }
    tables.set_current(rec.page, Some(numbers[at]));
}

/// Decides which record answers for the loose one at a place, and for which page it waits. It is a call of its own, as
/// few records are loose.
#[inline(never)]
fn decide_loose(
    tables: &mut TablesBuilder,
    logical: u32,
    standing: &CurrentVersions,
    numbers: &[u32],
    at: usize,
    near: &mut Near,
)
    requires logical { standing.now.logical ≡ logical }
    requires numbered { AreNumbered standing.now.list numbers.now tables.old }
    requires whole { length numbers.now ≡ length standing.now.list }
    requires pages { length tables.old.pages ≡ logical }
    requires exist { All (PagesExist logical) standing.now.list }
    requires within { at < length standing.now.list }
    requires loose { IsLoose standing.now.protocol standing.now.list logical (record_at standing.now.list at) }
    ensures { (k : TablesState) →
        AreDecided standing.now.protocol standing.now.list numbers.now logical k tables.old at →
        AreDecided standing.now.protocol standing.now.list numbers.now logical k tables.new (at + 1) }
{
    // For the proof: the sizes of the tables.
    let _ = tables.shape();
    let rec = standing.sorted_records().records()[at].rec;
    let decided = decide(standing, numbers, rec, near);
    tables.set_answerer(numbers[at], decided.answerer);
    tables.set_waits(numbers[at], decided.awaited);
}

/// Which record answers for a record, and for which page it waits: none where it is not loose.
#[inline(always)]
fn decide(standing: &CurrentVersions, numbers: &[u32], rec: Rec, near: &mut Near) -> Decided
    requires { length numbers.now ≡ length standing.now.list }
    ensures answerer { let s = standing.now in
        result.answerer ≡ number_by s.list numbers.now (answerer s.protocol s.list s.logical rec) }
    ensures awaited { let s = standing.now in
        result.awaited ≡ awaited (derived_by s.protocol s.list s.logical) rec }
{
    let name = answerer(standing, rec, &mut near.answerer);
    Decided {
        answerer: number_by(standing, numbers, name, &mut near.place),
        awaited: awaited_page(standing, rec),
    }
}

/// The name of a page and a version, nothing for version 0.
fn name_at(page: u32, version: u64) -> Option<Link>
    ensures { result ≡ name_at page version }
{
    if version > 0 {
        Some(Link { page, version })
    } else {
        None
    }
}

/// The number at the place of a name, if there is a name that has a place. It may well be near the one before.
fn number_by(
    standing: &CurrentVersions,
    numbers: &[u32],
    name: Option<Link>,
    near: &mut usize,
) -> Option<u32>
    requires { length numbers.now ≡ length standing.now.list }
    ensures { result ≡ number_by standing.now.list numbers.now name }
{
    match name {
        None => None,
        Some(name) => match standing.sorted_records().find_near(name, near) {
            None => None,
            Some(place) => Some(numbers[place as usize]),
        },
    }
}

/// The name of the record that answers for a record, if one does.
fn answerer(standing: &CurrentVersions, rec: Rec, near: &mut usize) -> Option<Link>
    ensures { result ≡ answerer standing.now.protocol standing.now.list standing.now.logical rec }
{
    match standing.protocol() {
        Protocol::Scc => None,
        Protocol::Bpcc => {
            if standing.is_loose(rec) {
                name_at(rec.next.page, standing.responsible_near(rec.next, near))
            } else {
                None
            }
        }
    }
}

/// The page that a record waits for, if it waits.
fn awaited_page(standing: &CurrentVersions, rec: Rec) -> Option<u32>
    ensures { result ≡ awaited
        (derived_by standing.now.protocol standing.now.list standing.now.logical) rec }
{
    if is_waiting(standing, rec) {
        Some(rec.next.page)
    } else {
        None
    }
}

/// Whether a record waits.
fn is_waiting(standing: &CurrentVersions, rec: Rec) -> bool
    ensures { result ≡ is_waiting standing.now.protocol standing.now.list standing.now.logical rec }
{
    let loose = standing.is_loose(rec);
    match standing.protocol() {
        Protocol::Scc => loose,
        Protocol::Bpcc => loose && standing.current(rec.next.page) < rec.next.version,
    }
}

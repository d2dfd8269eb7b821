ghost use Rattle.std.specs.Prelude.{◌≡◌, ◌<◌, ◌≤◌, ℕ, List, length, IfSome};
ghost use Rattle.tx_types.specs.Config.{slots_of};
ghost use Rattle.tx_types.specs.declared.config.Config.{Config};
ghost use Rattle.tx_types.specs.declared.config.Protocol.{Protocol};
ghost use Rattle.slot_tables.specs.TablesState.{IsTablesState, number_at};
ghost use Rattle.judged_records.specs.DerivedChanges.{completes};
ghost use Rattle.version_index.specs.Committing.{LinksExist, newest_with_name, with_version, OnlyDerives, AreReleased, IsTaken, IsAnswered, MayComplete, CommitsRound, ResolvesRound, DerivesWhole, CommitsIfComplete};
ghost use Rattle.version_index.specs.Tables.{discard_at, noted_by, version_at};
ghost use Rattle.version_index.specs.Written.{pages_written};

use crate::counting::{fills, is_filled, set_current};
use crate::losing::release;
use slot_tables::Tables;
use tx_types::{Link, Protocol, Rec};

/// The version of the record of a number, if there is a number, else 0.
fn version_of(tables: &Tables, number: Option<u32>) -> u64
    requires { IfSome number (λ x. x < slots_of tables.now.shape) }
    ensures { result ≡ version_at tables.now number }
{
    match number {
        None => 0,
        Some(number) => match tables.record(number) {
            None => 0,
            Some(rec) => rec.version,
        },
    }
}

/// The current version of a page, 0 for none.
pub fn current_version(tables: &Tables, page: u32) -> u64
    requires { page < length tables.now.pages }
    ensures { result ≡ version_at tables.now (number_at tables.now.current page) }
{
    version_of(tables, tables.current(page))
}

/// Whether the current record of a page discards it.
pub fn discards_now(tables: &Tables, page: u32) -> bool
    requires { page < length tables.now.pages }
    ensures { result ≡ discard_at tables.now (number_at tables.now.current page) }
{
    match tables.current(page) {
        None => false,
        Some(number) => match tables.record(number) {
            None => false,
            Some(rec) => rec.discard,
        },
    }
}

/// The newest record of a page, if it has this version.
fn newest_with_name(tables: &Tables, name: Link) -> Option<Rec>
    requires { name.page < length tables.now.pages }
    ensures { result ≡ newest_with_name tables.now name }
{
    match tables.newest(name.page) {
        None => None,
        Some(number) => match tables.record(number) {
            None => None,
            Some(rec) => with_version(name.version, rec),
        },
    }
}

/// A record, if it has this version.
fn with_version(version: u64, rec: Rec) -> Option<Rec>
    ensures { result ≡ with_version version rec }
{
    if rec.version == version {
        Some(rec)
    } else {
        None
    }
}

/// Whether a record completes its cycle: its links lead back to it over the newest records of their pages.
fn completes(tables: &Tables, logical: u32, rec: Rec) -> bool
    requires links { LinksExist tables.now }
    requires next { rec.next.page < length tables.now.pages }
    ensures { (protocol : Protocol) (its : Config) (m : List ℕ) → MayComplete protocol its m tables.now rec →
        its.logical ≡ logical → result ≡ completes (noted_by its m tables.now) rec }
{
    // For the proof: the sizes of the tables.
    let _ = tables.shape();
    let mut link = rec.next;
    for _ in 0..logical {
        match newest_with_name(tables, link) {
            None => return false,
            Some(next) => {
                if next.has_name(rec.name()) {
                    return true;
                }
                link = next.next;
            }
        }
    }
    false
}

/// Makes the records of a cycle current, where this record completes it.
#[inline(always)]
pub fn commit_if_complete(
    tables: &mut Tables,
    written: &mut u32,
    logical: u32,
    protocol: Protocol,
    rec: Rec,
)
    requires links { LinksExist tables.old }
    requires page { rec.page < length tables.old.pages }
    requires next { rec.next.page < length tables.old.pages }
    requires few { length tables.old.pages ≤ 65536 }
    requires written { written.old ≡ pages_written tables.old }
    ensures kept { IsTablesState tables.old }
    ensures judges { OnlyDerives tables.old tables.new }
    ensures settled { CommitsIfComplete protocol tables.old tables.new rec logical }
    ensures written { written.new ≡ pages_written tables.new }
{
    // For the proof: the sizes of the tables.
    let _ = tables.shape();
    if !completes(tables, logical, rec) {
        return;
    }
    commit_cycle(tables, written, logical, protocol, rec.name());
}

/// Makes the records of a whole cycle current. Under Back Pointer Cyclic Commit they then answer for the
/// records that wait for their pages.
#[inline(never)]
fn commit_cycle(
    tables: &mut Tables,
    written: &mut u32,
    logical: u32,
    protocol: Protocol,
    start: Link,
)
    requires links { LinksExist tables.old }
    requires page { start.page < length tables.old.pages }
    requires few { length tables.old.pages ≤ 65536 }
    requires written { written.old ≡ pages_written tables.old }
    ensures judges { OnlyDerives tables.old tables.new }
    ensures whole { DerivesWhole protocol tables.old tables.new start logical }
    ensures written { written.new ≡ pages_written tables.new }
{
    make_all_current(tables, written, logical, start);
    match protocol {
        Protocol::Scc => {}
        Protocol::Bpcc => resolve_all(tables, logical, start),
    }
}

/// Makes each record of the cycle of this one current.
fn make_all_current(tables: &mut Tables, written: &mut u32, logical: u32, start: Link)
    requires links { LinksExist tables.old }
    requires page { start.page < length tables.old.pages }
    requires few { length tables.old.pages ≤ 65536 }
    requires written { written.old ≡ pages_written tables.old }
    ensures judges { OnlyDerives tables.old tables.new }
    ensures takes { CommitsRound tables.old tables.new start logical }
    ensures written { written.new ≡ pages_written tables.new }
{
    let mut link = start;
    for _ in 0..logical {
        let newest = newest_with_name(tables, link);
        make_newest_current(tables, written, link.page);
        match newest {
            None => return,
            Some(rec) => {
                if rec.next.page == start.page {
                    return;
                }
                link = rec.next;
            }
        }
    }
}

/// Lets each record of the cycle of this one answer.
fn resolve_all(tables: &mut Tables, logical: u32, start: Link)
    requires links { LinksExist tables.old }
    requires page { start.page < length tables.old.pages }
    ensures judges { OnlyDerives tables.old tables.new }
    ensures current { tables.new.current ≡ tables.old.current }
    ensures answers { ResolvesRound tables.old tables.new start logical }
{
    let mut link = start;
    for _ in 0..logical {
        resolve_waiting(tables, link.page);
        match newest_with_name(tables, link) {
            None => return,
            Some(rec) => {
                if rec.next.page == start.page {
                    return;
                }
                link = rec.next;
            }
        }
    }
}

/// Makes the newest record of a page current. The records above the one that was current wait no more,
/// and none answers for them.
fn make_newest_current(tables: &mut Tables, written: &mut u32, page: u32)
    requires page { page < length tables.old.pages }
    requires few { length tables.old.pages ≤ 65536 }
    requires written { written.old ≡ pages_written tables.old }
    ensures judges { OnlyDerives tables.old tables.new }
    ensures taken { IsTaken tables.old tables.new page }
    ensures written { written.new ≡ pages_written tables.new }
{
    // For the proof: the sizes of the tables.
    let _ = tables.shape();
    let current = current_version(tables, page);
    let before = is_filled(tables, page);
    let newest = tables.newest(page);
    let after = fills(tables, newest);
    release_above(tables, page, current);
    set_current(tables, written, page, newest, before, after);
}

/// Releases the records of a page above a version: they wait no more, and none answers for them.
fn release_above(tables: &mut Tables, page: u32, version: u64)
    requires { page < length tables.old.pages }
    ensures { AreReleased tables.old tables.new page version }
{
    // For the proof: the sizes of the tables.
    let _ = tables.shape();
    let mut next = tables.newest(page);
    while let Some(number) = next {
        if version_of(tables, next) <= version {
            return;
        }
        release(tables, number);
        next = tables.older(number);
    }
}

/// Lets the newest record of a page answer for the records that wait for the page, which wait no more.
fn resolve_waiting(tables: &mut Tables, page: u32)
    requires { page < length tables.old.pages }
    ensures judges { OnlyDerives tables.old tables.new }
    ensures answered { IsAnswered tables.old tables.new page }
{
    // For the proof: the sizes of the tables.
    let _ = tables.shape();
    let newest = tables.newest(page);
    while let Some(number) = tables.waiting(page) {
        tables.set_answerer(number, newest);
        tables.set_waits(number, None);
    }
}

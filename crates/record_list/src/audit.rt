ghost use Rattle.std.specs.Prelude.{◌≡◌, ◌<◌, ◌↔◌, IsTrue, length, slice_index_or};
ghost use Rattle.record_list.specs.Current.{is_loose};
ghost use Rattle.record_list.specs.Records.{mentions_below, nothing};
ghost use Rattle.record_list.specs.Search.{FindsFirst};
ghost use Rattle.record_list.specs.SoundList.{PagesExist, CopiesAgree, LinksDiffer, CurrentIsPresent, LinkHasCounted};

use crate::{Breach, Found, current_version, newest, present, straddling};
use tx_types::{Link, Protocol, Rec};

/// The index of the first record that breaks law 1: its page and its link's page are below `logical`.
pub fn first_misplaced(list: &[Found], logical: u32) -> Option<usize>
    ensures { FindsFirst (PagesExist logical) list.now result }
{
    list.iter().position(|found| found.rec.page >= logical || found.rec.next.page >= logical)
}

/// The index of the first record that breaks law 2: it is equal to each earlier record of its name.
pub fn first_contradiction(list: &[Found]) -> Option<usize>
    ensures { FindsFirst (CopiesAgree list.now) list.now result }
{
    list.iter().position(|found| !agrees(list, found))
}

fn agrees(list: &[Found], found: &Found) -> bool
    ensures { IsTrue result ↔ CopiesAgree list.now found.now }
{
    list.iter().all(|other| {
        other.slot.0 >= found.slot.0
            || !other.rec.has_name(found.rec.name())
            || other.rec == found.rec
    })
}

/// The index of the first record that breaks law 3: an earlier record with its link has its name.
pub fn first_shared_link(list: &[Found]) -> Option<usize>
    ensures { FindsFirst (LinksDiffer list.now) list.now result }
{
    list.iter().position(|found| !differs(list, found))
}

fn differs(list: &[Found], found: &Found) -> bool
    ensures { IsTrue result ↔ LinksDiffer list.now found.now }
{
    list.iter().all(|other| {
        other.slot.0 >= found.slot.0
            || other.rec.next != found.rec.next
            || other.rec.has_name(found.rec.name())
    })
}

/// The index of the first record that breaks law 4: the current version of its page is 0 or present,
/// where the record is the newest of its page.
pub fn first_without_current(protocol: Protocol, list: &[Found], logical: u32) -> Option<usize>
    ensures { FindsFirst (CurrentIsPresent protocol list.now logical) list.now result }
{
    list.iter()
        .position(|found| !has_current(protocol, list, logical, found))
}

fn has_current(protocol: Protocol, list: &[Found], logical: u32, found: &Found) -> bool
    ensures { IsTrue result ↔ CurrentIsPresent protocol list.now logical found.now }
{
    let page = found.rec.page;
    let version = current_version(protocol, list, logical, page);
    found.rec.version != newest(list, page) || version == 0 || present(list, Link { page, version })
}

/// The index of the first record that breaks law 5: the link of a current record is not above the
/// current version there, and under Back Pointer Cyclic Commit is not straddled.
pub fn first_early_link(protocol: Protocol, list: &[Found], logical: u32) -> Option<usize>
    ensures { FindsFirst (LinkHasCounted protocol list.now logical) list.now result }
{
    list.iter()
        .position(|found| !has_counted(protocol, list, logical, found))
}

#[tactic(auto, unfolding(crate::specs::SoundList::LinkHasCounted))]
fn has_counted(protocol: Protocol, list: &[Found], logical: u32, found: &Found) -> bool
    ensures { IsTrue result ↔ LinkHasCounted protocol list.now logical found.now }
{
    let rec = &found.rec;
    let is_current = rec.version == current_version(protocol, list, logical, rec.page);
    let is_counted = rec.next.version <= current_version(protocol, list, logical, rec.next.page);
    match protocol {
        Protocol::Scc => !is_current || is_counted,
        Protocol::Bpcc => !is_current || (is_counted && straddling(list, rec.next) == 0),
    }
}

/// Whether a record's version is above the current one of its page.
pub fn is_loose(protocol: Protocol, list: &[Found], logical: u32, rec: Rec) -> bool
    ensures { result ≡ is_loose protocol list.now logical rec }
{
    rec.version > current_version(protocol, list, logical, rec.page)
}

/// Whether a record mentions a page, as its own or as its link's, at a version below this one.
pub fn mentions_below(rec: Rec, page: u32, below: u64) -> bool
    ensures { result ≡ mentions_below page below rec }
{
    (rec.page == page && rec.version < below) || (rec.next.page == page && rec.next.version < below)
}

/// The breach of a law by the record at this index.
pub fn breach_at(list: &[Found], law: u8, at: usize) -> Breach
    requires { at < length list.now }
    ensures { result ≡ record { law = law; slot = (slice_index_or list.now at nothing).slot } }
{
    Breach {
        law,
        slot: list[at].slot,
    }
}

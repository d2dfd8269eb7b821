//! Law 3, by the records in order of their links.
ghost use Rattle.std.specs.Prelude.{◌≡◌, IfOk, length};
ghost use Rattle.record_list.specs.Records.{IsScanned};
ghost use Rattle.record_list.specs.SoundList.{LinksDiffer};
ghost use Rattle.scan_recovery.specs.Searches.{FindsLowest, IsLowestSharer, share_link};

use record_list::Found;
use sorted_records::sort_by_link;
use std::alloc::{AllocError, Global};
use tx_types::{Rec, Slot};

/// The lowest slot whose record breaks law 3: a record in a lower slot has its link and another name.
pub fn lowest_shared_link(alloc: Global, list: &[Found]) -> Result<Option<Slot>, AllocError>
    requires { IsScanned list.now }
    ensures { IfOk result (FindsLowest (LinksDiffer list.now) list.now) }
{
    let mut by_link = list.to_vec(alloc)?;
    sort_by_link(&mut by_link)?;
    Ok(lowest_sharer(&by_link))
}

/// The lowest slot whose record has the link of the record before it, and another name.
pub fn lowest_sharer(by_link: &[Found]) -> Option<Slot>
    ensures { IsLowestSharer by_link.now (length by_link.now) result }
{
    let mut lowest = None;
    for at in 1..by_link.len() {
        let found = by_link[at];
        if share_link(&by_link[at - 1].rec, &found.rec) {
            lowest = Slot::lower(lowest, Some(found.slot));
        }
    }
    lowest
}

/// Whether two records have one link and two names.
fn share_link(rec: &Rec, other: &Rec) -> bool
    ensures { result ≡ share_link rec.now other.now }
{
    rec.next.page == other.next.page
        && rec.next.version == other.next.version
        && !rec.has_name(other.name())
}

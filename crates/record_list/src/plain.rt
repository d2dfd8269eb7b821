#![tactic(auto, using(crate::proofs::OfFacts::Greatest::greatest_step))]

ghost use Rattle.std.specs.Prelude.{◌≡◌};
ghost use Rattle.record_list.specs.Records.{newest, mention, next_older, is_present, mention_at};

use crate::Found;
use tx_types::{Link, Rec};

/// The greatest version of a page among the records, 0 for none.
pub fn newest(list: &[Found], page: u32) -> u64
    ensures { result ≡ newest list.now page }
{
    let mut best = 0;
    for found in list {
        if found.rec.page == page && found.rec.version > best {
            best = found.rec.version;
        }
    }
    best
}

/// The greatest version at which a record mentions a page, as its own or as its link's, 0 for none.
pub fn mention(list: &[Found], page: u32) -> u64
    ensures { result ≡ mention list.now page }
{
    let mut best = 0;
    for found in list {
        best = best.max(mention_at(&found.rec, page));
    }
    best
}

/// The greatest version at which this record mentions the page, 0 where it does not.
fn mention_at(rec: &Rec, page: u32) -> u64
    ensures { result ≡ mention_at page rec.now }
{
    let own = if rec.page == page { rec.version } else { 0 };
    let linked = if rec.next.page == page {
        rec.next.version
    } else {
        0
    };
    own.max(linked)
}

/// The greatest version of a page below a version, 0 for none.
pub fn next_older(list: &[Found], page: u32, below: u64) -> u64
    ensures { result ≡ next_older list.now page below }
{
    let mut best = 0;
    for found in list {
        if found.rec.page == page && found.rec.version < below && found.rec.version > best {
            best = found.rec.version;
        }
    }
    best
}

/// Whether some record has this name.
pub fn present(list: &[Found], name: Link) -> bool
    ensures { result ≡ is_present list.now name }
{
    list.iter().any(|found| found.rec.has_name(name))
}

ghost use Rattle.std.specs.Prelude.{◌≡◌, ℕ, ◌↔◌, IsTrue, All, MatchOption};
ghost use Rattle.record_list.specs.Counts.{IsFirstReturn, KeepsCount, IsFirstMiscount};
ghost use Rattle.record_list.specs.Records.{name_of, IsScanned};
ghost use Rattle.record_list.specs.Search.{FindsFirst};

use crate::{Breach, Found, breach_at, link_of};
use tx_types::{Link, Rec};

/// The slot that law 9 names, where it is broken: a record that a record's link names has the count of
/// that record, and a record that has a count, and that its links lead back to, is come back to after
/// as many links as it counts. The time that it takes grows with the cube of the list's length. It takes no memory, as
/// all of this crate.
pub fn counts(list: &[Found]) -> Option<Breach>
    requires scanned { IsScanned list.now }
    ensures { IsFirstMiscount list.now result }
{
    match first_miscount(list) {
        None => None,
        Some(at) => Some(breach_at(list, 9, at)),
    }
}

/// The index of the first record that breaks law 9.
fn first_miscount(list: &[Found]) -> Option<usize>
    ensures { FindsFirst (KeepsCount list.now) list.now result }
{
    list.iter().position(|found| !keeps_count(list, found))
}

#[tactic(auto, unfolding(crate::specs::Counts::KeepsCount))]
fn keeps_count(list: &[Found], found: &Found) -> bool
    ensures { IsTrue result ↔ KeepsCount list.now found.now }
{
    let rec = &found.rec;
    passes_count(list, rec) && (rec.count == 0 || returns_after(list, rec.name(), rec.count))
}

/// Whether each record that this one's link names has its count.
fn passes_count(list: &[Found], rec: &Rec) -> bool
    ensures { IsTrue result ↔ All (λ g. name_of g.rec ≡ rec.now.next → g.rec.count ≡ rec.now.count) list.now }
{
    list.iter().all(|other| {
        other.rec.page != rec.next.page
            || other.rec.version != rec.next.version
            || other.rec.count == rec.count
    })
}

/// Whether links that lead back to this name do so after this many, if they do at all.
fn returns_after(list: &[Found], name: Link, count: u32) -> bool
    ensures { IsTrue result ↔ ((n : ℕ) → IsFirstReturn list.now name n → n ≡ count) }
{
    match first_return(list, name) {
        None => true,
        Some(links) => links as u64 == u64::from(count),
    }
}

/// How many links lead back to this name, if any do. Those that are followed are no more than the
/// records of the list, and one where no record has the name.
fn first_return(list: &[Found], name: Link) -> Option<usize>
    ensures { MatchOption result ((n : ℕ) → IsFirstReturn list.now name n → ⊥) (IsFirstReturn list.now name) }
{
    let mut at = name;
    for links in 0..list.len() + 1 {
        at = link_of(list, at);
        if at == name {
            return Some(links + 1);
        }
    }
    None
}

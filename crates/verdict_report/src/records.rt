ghost use Rattle.std.specs.Prelude.{◌≡◌, ℕ, ◌+◌, ◌^◌, ◌<◌, ◌==◌, if◌then◌else◌, [], length, Some, None, IfOk, OnOk};
ghost use Rattle.record_list.specs.Current.{fallback};
ghost use Rattle.record_list.specs.Records.{newest};
ghost use Rattle.record_list.specs.Verdict.{newest_name, link_of, why, is_committed};
ghost use Rattle.sorted_records.specs.SortedRecords.{Sorts};
ghost use Rattle.verdict_report.specs.Newest.{IsNewestRecord, KeepsNewest, kept_at, newer};
ghost use Rattle.verdict_report.specs.Walks.{is_end, stays_at, links_of};

use record_list::{Found, Verdict, Why};
use sorted_records::{Orbit, SortedRecords};
use std::alloc::{AllocError, Global};
use tx_types::{Link, Protocol, Rec};

/// The sorted records of a list, with the newest record of each page at hand: where that stands in several slots, the
/// one in the lowest.
#[derive(Drop)]
pub struct Records {
    chart: SortedRecords,
    newest: Vec<Option<Rec>>,
    ghost kept: { KeepsNewest chart newest.items },
}

impl Records {
    /// Sorts the records, and looks at each once.
    pub fn new(alloc: Global, list: &[Found]) -> Result<Records, AllocError>
        ensures { IfOk result (λ r. Sorts list.now r.chart) }
    {
        let chart = SortedRecords::of(alloc, list)?;
        match newest_records(alloc, chart.records()) {
            Ok(newest) => Ok(Records { chart, newest }),
            Err(error) => {
                drop(chart);
                Err(error)
            }
        }
    }

    /// The newest record of a page.
    pub fn newest_record(&self, page: u32) -> Option<Rec>
        ensures { IsNewestRecord self.now.chart page result }
    {
        self.newest.get(page as usize).copied().flatten()
    }

    /// The newest version of a page, 0 for none.
    pub fn newest(&self, page: u32) -> u64
        ensures { result ≡ newest self.now.chart page }
    {
        self.newest_record(page).map_or(0, |rec| rec.version)
    }

    /// The name of the newest record of a page.
    pub fn newest_name(&self, page: u32) -> Link
        ensures { result ≡ newest_name self.now.chart page }
    {
        Link {
            page,
            version: self.newest(page),
        }
    }

    /// The link of the newest record of a page, and its name where the page has none.
    pub fn newest_link(&self, page: u32) -> Link
        ensures { result ≡ link_of self.now.chart (newest_name self.now.chart page) }
    {
        match self.newest_record(page) {
            Some(rec) => rec.next,
            None => Link { page, version: 0 },
        }
    }

    /// The link after this one in a walk from the record `start`, unless the walk ends here.
    pub fn next_link(&self, start: Link, link: Link) -> Option<Link>
        ensures { result ≡ (if is_end self.now.chart start link then None
            else Some (link_of self.now.chart link)) }
    {
        if self.is_end(start, link) {
            None
        } else {
            Some(self.newest_link(link.page))
        }
    }

    /// Whether a walk from the record `start` ends at this link.
    fn is_end(&self, start: Link, link: Link) -> bool
        ensures { result ≡ is_end self.now.chart start link }
    {
        link.version != self.newest(link.page) || link == start
    }

    /// Whether a walk stays at this link: it names version 0 of a page that has no record.
    fn stays_at(&self, link: Link) -> bool
        ensures { result ≡ stays_at self.now.chart link }
    {
        link.version == self.newest(link.page) && self.newest_record(link.page).is_none()
    }

    /// How many links the walk from the newest record of a page has.
    pub fn walk_length(&self, logical: u32, page: u32) -> u64
        ensures { result ≡ length (links_of self.now.chart logical page) }
    {
        let most = u64::from(logical) + 1;
        match self.chart.orbit(page) {
            None => 1,
            Some(Orbit::Ends { after, at }) => {
                if self.stays_at(self.chart.records()[at as usize].rec.next) {
                    most
                } else {
                    most.min(u64::from(after) + 1)
                }
            }
            Some(Orbit::Round { length }) => most.min(u64::from(length)),
            Some(Orbit::Aside) => most,
        }
    }

    /// What decides the verdict on the newest record of a page.
    pub fn why(&self, protocol: Protocol, logical: u32, page: u32) -> Why
        ensures { result ≡ why protocol self.now.chart logical page }
    {
        self.chart.why(protocol, logical, page)
    }

    /// The current version of a page, from its newest record and what decides the verdict on that.
    pub fn current(&self, protocol: Protocol, page: u32, rec: &Rec, why: Why) -> u64
        requires { IsNewestRecord self.now.chart page (Some rec.now) }
        ensures { result ≡ (if is_committed why then newest self.now.chart page
            else fallback protocol self.now.chart page) }
    {
        match why.verdict() {
            Verdict::Committed => rec.version,
            Verdict::Uncommitted => match protocol {
                Protocol::Scc => self.chart.next_older(page, rec.version),
                Protocol::Bpcc => rec.back,
            },
        }
    }
}

/// The newest record of each page that has one, by page.
fn newest_records(alloc: Global, list: &[Found]) -> Result<Vec<Option<Rec>>, AllocError>
    ensures { IfOk result (λ v. KeepsNewest list.now v.items) }
{
    let mut newest = Vec::new(alloc);
    match keep_all(list, &mut newest) {
        Ok(()) => Ok(newest),
        Err(error) => {
            drop(newest);
            Err(error)
        }
    }
}

/// Keeps the newest record of each page where none is kept before.
fn keep_all(list: &[Found], newest: &mut Vec<Option<Rec>>) -> Result<(), AllocError>
    requires { newest.old.items ≡ [] }
    ensures { OnOk result (KeepsNewest list.now newest.new.items) }
{
    for found in list {
        keep(newest, found.rec)?;
    }
    Ok(())
}

/// Keeps a record where it is newer than the one that is kept of its page.
#[tactic(auto, using(crate::proofs::NewestLemmas::kept_after))]
fn keep(newest: &mut Vec<Option<Rec>>, rec: Rec) -> Result<(), AllocError>
    ensures { OnOk result ((page : ℕ) → kept_at newest.new.items page
        ≡ (if rec.page == page then newer (kept_at newest.old.items page) rec
        else kept_at newest.old.items page)) }
{
    let page = rec.page as usize;
    make_room(newest, page)?;
    newest[page] = newer(newest[page], rec);
    Ok(())
}

/// Makes room for what is kept of a page.
fn make_room(newest: &mut Vec<Option<Rec>>, page: usize) -> Result<(), AllocError>
    requires { page + 1 < 2 ^ 64 }
    ensures room { OnOk result (page < length newest.new.items) }
    ensures same { (p : ℕ) → kept_at newest.new.items p ≡ kept_at newest.old.items p }
{
    if newest.len() <= page {
        newest.resize(page + 1, None)?;
    }
    Ok(())
}

/// The newer of the record that is kept of a page and a later one in the list.
fn newer(kept: Option<Rec>, rec: Rec) -> Option<Rec>
    ensures { result ≡ newer kept rec }
{
    match kept {
        Some(old) if old.version >= rec.version => kept,
        _ => Some(rec),
    }
}

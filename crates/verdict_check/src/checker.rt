ghost use Rattle.std.specs.Prelude.{◌≡◌, ◌<◌, ◌≤◌, Some, All, if◌then◌else◌, length};
ghost use Rattle.tx_types.specs.declared.config.Protocol.TheVariants.{Bpcc};
ghost use Rattle.record_list.specs.Current.{fallback};
ghost use Rattle.record_list.specs.Records.{record_at, IsScanned};
ghost use Rattle.record_list.specs.Verdict.{is_committed};
ghost use Rattle.sorted_records.specs.SortedRecords.{ending};
ghost use Rattle.verdict_check.specs.Expected.{IsExpected};
ghost use Rattle.verdict_check.specs.Older.{version_at, AreOlder};
ghost use Rattle.verdict_check.specs.Places.{newest_place, IsNewestAt};
ghost use Rattle.verdict_check.specs.Straddlers.{AreStraddlers, behind_shows};
ghost use Rattle.verdict_check.specs.WalkEnds.{AreWalkEnds, EndsWithin, IsCounted, shown_by, links_by};

use crate::expected::Expected;
use crate::records::Records;
use crate::walk_end::WalkEnd;
use crate::walk_ends::find_walk_end;
use record_list::Why;
use tx_types::{Protocol, Rec};

/// What decides the verdict on a page.
#[derive(Clone, Copy)]
pub struct Checker<'a> {
    pub records: Records<'a>,
    /// The greatest version of each page below its newest one.
    pub older: &'a [u64],
    /// The greatest version that straddles the link of the newest record of each page, under Back Pointer Cyclic
    /// Commit.
    pub straddlers: &'a [u64],
    pub protocol: Protocol,
    pub logical: u32,
}

impl<'a> Checker<'a> {
    /// What the line of a page is to say, whose newest record stands at this place.
    pub fn line(&self, courses: &mut [Option<WalkEnd>], page: u32, place: u32) -> Expected
        requires logical { self.now.logical ≤ 65536 }
        requires place { Some place ≡ newest_place self.now.records.list.now page }
        requires pages { All (λ f. f.rec.page < length courses.old) self.now.records.list.now }
        requires scanned { IsScanned self.now.records.list.now }
        requires older { AreOlder self.now.records.list.now (length self.now.records.list.now) self.now.older.now }
        requires straddlers { self.now.protocol ≡ Bpcc →
            AreStraddlers self.now.records.list.now self.now.straddlers.now }
        requires known { AreWalkEnds self.now.records.list.now self.now.logical courses.old }
        ensures is { IsExpected self.now.protocol self.now.records.list.now self.now.logical result }
        ensures page { result.page ≡ page }
        ensures known { AreWalkEnds self.now.records.list.now self.now.logical courses.new }
        ensures size { length courses.new ≡ length courses.old }
    {
        let course = find_walk_end(&self.records, courses, self.logical, place);
        let why = self.why(course);
        Expected {
            page,
            newest: self.records.list[place as usize].rec.version,
            why,
            current: self.current(place, why),
            links: self.links(course),
        }
    }

    /// What a walk end shows.
    fn why(&self, course: WalkEnd) -> Why
        requires ends { EndsWithin self.now.records.list.now course }
        requires straddlers { self.now.protocol ≡ Bpcc →
            AreStraddlers self.now.records.list.now self.now.straddlers.now }
        ensures { result ≡ shown_by self.now.protocol self.now.records.list.now course }
    {
        match course {
            WalkEnd::Ends { at, .. } => self.ending(at),
            WalkEnd::Round { .. } => Why::Cycle,
            WalkEnd::Long => Why::Absent,
        }
    }

    /// The number of links of a walk to a walk end.
    fn links(&self, course: WalkEnd) -> u32
        requires logical { self.now.logical ≤ 65536 }
        requires counted { IsCounted self.now.logical course }
        ensures { result ≡ links_by self.now.logical course }
    {
        match course {
            WalkEnd::Ends { after, .. } => after + 1,
            WalkEnd::Round { links } => links,
            WalkEnd::Long => self.logical + 1,
        }
    }

    /// What the link of the newest record at a place shows, where it leads to no newest record.
    fn ending(&self, at: u32) -> Why
        requires within { at < length self.now.records.list.now }
        requires newest { IsNewestAt self.now.records.list.now at }
        requires straddlers { self.now.protocol ≡ Bpcc →
            AreStraddlers self.now.records.list.now self.now.straddlers.now }
        ensures { result ≡ ending self.now.protocol self.now.records.list.now
            (record_at self.now.records.list.now at).next }
    {
        let Rec { page, next, .. } = self.records.list[at as usize].rec;
        if next.version < self.records.newest(next.page) {
            self.why_below_newest(page)
        } else {
            Why::Absent
        }
    }

    /// What the link of the newest record of a page shows, below the newest version of the page to which it leads.
    fn why_below_newest(&self, page: u32) -> Why
        ensures { result ≡ behind_shows self.now.protocol (version_at self.now.straddlers.now page) }
    {
        match self.protocol {
            Protocol::Scc => Why::Passed,
            Protocol::Bpcc => match self.straddlers.get(page as usize).copied().unwrap_or(0) {
                0 => Why::Passed,
                version => Why::Straddled(version),
            },
        }
    }

    /// The current version of the page whose newest record stands at this place, from what decides the verdict on
    /// that.
    fn current(&self, place: u32, why: Why) -> u64
        requires within { place < length self.now.records.list.now }
        requires newest { IsNewestAt self.now.records.list.now place }
        requires older { AreOlder self.now.records.list.now (length self.now.records.list.now) self.now.older.now }
        ensures { result ≡ (if is_committed why then (record_at self.now.records.list.now place).version
            else fallback self.now.protocol self.now.records.list.now
            (record_at self.now.records.list.now place).page) }
    {
        let rec = self.records.list[place as usize].rec;
        match why {
            Why::Cycle | Why::Passed => rec.version,
            Why::Absent | Why::Straddled(_) => match self.protocol {
                Protocol::Scc => self.older.get(rec.page as usize).copied().unwrap_or(0),
                Protocol::Bpcc => rec.back,
            },
        }
    }
}

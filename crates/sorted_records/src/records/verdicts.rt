//! What decides the verdict on the newest record of a page, and the current version that follows.
ghost use Rattle.std.specs.Prelude.{◌≡◌, position, Some};
ghost use Rattle.record_list.specs.Current.{cur};
ghost use Rattle.record_list.specs.Records.{has_name, newest};
ghost use Rattle.record_list.specs.Verdict.{why, newest_name};
ghost use Rattle.sorted_records.specs.SortedRecords.{IsOrbitOfNewest};

use crate::in_order::find_newest;
use crate::walks::why_from_orbit;
use crate::{Orbit, SortedRecords};
use record_list::{Verdict, Why};
use tx_types::{Link, Protocol};

impl SortedRecords {
    /// Where the links of newest records lead from that of a page; nothing where the page has no record.
    pub fn orbit(&self, page: u32) -> Option<Orbit>
        ensures { IsOrbitOfNewest self.now page result }
    {
        let place = self.find_newest(page)?;
        Some(self.orbits.orbit(place))
    }

    /// The place of the first record of the newest version of a page.
    #[inline(always)]
    fn find_newest(&self, page: u32) -> Option<u32>
        ensures { result ≡ position (λ f. has_name (newest_name self.now page) f.rec) self.now }
    {
        find_newest(&self.records, &self.starts, page)
    }

    /// What decides the verdict on the newest record of a page: where the walk from it ends.
    pub fn why(&self, protocol: Protocol, logical: u32, page: u32) -> Why
        ensures { result ≡ why protocol self.now logical page }
    {
        match self.find_newest(page) {
            Some(place) => self.why_of_newest(protocol, logical, page, place, &mut 0),
            None => Why::Cycle,
        }
    }

    /// What decides the verdict on the newest record of a page, which is first at this place. The page is there for the
    /// contract.
    #[inline(always)]
    fn why_of_newest(
        &self,
        protocol: Protocol,
        logical: u32,
        page: u32,
        place: u32,
        near: &mut usize,
    ) -> Why
        requires { position (λ f. has_name (newest_name self.now page) f.rec) self.now ≡ Some place }
        ensures { result ≡ why protocol self.now logical page }
    {
        let _ = page;
        why_from_orbit(
            protocol,
            &self.records,
            &self.starts,
            &self.least,
            logical,
            self.orbits.orbit(place),
            near,
        )
    }

    /// The current version of a page, 0 for none.
    #[inline(always)]
    pub fn current(&self, protocol: Protocol, logical: u32, page: u32) -> u64
        ensures { result ≡ cur protocol self.now logical page }
    {
        self.current_near(protocol, logical, page, &mut 0)
    }

    /// The current version of a page, 0 for none, by a search for a straddler that begins where the last one ended.
    #[inline(always)]
    pub(crate) fn current_near(
        &self,
        protocol: Protocol,
        logical: u32,
        page: u32,
        near: &mut usize,
    ) -> u64
        ensures { result ≡ cur protocol self.now logical page }
    {
        match self.find_newest(page) {
            None => self.newest(page),
            Some(place) => self.current_from_newest(protocol, logical, page, place, near),
        }
    }

    /// The current version of a page, of whose newest version the first record is at this place.
    #[inline(always)]
    fn current_from_newest(
        &self,
        protocol: Protocol,
        logical: u32,
        page: u32,
        place: u32,
        near: &mut usize,
    ) -> u64
        requires { position (λ f. has_name (newest_name self.now page) f.rec) self.now ≡ Some place }
        ensures { result ≡ cur protocol self.now logical page }
    {
        let version = self.newest_at(page, place);
        match self
            .why_of_newest(protocol, logical, page, place, near)
            .verdict()
        {
            Verdict::Committed => version,
            Verdict::Uncommitted => match protocol {
                Protocol::Scc => self.next_older(page, version),
                Protocol::Bpcc => self.back_of(Link { page, version }),
            },
        }
    }

    /// The newest version of a page, of which the first record is at this place. The page is there for the contract.
    #[inline(always)]
    fn newest_at(&self, page: u32, place: u32) -> u64
        requires { position (λ f. has_name (newest_name self.now page) f.rec) self.now ≡ Some place }
        ensures { result ≡ newest self.now page }
    {
        let _ = page;
        self.records[place as usize].rec.version
    }
}

ghost use Rattle.std.specs.Prelude.{◌≡◌, ◌<◌, length};
ghost use Rattle.record_list.specs.Records.{newest, record_at};
ghost use Rattle.record_list.specs.Verdict.{newest_name, link_of};
ghost use Rattle.sorted_records.specs.Orbits.{next_of};
ghost use Rattle.sorted_records.specs.SortedRecords.{place_of, link_graph};
ghost use Rattle.verdict_check.specs.Places.{newest_place, ArePlaces};

use record_list::Found;
use tx_types::Link;

/// The most pages that a report is checked of: the tables of pages have room for this many.
pub const MOST_PAGES: usize = 65536;

/// A list of records, and the place of the newest one of each page.
#[derive(Clone, Copy)]
pub struct Records<'a> {
    pub list: &'a [Found],
    pub places: &'a [Option<u32>],
    ghost right: { ArePlaces list.now places.now },
}

impl<'a> Records<'a> {
    /// The place of the newest record of a page.
    pub fn place(&self, page: u32) -> Option<u32>
        ensures { result ≡ newest_place self.now.list.now page }
    {
        self.places.get(page as usize).copied().flatten()
    }

    /// The newest version of a page, 0 for none.
    pub fn newest(&self, page: u32) -> u64
        ensures { result ≡ newest self.now.list.now page }
    {
        match self.place(page) {
            Some(place) => self.list[place as usize].rec.version,
            None => 0,
        }
    }

    /// The link of the newest record of a page, and one to version 0 of the page where it has none.
    pub fn newest_link(&self, page: u32) -> Link
        ensures { result ≡ link_of self.now.list.now (newest_name self.now.list.now page) }
    {
        match self.place(page) {
            Some(place) => self.list[place as usize].rec.next,
            None => Link { page, version: 0 },
        }
    }

    /// The place of the newest record of the page to which a link leads, where the link is to that.
    pub fn place_of(&self, link: Link) -> Option<u32>
        ensures { result ≡ place_of self.now.list.now link }
    {
        match self.place(link.page) {
            Some(place) if self.list[place as usize].rec.version == link.version => Some(place),
            _ => None,
        }
    }

    /// The place to which the link of the record at a place leads.
    pub fn next(&self, place: u32) -> Option<u32>
        requires { place < length self.now.list.now }
        ensures { result ≡ next_of (link_graph self.now.list.now) place }
    {
        self.place_of(self.list[place as usize].rec.next)
    }
}

ghost use Rattle.std.specs.Prelude.{◌≡◌, ◌↔◌, ℕ, suc, ◌<◌, ◌^◌, IsTrue, [], Some, position, filter, IfOk, IfSome, length, slice_index_or};
ghost use Rattle.tx_types.specs.declared.config.Protocol.TheVariants.{Bpcc};
ghost use Rattle.record_list.specs.Current.{responsible, straddling_upto};
ghost use Rattle.record_list.specs.Records.{greatest, name_of, record_at, has_name, is_present, newest, next_older};
ghost use Rattle.record_list.specs.Verdict.{link_of, back_of, straddling};
ghost use Rattle.sorted_records.specs.Minima.{AreMinima};
ghost use Rattle.sorted_records.specs.NameGraph.{name_graph};
ghost use Rattle.sorted_records.specs.Names.{AreNames, NextDiffers};
ghost use Rattle.sorted_records.specs.Orbits.{IsGraph};
ghost use Rattle.sorted_records.specs.SortedRecords.{IsInOrder, Sorts, list_of};
ghost use Rattle.sorted_records.specs.Starts.{AreStarts};

mod verdicts;

use crate::arrange::{Arranged, is_in_order, outline, sort_by_name};
use crate::group::{straddling, straddling_up_to, straddling_up_to_bound};
use crate::in_order::{
    back_of, find, find_near, first_namesake, link_of, newest, next_older, with_name,
};
use crate::minima::minima_of_many;
use crate::names::Names;
use crate::walks::targets_and_orbits;
use crate::{Orbits, PageCounts};
use record_list::Found;
use std::alloc::{AllocError, Global};
use std::marker::Model;
use tx_types::{Link, Protocol};

/// Records in order of their names, by page and then by version, and where their links lead.
#[derive(Drop)]
pub struct SortedRecords {
    records: Vec<Found>,
    starts: Vec<u32>,
    names: Names,
    least: Option<Vec<u64>>,
    targets: Vec<Option<u32>>,
    orbits: Orbits,
}

/// The sorted records of a list, and the list where it is not in order: a list in order is their own.
#[derive(Drop)]
pub struct SortedWithList {
    pub chart: SortedRecords,
    pub list: Option<Vec<Found>>,
}

impl Model for SortedRecords {
    ghost use Rattle.std.specs.Prelude.{List};
    ghost use Rattle.record_list.specs.declared.found.Found.{Found};

    ghost Value = { List Found };

    ghost use Rattle.sorted_records.specs.Inside.{SortedRecordsInvariant};

    ghost view = { λ c. c.records.items };

    ghost invariant = { SortedRecordsInvariant };
}

/// The least back versions of records that are in order, of many and under Back Pointer Cyclic Commit alone.
fn minima_if_asked(
    alloc: Global,
    records: &[Found],
    starts: &[u32],
    protocol: Protocol,
) -> Result<Option<Vec<u64>>, AllocError>
    requires order { IsInOrder records.now }
    requires starts { AreStarts records.now starts.now }
    ensures { IfOk result (λ r. IfSome r (λ least. AreMinima records.now [] least.items)) }
{
    match protocol {
        Protocol::Scc => Ok(None),
        Protocol::Bpcc => minima_of_many(alloc, records, starts, &[]),
    }
}

impl SortedRecords {
    /// Puts the records of a list in order, and finds where their links lead. Records of one name stay in
    /// the order that they have. For more than `u32::MAX` of them there is no room.
    pub fn of(alloc: Global, list: &[Found]) -> Result<SortedRecords, AllocError>
        ensures { IfOk result (λ chart. Sorts list.now chart) }
    {
        let mut counts = PageCounts::of(alloc, list)?;
        SortedRecords::of_lent(alloc, list, &mut counts, Protocol::Bpcc)
    }

    /// Puts the records of a list that is handed over in order, of which the pages are counted. A list in order is kept
    /// and not copied, any other is given back. Straddlers are quick to find under Back Pointer Cyclic Commit alone,
    /// which asks for them.
    pub fn of_own(
        alloc: Global,
        list: Vec<Found>,
        mut counts: PageCounts,
        protocol: Protocol,
    ) -> Result<SortedWithList, AllocError>
        ensures sorts { IfOk result (λ charted. Sorts list.items charted.chart) }
        ensures list { IfOk result (λ charted. list_of charted.list charted.chart ≡ list.items) }
    {
        if list.len() <= u32::MAX as usize && is_in_order(&list) {
            return Ok(SortedWithList {
                chart: SortedRecords::of_ordered(alloc, outline(alloc, list)?, protocol)?,
                list: None,
            });
        }
        Ok(SortedWithList {
            chart: SortedRecords::of_lent(alloc, &list, &mut counts, protocol)?,
            list: Some(list),
        })
    }

    /// Puts the records of a list in order, of which the pages are counted, and finds where their links lead, and what
    /// this protocol asks for.
    fn of_lent(
        alloc: Global,
        list: &[Found],
        counts: &mut PageCounts,
        protocol: Protocol,
    ) -> Result<SortedRecords, AllocError>
        ensures { IfOk result (λ chart. Sorts list.now chart) }
    {
        if list.len() > u32::MAX as usize {
            return Err(AllocError);
        }
        let arranged = sort_by_name(alloc, list, counts)?;
        SortedRecords::of_ordered(alloc, arranged, protocol)
    }

    /// Finds where the links of records lead that are in order, and, under Back Pointer Cyclic Commit alone,
    /// which asks for straddlers, the least back versions of many.
    fn of_ordered(
        alloc: Global,
        arranged: Arranged,
        protocol: Protocol,
    ) -> Result<SortedRecords, AllocError>
        requires order { IsInOrder arranged.records.items }
        requires few { length arranged.records.items < 2 ^ 32 }
        requires starts { AreStarts arranged.records.items arranged.starts.items }
        requires names { AreNames arranged.records.items (length arranged.records.items) arranged.names }
        ensures { IfOk result (λ chart. chart ≡ arranged.records.items) }
    {
        let Arranged {
            records,
            starts,
            names,
        } = arranged;
        let least = minima_if_asked(alloc, &records, &starts, protocol)?;
        let (targets, orbits) = targets_and_orbits(alloc, &records, &starts, names)?;
        Ok(SortedRecords {
            records,
            starts,
            names,
            least,
            targets,
            orbits,
        })
    }

    /// The list that was sorted: that which was given back, if one was.
    pub fn list_of<'a>(&'a self, list: &'a Option<Vec<Found>>) -> &'a [Found]
        ensures { result.now ≡ list_of list.now self.now }
    {
        match list {
            Some(list) => list.as_slice(),
            None => self.records(),
        }
    }

    /// The records, in order.
    #[inline]
    pub fn records(&self) -> &[Found]
        ensures records { result.now ≡ self.now }
        ensures order { IsInOrder result.now }
        ensures few { length result.now < 2 ^ 32 }
    {
        self.records.as_slice()
    }

    /// The page from which on no page has a record.
    pub(crate) fn page_end(&self) -> usize
        ensures { (k : ℕ) → k < length self.now → (record_at self.now k).page < result }
    {
        let count = self.records.len();
        if count == 0 {
            return 0;
        }
        self.records[count - 1].rec.page as usize + 1
    }

    /// Whether no record has the name of the one before it, so that no two have one.
    #[inline]
    pub fn names_differ(&self) -> bool
        ensures { IsTrue result ↔ ((k : ℕ) → suc k < length self.now → NextDiffers self.now k) }
    {
        self.names.differ
    }

    /// For each record the place of the first record that its link names.
    #[inline]
    pub fn targets(&self) -> &[Option<u32>]
        ensures targets { result.now ≡ name_graph self.now }
        ensures graph { IsGraph result.now }
        ensures few { length result.now < 2 ^ 32 }
    {
        self.targets.as_slice()
    }

    /// The place of the first record with this name.
    #[inline]
    pub fn find(&self, name: Link) -> Option<u32>
        ensures { result ≡ position (λ f. has_name name f.rec) self.now }
    {
        find(&self.records, &self.starts, name)
    }

    /// The place of the first record with this name, by a search that begins where the last one ended.
    #[inline]
    pub fn find_near(&self, name: Link, near: &mut usize) -> Option<u32>
        ensures { result ≡ position (λ f. has_name name f.rec) self.now }
    {
        find_near(&self.records, &self.starts, name, near)
    }

    /// The place of the first record that has the name of the one at this place.
    #[inline]
    pub fn first_namesake(&self, at: u32) -> u32
        requires { at < length self.now }
        ensures { position (λ f. has_name (name_of (record_at self.now at)) f.rec) self.now
            ≡ Some result }
    {
        first_namesake(&self.records, &self.starts, at)
    }

    /// The records with this name.
    pub fn with_name(&self, name: Link) -> &[Found]
        ensures { result.now ≡ filter (λ f. has_name name f.rec) self.now }
    {
        with_name(&self.records, &self.starts, name)
    }

    /// Whether some record has this name.
    #[inline]
    pub fn is_present(&self, name: Link) -> bool
        ensures { result ≡ is_present self.now name }
    {
        self.find(name).is_some()
    }

    /// The greatest version of a page, 0 for none.
    #[inline]
    pub fn newest(&self, page: u32) -> u64
        ensures { result ≡ newest self.now page }
    {
        newest(&self.records, &self.starts, page)
    }

    /// The greatest version of a page below a version, 0 for none.
    pub fn next_older(&self, page: u32, below: u64) -> u64
        ensures { result ≡ next_older self.now page below }
    {
        next_older(&self.records, &self.starts, page, below)
    }

    /// The greatest version of a record that straddles this name, 0 for none.
    #[inline(always)]
    pub fn straddling(&self, name: Link) -> u64
        ensures { result ≡ straddling self.now name }
    {
        straddling(&self.records, &self.starts, &self.least, name, &mut 0)
    }

    /// The link of the first record with this name, and the name itself where no record has it.
    pub fn link_of(&self, name: Link) -> Link
        ensures { result ≡ link_of self.now name }
    {
        link_of(&self.records, &self.starts, name)
    }

    /// The back version of the first record with this name, 0 where no record has it.
    pub fn back_of(&self, name: Link) -> u64
        ensures { result ≡ back_of self.now name }
    {
        back_of(&self.records, &self.starts, name)
    }

    /// The greatest version, up to `top`, of a record that straddles this name, 0 for none.
    pub fn straddling_up_to(&self, name: Link, top: u64) -> u64
        ensures { result ≡ greatest (straddling_upto top name) self.now }
    {
        straddling_up_to(&self.records, &self.starts, name, top)
    }

    /// The least back versions of the records up to these versions of their pages, if those of all records are kept,
    /// as they are where some page has many.
    pub(crate) fn minima_up_to(
        &self,
        alloc: Global,
        tops: &[u64],
    ) -> Result<Option<Vec<u64>>, AllocError>
        ensures { IfOk result (λ r. IfSome r (λ least. AreMinima self.now tops.now least.items)) }
    {
        match self.least {
            None => Ok(None),
            Some(_) => minima_of_many(alloc, &self.records, &self.starts, tops),
        }
    }

    /// The greatest version, up to the bound of its page, of a record that straddles this name, 0 for none,
    /// by the least back versions of the records up to their bounds, where they are noted. The search may
    /// well end beside the place at which the last one ended.
    pub(crate) fn straddling_up_to_bound(
        &self,
        tops: &[u64],
        least: &Option<Vec<u64>>,
        name: Link,
        near: &mut usize,
    ) -> u64
        requires minima { IfSome least.now (λ m. AreMinima self.now tops.now m.items) }
        requires bound { name.page < length tops.now }
        ensures { result
            ≡ greatest (straddling_upto (slice_index_or tops.now name.page 0) name) self.now }
    {
        straddling_up_to_bound(&self.records, &self.starts, tops, least, name, near)
    }

    /// Under Back Pointer Cyclic Commit the version of the record that is responsible for the loose
    /// records which link to this name, 0 for none.
    pub fn responsible(&self, logical: u32, name: Link) -> u64
        ensures { result ≡ responsible Bpcc self.now logical name }
    {
        let top = self.current(Protocol::Bpcc, logical, name.page);
        self.straddling_up_to(name, top)
    }
}

ghost use Rattle.std.specs.Prelude.{◌≡◌, ℕ, ◌<◌, IfOk, IfSome, map, length};
ghost use Rattle.std.specs.List.{range_with_len};
ghost use Rattle.record_list.specs.Current.{cur, responsible, is_loose, straddling_upto};
ghost use Rattle.record_list.specs.Records.{greatest, record_at};
ghost use Rattle.sorted_records.specs.CurrentVersions.{CurrentVersionsState};
ghost use Rattle.sorted_records.specs.Minima.{AreMinima};

use crate::SortedRecords;
use std::alloc::{AllocError, Global};
use std::marker::Model;
use tx_types::{Link, Protocol, Rec};

/// Sorted records, and the current version of each page under a protocol, and under Back Pointer Cyclic Commit the
/// least back versions of the records up to it.
#[derive(Drop)]
pub struct CurrentVersions {
    chart: SortedRecords,
    protocol: Protocol,
    logical: u32,
    current: Vec<u64>,
    settled: Option<Vec<u64>>,
}

impl Model for CurrentVersions {
    ghost use Rattle.sorted_records.specs.CurrentVersions.{CurrentVersionsState};

    ghost Value = { CurrentVersionsState };

    ghost use Rattle.sorted_records.specs.InsideCurrentVersions.{CurrentVersionsInvariant};

    ghost view = { λ s. record { protocol = s.protocol; logical = s.logical; list = s.chart } };

    ghost invariant = { CurrentVersionsInvariant };
}

impl CurrentVersions {
    /// Finds the current version of each page below `logical`.
    pub fn new(
        alloc: Global,
        chart: SortedRecords,
        protocol: Protocol,
        logical: u32,
    ) -> Result<CurrentVersions, AllocError>
        ensures { IfOk result (λ s. s ≡ record { protocol = protocol; logical = logical; list = chart }) }
    {
        let (current, settled) = current_versions_and_minima(alloc, &chart, protocol, logical)?;
        Ok(CurrentVersions {
            chart,
            protocol,
            logical,
            current,
            settled,
        })
    }

    /// The sorted records.
    #[inline]
    pub fn sorted_records(&self) -> &SortedRecords
        ensures { result.now ≡ self.now.list }
    {
        &self.chart
    }

    /// The protocol.
    #[inline]
    pub fn protocol(&self) -> Protocol
        ensures { result ≡ self.now.protocol }
    {
        self.protocol
    }

    /// The current version of a page, 0 for none.
    #[inline(always)]
    pub fn current(&self, page: u32) -> u64
        ensures { result ≡ cur self.now.protocol self.now.list self.now.logical page }
    {
        if page < self.logical {
            self.current[page as usize]
        } else {
            self.current_beyond(page)
        }
    }

    /// The current version of a page, 0 for none, by the sorted records alone.
    #[cold]
    #[inline(never)]
    fn current_beyond(&self, page: u32) -> u64
        ensures { result ≡ cur self.now.protocol self.now.list self.now.logical page }
    {
        self.chart.current(self.protocol, self.logical, page)
    }

    /// Whether a record's version is above the current one of its page.
    #[inline(always)]
    pub fn is_loose(&self, rec: Rec) -> bool
        ensures { result ≡ is_loose self.now.protocol self.now.list self.now.logical rec }
    {
        rec.version > self.current(rec.page)
    }

    /// The version of the record that is responsible for the loose records which link to this name, 0
    /// for none.
    pub fn responsible(&self, name: Link) -> u64
        ensures { result ≡ responsible self.now.protocol self.now.list self.now.logical name }
    {
        self.responsible_near(name, &mut 0)
    }

    /// The version of the record that is responsible for the loose records which link to this name, 0 for none, by a
    /// search that begins where the last one ended.
    pub fn responsible_near(&self, name: Link, near: &mut usize) -> u64
        ensures { result ≡ responsible self.now.protocol self.now.list self.now.logical name }
    {
        if name.page < self.logical {
            self.chart
                .straddling_up_to_bound(&self.current, &self.settled, name, near)
        } else {
            self.responsible_beyond(name)
        }
    }

    /// The version of the record that is responsible for the loose records which link to this name, 0 for none, by the
    /// sorted records alone.
    #[cold]
    #[inline(never)]
    fn responsible_beyond(&self, name: Link) -> u64
        ensures { result ≡ responsible self.now.protocol self.now.list self.now.logical name }
    {
        let top = self.current_beyond(name.page);
        self.chart.straddling_up_to(name, top)
    }
}

/// The current version of each page, in order, and under Back Pointer Cyclic Commit the least back versions of the
/// records up to it.
fn current_versions_and_minima(
    alloc: Global,
    chart: &SortedRecords,
    protocol: Protocol,
    logical: u32,
) -> Result<(Vec<u64>, Option<Vec<u64>>), AllocError>
    ensures current { IfOk result (λ r.
        r.0.items ≡ map (cur protocol chart.now logical) (range_with_len 0 logical)) }
    ensures settled { IfOk result (λ r.
        IfSome r.1 (λ least. AreMinima chart.now r.0.items least.items)) }
{
    let current = current_versions(alloc, chart, protocol, logical)?;
    let settled = match protocol {
        Protocol::Scc => None,
        Protocol::Bpcc => chart.minima_up_to(alloc, &current)?,
    };
    Ok((current, settled))
}

/// The current version of each page, in order.
fn current_versions(
    alloc: Global,
    chart: &SortedRecords,
    protocol: Protocol,
    logical: u32,
) -> Result<Vec<u64>, AllocError>
    ensures { IfOk result (λ v. v.items ≡ map (cur protocol chart.now logical) (range_with_len 0 logical)) }
{
    let mut versions = Vec::with_capacity(alloc, logical as usize)?;
    let end = chart.page_end();
    let mut near = 0;
    for page in 0..logical {
        versions.push_reserved(current_below(chart, protocol, logical, page, end, &mut near));
    }
    Ok(versions)
}

/// The current version of a page, 0 for none, where no page from an end on has a record.
#[inline(always)]
fn current_below(
    chart: &SortedRecords,
    protocol: Protocol,
    logical: u32,
    page: u32,
    end: usize,
    near: &mut usize,
) -> u64
    requires { (k : ℕ) → k < length chart.now → (record_at chart.now k).page < end }
    ensures { result ≡ cur protocol chart.now logical page }
{
    if page as usize >= end {
        return 0;
    }
    chart.current_near(protocol, logical, page, near)
}

//! Where the walks along the links of newest records lead, in records that are in order of their names.
ghost use Rattle.std.specs.Prelude.{◌≡◌, ◌≢◌, suc, ◌<◌, ◌^◌, true, [], IfOk, IfSome, length, map, position, take};
ghost use Rattle.record_list.specs.Records.{has_name, record_at};
ghost use Rattle.record_list.specs.Verdict.{why_below_newest};
ghost use Rattle.sorted_records.specs.Minima.{AreMinima};
ghost use Rattle.sorted_records.specs.Names.{AreNames};
ghost use Rattle.sorted_records.specs.NameGraph.{name_graph};
ghost use Rattle.sorted_records.specs.Orbits.{AreOrbits};
ghost use Rattle.sorted_records.specs.Seen.{AreLone};
ghost use Rattle.sorted_records.specs.SortedRecords.{IsInOrder, EndsBelow, newest_target, link_graph, ending, why_from_orbit};
ghost use Rattle.sorted_records.specs.Starts.{AreStarts};

use crate::group::straddling;
use crate::in_order::{find_near, first_namesake, newest};
use crate::lone_nodes::LoneNodes;
use crate::names::Names;
use crate::{Orbit, Orbits};
use record_list::{Found, Why};
use std::alloc::{AllocError, Global};
use tx_types::{Link, Protocol};

/// The places that links name, those to which they lead, and what is known of these without following one.
#[derive(Drop)]
struct Graphs {
    targets: Vec<Option<u32>>,
    links: Vec<Option<u32>>,
    lone: LoneNodes,
}

/// The places that links name, and what is known of these without following one.
#[derive(Drop)]
struct Targets {
    targets: Vec<Option<u32>>,
    lone: LoneNodes,
}

/// For each record the place of the first record that its link names, and what is known without following one.
fn find_targets(alloc: Global, records: &[Found], starts: &[u32]) -> Result<Targets, AllocError>
    requires order { IsInOrder records.now }
    requires starts { AreStarts records.now starts.now }
    requires few { length records.now < 2 ^ 32 }
    ensures targets { IfOk result (λ t. t.targets.items ≡ name_graph records.now) }
    ensures lone { IfOk result (λ t.
        AreLone (name_graph records.now) (length records.now) t.lone.seen.items t.lone.others.items) }
{
    let mut targets = Vec::with_capacity(alloc, records.len())?;
    let mut lone = LoneNodes::with_capacity(alloc, records.len())?;
    let mut near = 0;
    for at in 0..records.len() {
        let target = next_target(records, starts, &targets, at as u32, &mut near);
        targets.push_reserved(target);
        lone.note(at as u32, target);
    }
    Ok(Targets { targets, lone })
}

/// The place of the first record that the link of the one at this place names, by those of the records before: it is
/// that of the last of them where this has the same link.
#[inline(always)]
fn next_target(
    records: &[Found],
    starts: &[u32],
    before: &[Option<u32>],
    at: u32,
    near: &mut usize,
) -> Option<u32>
    requires order { IsInOrder records.now }
    requires starts { AreStarts records.now starts.now }
    requires few { length records.now < 2 ^ 32 }
    requires within { at < length records.now }
    requires before { before.now ≡ map (λ f. position (λ g. has_name f.rec.next g.rec) records.now)
        (take at records.now) }
    ensures { result ≡ position (λ g. has_name (record_at records.now at).next g.rec) records.now }
{
    if at > 0 && records[at as usize - 1].rec.next == records[at as usize].rec.next {
        return before[at as usize - 1];
    }
    target(records, starts, at, near)
}

/// The place of the first record that the link of the one at this place names.
#[inline(always)]
fn target(records: &[Found], starts: &[u32], at: u32, near: &mut usize) -> Option<u32>
    requires order { IsInOrder records.now }
    requires starts { AreStarts records.now starts.now }
    requires few { length records.now < 2 ^ 32 }
    requires within { at < length records.now }
    ensures { result ≡ position (λ g. has_name (record_at records.now at).next g.rec) records.now }
{
    let rec = &records[at as usize].rec;
    if rec.has_name(rec.next) {
        Some(first_namesake(records, starts, at))
    } else {
        find_near(records, starts, rec.next, near)
    }
}

/// The places that the links of records name, and the orbits of the links of newest records: the links lead to these
/// places, where each record there is of the newest version of its page.
pub fn targets_and_orbits(
    alloc: Global,
    records: &[Found],
    starts: &[u32],
    names: Names,
) -> Result<(Vec<Option<u32>>, Orbits), AllocError>
    requires order { IsInOrder records.now }
    requires starts { AreStarts records.now starts.now }
    requires few { length records.now < 2 ^ 32 }
    requires names { AreNames records.now (length records.now) names }
    ensures targets { IfOk result (λ r. r.0.items ≡ name_graph records.now) }
    ensures orbits { IfOk result (λ r. AreOrbits (link_graph records.now) r.1) }
{
    if names.one_version {
        let Targets { targets, lone } = find_targets(alloc, records, starts)?;
        let orbits = Orbits::from_lone_nodes(alloc, &targets, lone)?;
        return Ok((targets, orbits));
    }
    let Graphs {
        targets,
        links,
        lone,
    } = find_graphs(alloc, records, starts)?;
    let orbits = Orbits::from_lone_nodes(alloc, &links, lone)?;
    Ok((targets, orbits))
}

/// For each record the place of the first record that its link names, and where the link leads: there, where that
/// record is of the newest version of its page. What is known of the links without following one is noted.
fn find_graphs(alloc: Global, records: &[Found], starts: &[u32]) -> Result<Graphs, AllocError>
    requires order { IsInOrder records.now }
    requires starts { AreStarts records.now starts.now }
    requires few { length records.now < 2 ^ 32 }
    ensures targets { IfOk result (λ g. g.targets.items ≡ name_graph records.now) }
    ensures links { IfOk result (λ g. g.links.items ≡ map (newest_target records.now) g.targets.items) }
    ensures lone { IfOk result (λ g.
        AreLone g.links.items (length g.links.items) g.lone.seen.items g.lone.others.items) }
{
    let mut targets = Vec::with_capacity(alloc, records.len())?;
    let mut links = Vec::with_capacity(alloc, records.len())?;
    let mut lone = LoneNodes::with_capacity(alloc, records.len())?;
    let mut near = 0;
    for at in 0..records.len() {
        let target = next_target(records, starts, &targets, at as u32, &mut near);
        let link = newest_target(records, starts, target);
        targets.push_reserved(target);
        links.push_reserved(link);
        lone.note(at as u32, link);
    }
    Ok(Graphs {
        targets,
        links,
        lone,
    })
}

/// A place, where it is that of a record of the newest version of its page. Mostly no other of the page comes behind
/// it.
#[inline(always)]
fn newest_target(records: &[Found], starts: &[u32], target: Option<u32>) -> Option<u32>
    requires order { IsInOrder records.now }
    requires starts { AreStarts records.now starts.now }
    ensures { result ≡ newest_target records.now target }
{
    let at = target?;
    let place = at as usize;
    if place >= records.len() {
        return None;
    }
    if is_last_of_page(records, place) {
        return target;
    }
    let rec = &records[place].rec;
    let version = newest(records, starts, rec.page);
    if version == rec.version { target } else { None }
}

/// Whether no record of its page comes behind the one at a place.
#[inline(always)]
fn is_last_of_page(records: &[Found], at: usize) -> bool
    requires { at < length records.now }
    ensures { result ≡ true → suc at < length records.now →
        (record_at records.now (suc at)).page ≢ (record_at records.now at).page }
{
    let next = at + 1;
    if next == records.len() {
        return true;
    }
    if records[next].rec.page == records[at].rec.page {
        return false;
    }
    true
}

/// What decides the verdict on the newest record of a page, from the orbit of its place. The search for a
/// straddler may well end beside the place at which the last one ended.
#[inline(always)]
pub fn why_from_orbit(
    protocol: Protocol,
    records: &[Found],
    starts: &[u32],
    least: &Option<Vec<u64>>,
    logical: u32,
    orbit: Orbit,
    near: &mut usize,
) -> Why
    requires order { IsInOrder records.now }
    requires starts { AreStarts records.now starts.now }
    requires minima { IfSome least.now (λ m. AreMinima records.now [] m.items) }
    requires within { EndsBelow (length records.now) orbit }
    ensures { result ≡ why_from_orbit protocol records.now logical orbit }
{
    match orbit {
        Orbit::Ends { after, at } if after <= logical => {
            ending(
                protocol,
                records,
                starts,
                least,
                records[at as usize].rec.next,
                near,
            )
        }
        Orbit::Round { length } if u64::from(length) <= u64::from(logical) + 1 => Why::Cycle,
        _ => Why::Absent,
    }
}

/// What a link shows at which a walk ends, if it is not that to its start.
#[inline(never)]
fn ending(
    protocol: Protocol,
    records: &[Found],
    starts: &[u32],
    least: &Option<Vec<u64>>,
    link: Link,
    near: &mut usize,
) -> Why
    requires order { IsInOrder records.now }
    requires starts { AreStarts records.now starts.now }
    requires minima { IfSome least.now (λ m. AreMinima records.now [] m.items) }
    ensures { result ≡ ending protocol records.now link }
{
    if link.version < newest(records, starts, link.page) {
        why_below_newest(protocol, records, starts, least, link, near)
    } else {
        Why::Absent
    }
}

/// What a link shows that leads below the newest version of its page.
fn why_below_newest(
    protocol: Protocol,
    records: &[Found],
    starts: &[u32],
    least: &Option<Vec<u64>>,
    link: Link,
    near: &mut usize,
) -> Why
    requires order { IsInOrder records.now }
    requires starts { AreStarts records.now starts.now }
    requires minima { IfSome least.now (λ m. AreMinima records.now [] m.items) }
    ensures { result ≡ why_below_newest protocol records.now link }
{
    match protocol {
        Protocol::Scc => Why::Passed,
        Protocol::Bpcc => match straddling(records, starts, least, link, near) {
            0 => Why::Passed,
            version => Why::Straddled(version),
        },
    }
}

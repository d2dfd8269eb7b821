//! Law 7, by the orbits of the links.
ghost use Rattle.std.specs.Prelude.{◌↔◌, IsTrue};
ghost use Rattle.record_list.specs.Search.{FindsFirst};
ghost use Rattle.record_list.specs.SoundList.{LooseEnds};
ghost use Rattle.sorted_records.specs.NameGraph.{name_graph};
ghost use Rattle.sorted_records.specs.Orbits.{AreOrbits};
ghost use Rattle.scan_recovery.specs.Searches.{KnowsOrbits, LeadsOut};

use record_list::Found;
use sorted_records::{CurrentVersions, Orbit, Orbits, SortedRecords};
use tx_types::{Link, Protocol};

/// The index of the first of these records that breaks law 7, which speaks of Back Pointer Cyclic Commit
/// alone: where it is loose, its links lead to an absent name.
pub fn first_endless(
    standing: &CurrentVersions,
    orbits: &Option<Orbits>,
    records: &[Found],
) -> Option<usize>
    requires { KnowsOrbits standing.now orbits.now }
    ensures { let s = standing.now in
        FindsFirst (LooseEnds s.protocol s.list s.logical) records.now result }
{
    records
        .iter()
        .position(|found| !is_ending(standing, orbits, found, &mut 0))
}

/// Whether the links of a record, if it is loose, lead to an absent name. The first may well lead to a place near the
/// one before.
#[inline(always)]
#[tactic(auto, unfolding(record_list::specs::SoundList::LooseEnds))]
pub fn is_ending(
    standing: &CurrentVersions,
    orbits: &Option<Orbits>,
    found: &Found,
    near: &mut usize,
) -> bool
    requires { KnowsOrbits standing.now orbits.now }
    ensures { let s = standing.now in
        IsTrue result ↔ LooseEnds s.protocol s.list s.logical found.now }
{
    match orbits {
        None => true,
        Some(orbits) => is_ending_by(standing, orbits, found, near),
    }
}

/// Whether the links of a record, if it is loose, lead to an absent name, by the orbits of all links.
#[inline(always)]
#[tactic(auto, unfolding(record_list::specs::SoundList::LooseEnds))]
fn is_ending_by(
    standing: &CurrentVersions,
    orbits: &Orbits,
    found: &Found,
    near: &mut usize,
) -> bool
    requires { AreOrbits (name_graph standing.now.list) orbits.now }
    ensures { let s = standing.now in
        IsTrue result ↔ LooseEnds s.protocol s.list s.logical found.now }
{
    standing.protocol() == Protocol::Scc
        || !standing.is_loose(found.rec)
        || leads_out(standing.sorted_records(), orbits, found.rec.next, near)
}

/// Whether the links from a name lead to an absent one.
fn leads_out(chart: &SortedRecords, orbits: &Orbits, name: Link, near: &mut usize) -> bool
    requires { AreOrbits (name_graph chart.now) orbits.now }
    ensures { IsTrue result ↔ LeadsOut chart.now name }
{
    match chart.find_near(name, near) {
        None => true,
        Some(place) => match orbits.orbit(place) {
            Orbit::Ends { .. } => true,
            Orbit::Round { .. } | Orbit::Aside => false,
        },
    }
}

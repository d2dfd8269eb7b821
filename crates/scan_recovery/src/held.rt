//! Which records are responsible for loose ones.
ghost use Rattle.std.specs.Prelude.{◌≡◌, ◌<◌, true, IfOk, length, slice_set};
ghost use Rattle.record_list.specs.Current.{is_held};
ghost use Rattle.record_list.specs.Records.{record_at};
ghost use Rattle.scan_recovery.specs.Removable.{AreCopies, AreHeld, answerer_by};

use sorted_records::CurrentVersions;
use std::alloc::{AllocError, Global};
use tx_types::{Link, Protocol, Rec};

/// For each record whether it is the first of a name that is responsible for a loose record.
pub fn held_places(alloc: Global, standing: &CurrentVersions) -> Result<Vec<bool>, AllocError>
    ensures { IfOk result (λ held. AreHeld standing.now standing.now.list held.items) }
{
    let records = standing.sorted_records().records();
    let mut held = vec![in alloc; false; records.len()]?;
    for at in 0..records.len() {
        if let Some(place) = answerer(standing, records[at].rec) {
            mark(&mut held, place);
        }
    }
    Ok(held)
}

/// The place of the first record of the name that is responsible for a loose record. There is none for
/// any other record, and where none is responsible.
fn answerer(standing: &CurrentVersions, rec: Rec) -> Option<u32>
    ensures { let s = standing.now in
        result ≡ answerer_by s.protocol s.list s.logical rec }
{
    match standing.protocol() {
        Protocol::Scc => None,
        Protocol::Bpcc => {
            if !standing.is_loose(rec) {
                return None;
            }
            let version = standing.responsible(rec.next);
            if 0 < version {
                let page = rec.next.page;
                standing.sorted_records().find(Link { page, version })
            } else {
                None
            }
        }
    }
}

/// Whether one of the sorted records is responsible for a loose one.
pub fn is_held(standing: &CurrentVersions, held: &[bool], at: usize) -> bool
    requires copies { AreCopies standing.now.list }
    requires held { AreHeld standing.now standing.now.list held.now }
    requires within { at < length standing.now.list }
    ensures { let s = standing.now in
        result ≡ is_held s.protocol s.list s.logical (record_at s.list at) }
{
    let chart = standing.sorted_records();
    let rec = chart.records()[at].rec;
    match chart.find(rec.name()) {
        Some(place) => held[place as usize],
        None => false,
    }
}

/// Marks a number.
pub fn mark(marks: &mut Vec<bool>, number: u32)
    requires { number < length marks.old.items }
    ensures { marks.new.items ≡ slice_set marks.old.items number true }
{
    marks[number as usize] = true;
}

//! Which records are responsible for loose ones. Each loose record asks for the name of one; and a record of that
//! name is responsible where its back version is below a link of those that ask.
ghost use Rattle.std.specs.Prelude.{◌≡◌, ◌<◌, Some, IfOk, IfSome, length};
ghost use Rattle.record_list.specs.Current.{is_held};
ghost use Rattle.flash_picture.specs.Held.{AreAsked, asked_in_bpcc, asked_name, place_of_name, raised};

use sorted_records::CurrentVersions;
use std::alloc::{AllocError, Global};
use tx_types::{Link, Protocol, Rec};

/// For the first record of each name the greatest version at which a loose record links that asks for the name,
/// 0 where none does. Under Simple Cyclic Commit none does. A record of the name is held if its back version is below
/// this one. A mark for the name would not do: where law 2 is broken, two records of one name may have different back
/// versions.
pub fn asked_versions(alloc: Global, standing: &CurrentVersions) -> Result<Vec<u64>, AllocError>
    ensures { IfOk result (λ asked. AreAsked standing.now standing.now.list asked.items) }
{
    let records = standing.sorted_records().records();
    let mut asked = vec![in alloc; 0; records.len()]?;
    for at in 0..records.len() {
        ask(standing, records[at].rec, &mut asked);
    }
    Ok(asked)
}

/// Notes what a record asks for.
fn ask(standing: &CurrentVersions, rec: Rec, asked: &mut Vec<u64>)
    requires { length asked.old.items ≡ length standing.now.list }
    ensures { let s = standing.now in asked.new.items ≡ raised
        (place_of_name s.list (asked_name s.protocol s.list s.logical rec)) rec.next.version asked.old.items }
{
    if let Some(place) = place_of_name(standing, asked_name(standing, rec)) {
        raise(place, rec.next.version, asked);
    }
}

/// The name of the record that is responsible for a loose one, if there is one; nothing for any other record.
fn asked_name(standing: &CurrentVersions, rec: Rec) -> Option<Link>
    ensures { let s = standing.now in result ≡ asked_name s.protocol s.list s.logical rec }
{
    match standing.protocol() {
        Protocol::Scc => None,
        Protocol::Bpcc => asked_in_bpcc(standing, rec),
    }
}

/// The name of the record that is responsible for a loose one under Back Pointer Cyclic Commit, if there is one.
fn asked_in_bpcc(standing: &CurrentVersions, rec: Rec) -> Option<Link>
    requires { standing.now.protocol ≡ Protocol.Bpcc }
    ensures { let s = standing.now in result ≡ asked_in_bpcc s.list s.logical rec }
{
    let version = standing.responsible(rec.next);
    if standing.is_loose(rec) && rec.next.version < version {
        Some(Link {
            page: rec.next.page,
            version,
        })
    } else {
        None
    }
}

/// The place of the first record of a name, if there is a name and a record.
fn place_of_name(standing: &CurrentVersions, name: Option<Link>) -> Option<u32>
    ensures place { result ≡ place_of_name standing.now.list name }
    ensures within { IfSome result (λ place. place < length standing.now.list) }
{
    match name {
        Some(name) => standing.sorted_records().find(name),
        None => None,
    }
}

/// Raises the number of a place to this one.
fn raise(place: u32, version: u64, asked: &mut Vec<u64>)
    requires { place < length asked.old.items }
    ensures { asked.new.items ≡ raised (Some place) version asked.old.items }
{
    let at = place as usize;
    asked[at] = asked[at].max(version);
}

/// Whether a record is responsible for a loose one, by what those ask for.
pub fn is_held(standing: &CurrentVersions, asked: &[u64], rec: Rec) -> bool
    requires { AreAsked standing.now standing.now.list asked.now }
    ensures { let s = standing.now in result ≡ is_held s.protocol s.list s.logical rec }
{
    match standing.sorted_records().find(rec.name()) {
        Some(place) => rec.back < asked[place as usize],
        None => false,
    }
}

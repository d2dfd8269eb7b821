//! What the laws ask of loose records.
ghost use Rattle.std.specs.Prelude.{◌≡◌, ℕ, ◌↔◌, false, IsTrue};
ghost use Rattle.tx_types.specs.declared.config.Protocol.TheVariants.{Bpcc as BpccRule};
ghost use Rattle.record_list.specs.Records.{is_present};
ghost use Rattle.record_list.specs.Search.{FindsFirst};
ghost use Rattle.record_list.specs.SoundList.{LooseIsShown, LooseEnds, follow};

use record_list::{Found, current_version, is_loose, link_of, present};
use straddle_sets::responsible_version;
use tx_types::{Link, Protocol};

/// The index of the first record that breaks law 6: where it is loose, its back version is the
/// current one of its page, its link is not to a current record, and where its link is below the
/// current version there, a record is responsible for it.
pub fn first_unshown(list: &[Found], logical: u32) -> Option<usize>
    ensures { FindsFirst (LooseIsShown BpccRule list.now logical) list.now result }
{
    list.iter()
        .position(|found| !is_shown(list, logical, found))
}

#[tactic(auto, unfolding(record_list::specs::SoundList::LooseIsShown))]
fn is_shown(list: &[Found], logical: u32, found: &Found) -> bool
    ensures { IsTrue result ↔ LooseIsShown BpccRule list.now logical found.now }
{
    let rec = &found.rec;
    let current = current_version(Protocol::Bpcc, list, logical, rec.page);
    if rec.version <= current {
        return true;
    }
    let linked = current_version(Protocol::Bpcc, list, logical, rec.next.page);
    rec.back == current
        && rec.next.version != linked
        && (rec.next.version > linked || responsible_version(list, logical, rec.next) != 0)
}

/// The index of the first record that breaks law 7: where it is loose, its links lead to an absent
/// name.
pub fn first_endless(list: &[Found], logical: u32) -> Option<usize>
    ensures { FindsFirst (LooseEnds BpccRule list.now logical) list.now result }
{
    list.iter()
        .position(|found| !is_ending(list, logical, found))
}

#[tactic(auto, unfolding(record_list::specs::SoundList::LooseEnds))]
fn is_ending(list: &[Found], logical: u32, found: &Found) -> bool
    ensures { IsTrue result ↔ LooseEnds BpccRule list.now logical found.now }
{
    !is_loose(Protocol::Bpcc, list, logical, found.rec) || leads_out(list, found.rec.next)
}

/// Whether the links from a name lead to an absent one. If they ever do, they do within as many
/// links as there are records. The names met before are distinct, and no two of them stand at one place of the list. An
/// absent name leads no further, so the search may stop at the first.
#[tactic(auto, using(crate::proofs::Chains::follow_more, crate::proofs::Chains::reached))]
fn leads_out(list: &[Found], name: Link) -> bool
    ensures { IsTrue result ↔ ((n : ℕ) × (is_present list.now (follow list.now name n) ≡ false)) }
{
    let mut name = name;
    for _link in 0..list.len() {
        if !present(list, name) {
            return true;
        }
        name = link_of(list, name);
    }
    !present(list, name)
}

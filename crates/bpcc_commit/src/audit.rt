ghost use Rattle.tx_types.specs.declared.config.Protocol.TheVariants.{Bpcc as BpccRule};
ghost use Rattle.record_list.specs.Records.{IsScanned};
ghost use Rattle.record_list.specs.SoundList.{IsFirstBreach};

use crate::loose::{first_endless, first_unshown};
use record_list::{
    Breach, Found, breach_at, first_contradiction, first_early_link, first_misplaced,
    first_shared_link, first_without_current,
};
use tx_types::Protocol;

/// The first of the laws of a sound list that is broken, and the slot that it names.
#[tactic(auto, using(record_list::proofs::OfFacts::Breaches::first_breaches, crate::proofs::LooseBreaches::last_breaches))]
pub fn first_breach(list: &[Found], logical: u32) -> Option<Breach>
    requires scanned { IsScanned list.now }
    ensures { IsFirstBreach BpccRule list.now logical result }
{
    if let Some(at) = first_misplaced(list, logical) {
        return Some(breach_at(list, 1, at));
    }
    if let Some(at) = first_contradiction(list) {
        return Some(breach_at(list, 2, at));
    }
    if let Some(at) = first_shared_link(list) {
        return Some(breach_at(list, 3, at));
    }
    if let Some(at) = first_without_current(Protocol::Bpcc, list, logical) {
        return Some(breach_at(list, 4, at));
    }
    if let Some(at) = first_early_link(Protocol::Bpcc, list, logical) {
        return Some(breach_at(list, 5, at));
    }
    if let Some(at) = first_unshown(list, logical) {
        return Some(breach_at(list, 6, at));
    }
    if let Some(at) = first_endless(list, logical) {
        return Some(breach_at(list, 7, at));
    }
    None
}

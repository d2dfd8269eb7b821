ghost use Rattle.tx_types.specs.declared.config.Protocol.TheVariants.{Scc as SccRule};
ghost use Rattle.record_list.specs.Records.{IsScanned};
ghost use Rattle.record_list.specs.SoundList.{IsFirstBreach};

use record_list::{
    Breach, Found, breach_at, first_contradiction, first_early_link, first_misplaced,
    first_shared_link, first_without_current,
};
use tx_types::Protocol;

/// The first of the laws of a sound list that is broken, and the slot that it names. Laws 6 and 7 say
/// nothing of this protocol.
#[tactic(auto, using(record_list::proofs::OfFacts::Breaches::first_breaches), unfolding(record_list::specs::SoundList::LooseIsShown, record_list::specs::SoundList::LooseEnds))]
pub fn first_breach(list: &[Found], logical: u32) -> Option<Breach>
    requires scanned { IsScanned list.now }
    ensures { IsFirstBreach SccRule list.now logical result }
{
    if let Some(at) = first_misplaced(list, logical) {
        return Some(breach_at(list, 1, at));
    }
    if let Some(at) = first_contradiction(list) {
        return Some(breach_at(list, 2, at));
    }
    if let Some(at) = first_shared_link(list) {
        return Some(breach_at(list, 3, at));
    }
    if let Some(at) = first_without_current(Protocol::Scc, list, logical) {
        return Some(breach_at(list, 4, at));
    }
    if let Some(at) = first_early_link(Protocol::Scc, list, logical) {
        return Some(breach_at(list, 5, at));
    }
    None
}

ghost use Rattle.std.specs.Prelude.{◌≡◌, ◌<◌, true, false, IfSome, IfNone, length, slice_index_or};
ghost use Rattle.tx_types.specs.declared.config.Protocol.TheVariants.{Bpcc};
ghost use Rattle.record_list.specs.Current.{answers_for, responsible, straddling_upto};
ghost use Rattle.record_list.specs.Records.{greatest, nothing, record_at};
ghost use Rattle.record_list.specs.Verdict.{straddles};
ghost use Rattle.straddle_sets.specs.Responsible.{responsible_index, may_answer, IsBehind, FindsAnswer};

use record_list::{Found, current_version, is_loose};
use tx_types::{Link, Protocol, Rec};

/// Whether a version lies between a record's back version and its own.
pub fn straddles(rec: Rec, version: u64) -> bool
    ensures { result ≡ straddles rec version }
{
    rec.back < version && version < rec.version
}

/// The greatest version, up to `top`, of a record that straddles this name, 0 for none. Up to the current version it is
/// the version of the responsible record. Just below the newest version of a page loose records may straddle of which
/// none is responsible.
#[tactic(auto, using(record_list::proofs::OfFacts::Greatest::greatest_step))]
pub(crate) fn straddling_up_to(list: &[Found], name: Link, top: u64) -> u64
    ensures { result ≡ greatest (straddling_upto top name) list.now }
{
    let mut best = 0;
    for found in list {
        let rec = found.rec;
        if rec.page == name.page && straddles(rec, name.version) && rec.version <= top {
            best = rec.version.max(best);
        }
    }
    best
}

/// The version of the record that is responsible for the loose records which link to this name, 0
/// for none: the greatest that straddles it, up to the current version of its page.
pub fn responsible_version(list: &[Found], logical: u32, name: Link) -> u64
    ensures { result ≡ responsible Bpcc list.now logical name }
{
    let top = current_version(Protocol::Bpcc, list, logical, name.page);
    straddling_up_to(list, name, top)
}

/// Whether the first record is responsible for the second.
pub fn answers_for(list: &[Found], logical: u32, first: Rec, second: Rec) -> bool
    ensures { result ≡ answers_for Bpcc list.now logical first second }
{
    // the walks come last: most records link to another page
    first.page == second.next.page
        && straddles(first, second.next.version)
        && first.version == responsible_version(list, logical, second.next)
        && is_loose(Protocol::Bpcc, list, logical, second)
}

/// The index of the record that is responsible for the one at this index, in its lowest slot. There
/// is none for a record that is not loose. Where law 2 is broken, another record of its name that does not straddle the
/// link is passed by. The list may be in any order: the index is the first one.
#[tactic(auto, using(crate::proofs::Homes::unanswered))]
pub fn responsible(list: &[Found], logical: u32, at: usize) -> Option<usize>
    requires { at < length list.now }
    ensures { result ≡ responsible_index list.now logical (record_at list.now at) }
{
    let rec = list[at].rec;
    if !is_loose(Protocol::Bpcc, list, logical, rec) {
        return None;
    }
    let version = responsible_version(list, logical, rec.next);
    list.iter().position(|other| {
        other.rec.page == rec.next.page
            && straddles(other.rec, rec.next.version)
            && other.rec.version == version
    })
}

/// The index of the record that answers for a link, by the current version of its page: of those of the
/// page that straddle the link, with versions up to the current one, that of the greatest version, in its
/// lowest slot. The list may be in any order. An opening asks it among the records of one page, where these are few.
/// Where two records of one version stand in one slot, it returns one of them.
pub fn responsible_of(list: &[Found], link: Link, current: u64) -> Option<usize>
    ensures { FindsAnswer list.now link current (length list.now) result }
{
    let mut answer = None;
    for at in 0..list.len() {
        if may_answer(list[at].rec, link, current) && comes_before(list, at, answer) {
            answer = Some(at);
        }
    }
    answer
}

/// Whether a record may answer for a link, by the current version of the link's page.
fn may_answer(rec: Rec, link: Link, current: u64) -> bool
    ensures { result ≡ may_answer link current rec }
{
    rec.page == link.page && straddles(rec, link.version) && rec.version <= current
}

/// Whether a record has a greater version than another one, or the same in a lower slot.
fn comes_before(list: &[Found], at: usize, other: Option<usize>) -> bool
    requires at { at < length list.now }
    requires other { IfSome other (λ k. k < length list.now) }
    ensures before { IfSome other (λ k. result ≡ true →
        IsBehind (slice_index_or list.now k nothing) (slice_index_or list.now at nothing)) }
    ensures behind { IfSome other (λ k. result ≡ false →
        IsBehind (slice_index_or list.now at nothing) (slice_index_or list.now k nothing)) }
    ensures first { IfNone other (result ≡ true) }
{
    match other {
        None => true,
        Some(k) => {
            let (one, two) = (&list[at], &list[k]);
            two.rec.version < one.rec.version
                || one.rec.version == two.rec.version && one.slot.0 < two.slot.0
        }
    }
}

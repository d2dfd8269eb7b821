//! Claims on a list of records, as `newest 0 = 4`: what is asked, of what, and the answer.

ghost use Rattle.std.specs.Prelude.{All};
ghost use Rattle.record_list.specs.Records.{IsScanned};
ghost use Rattle.record_list.specs.SoundList.{CopiesAgree, OwnPageExists};
ghost use Rattle.sorted_records.specs.SortedRecords.{Sorts};

use crate::samples::{
    halves, has_its_pages, is_number, is_scanned, is_version, link, names_breach, number_at, rec,
    says, word,
};
use bpcc_commit::Bpcc;
use record_list::{
    CommitRule, Found, Verdict, Why, counts, current_version, first_contradiction,
    first_early_link, first_misplaced, first_without_current, mention, newest, next_older, present,
    reason, straddling,
};
use scc_commit::Scc;
use sorted_records::{CurrentVersions, Orbit, Orbits, SortedRecords, name_orbits};
use std::alloc::Global;
use straddle_sets::{answers_for, responsible, responsible_of, responsible_version, straddles};
use tx_types::{Link, Protocol};

/// What is asked of a list: a word, up to three numbers or a name and a number, and the answer.
#[derive(Drop)]
struct Claim<'a> {
    what: &'a str,
    numbers: [u32; 3],
    name: Link,
    want: &'a str,
}

/// The claim of a text. A number that is left out is none of any list.
fn claim_of(text: &str) -> Claim<'_> {
    let (asked, want) = halves(text, " = ");
    Claim {
        what: word(asked, 0),
        numbers: [
            number_or(asked, 1),
            number_or(asked, 2),
            number_or(asked, 3),
        ],
        name: link(word(asked, 1)).unwrap_or(Link {
            page: u32::MAX,
            version: 0,
        }),
        want,
    }
}

/// The number at a place of a text, or the greatest one.
fn number_or(text: &str, at: usize) -> u32 {
    number_at(text, at).unwrap_or(u32::MAX)
}

/// Whether the text is the word for this.
fn tells_truth(want: &str, is_true: bool) -> bool {
    want == if is_true { "yes" } else { "no" }
}

/// Whether the text tells a reason: `cycle`, `passed`, `absent`, or `5` where version 5 straddles the link.
fn tells(want: &str, why: Why) -> bool {
    match why {
        Why::Cycle => want == "cycle",
        Why::Passed => want == "passed",
        Why::Absent => want == "absent",
        Why::Straddled(by) => is_version(want, by),
    }
}

/// Whether the text tells an orbit: `aside`, `round 2`, or `ends 1 4`.
fn tells_orbit(want: &str, orbit: Orbit) -> bool {
    let word_is = word(want, 0);
    match orbit {
        Orbit::Aside => word_is == "aside",
        Orbit::Round { length } => word_is == "round" && number_or(want, 1) == length,
        Orbit::Ends { after, at } => {
            word_is == "ends" && number_or(want, 1) == after && number_or(want, 2) == at
        }
    }
}

/// Whether a claim on any list is right.
fn is_plain(list: &[Found], logical: u32, claim: &Claim) -> bool {
    let [first, second, _] = claim.numbers;
    let (name, want) = (claim.name, claim.want);
    match claim.what {
        "length" => is_version(want, list.len() as u64),
        "newest" => is_version(want, newest(list, first)),
        "mention" => is_version(want, mention(list, first)),
        "older" => is_version(want, next_older(list, first, u64::from(second))),
        "present" => tells_truth(want, present(list, name)),
        "straddling" => is_version(want, straddling(list, name)),
        "counted" => is_version(want, responsible_version(list, logical, name)),
        "answer" => says(want, responsible_of(list, name, u64::from(second))),
        "misplaced" => says(want, first_misplaced(list, logical)),
        _ => false,
    }
}

/// Whether a claim on a record of a list is right.
fn is_of_record(list: &[Found], logical: u32, claim: &Claim) -> bool {
    let [first, second, _] = claim.numbers;
    let (at, other) = (first as usize, second as usize);
    if at >= list.len() {
        return false;
    }
    let found = list[at];
    match claim.what {
        "slot" => is_number(claim.want, found.slot.0),
        "named" => rec(claim.want) == Some(found.rec),
        "straddles" => tells_truth(claim.want, straddles(found.rec, u64::from(second))),
        "responsible" => says(claim.want, responsible(list, logical, at)),
        "answers" => {
            other < list.len()
                && tells_truth(
                    claim.want,
                    answers_for(list, logical, found.rec, list[other].rec),
                )
        }
        _ => false,
    }
}

/// Whether a claim on a list under a protocol is right, by plain loops.
fn is_under(list: &[Found], protocol: Protocol, logical: u32, claim: &Claim) -> bool {
    let (page, want) = (claim.numbers[0], claim.want);
    match claim.what {
        "reason" => tells(want, reason(protocol, list, logical, page)),
        "version" => is_version(want, current_version(protocol, list, logical, page)),
        "alone" => says(want, first_without_current(protocol, list, logical)),
        "early" => says(want, first_early_link(protocol, list, logical)),
        _ => false,
    }
}

/// Whether the text tells the verdict on a page and what decides it, or is `-` where the page has no record.
fn tells_verdict<R: CommitRule>(want: &str, list: &[Found], logical: u32, page: u32) -> bool
    requires scanned { IsScanned list.now }
    requires pages { All (OwnPageExists logical) list.now }
{
    if newest(list, page) == 0 {
        return want == "-";
    }
    let (verdict, why) = R::verdict(list, logical, page);
    let counts = want == "cycle" || want == "passed";
    tells(want, why) && verdict == why.verdict() && matches!(verdict, Verdict::Committed) == counts
}

/// Whether the text tells what becomes of a record before a page has a version.
fn tells_fate<R: CommitRule>(want: &str, list: &[Found], logical: u32, of: [u32; 3]) -> bool
    requires scanned { IsScanned list.now }
    requires pages { All (OwnPageExists logical) list.now }
{
    let [at, page, below] = of;
    let at = at as usize;
    if at >= list.len() {
        return false;
    }
    let is_held = R::held(list, logical, at);
    match R::must_go(list, logical, at, page, u64::from(below)) {
        true => want == "goes" && !is_held,
        false => want == if is_held { "held" } else { "stays" },
    }
}

/// Whether a claim on what a rule makes of a list is right.
fn is_by<R: CommitRule>(list: &[Found], logical: u32, claim: &Claim) -> bool
    requires scanned { IsScanned list.now }
{
    let (page, want) = (claim.numbers[0], claim.want);
    if claim.what == "law" {
        return names_breach(want, R::audit(list, logical));
    }
    if !has_its_pages(list, logical) {
        return false;
    }
    match claim.what {
        "why" => tells_verdict::<R>(want, list, logical, page),
        "current" => is_version(want, R::current(list, logical, page)),
        "record" => tells_fate::<R>(want, list, logical, claim.numbers),
        _ => false,
    }
}

/// Whether sorted records name this breach of law 9.
fn names_count(alloc: Global, chart: &SortedRecords, list: &[Found], want: &str) -> bool
    requires scanned { IsScanned list.now }
    requires sorts { Sorts list.now chart.now }
    requires copies { All (CopiesAgree list.now) list.now }
{
    match name_orbits(alloc, chart) {
        Ok(orbits) => names_breach(want, sorted_records::counts(chart, &orbits, list)),
        Err(_) => false,
    }
}

/// Whether a list and its sorted records name this breach of law 9.
fn names_counts(alloc: Global, list: &[Found], want: &str) -> bool
    requires scanned { IsScanned list.now }
{
    if first_contradiction(list).is_some() || !names_breach(want, counts(list)) {
        return false;
    }
    match SortedRecords::of(alloc, list) {
        Ok(chart) => names_count(alloc, &chart, list, want),
        Err(_) => false,
    }
}

/// Whether a claim on a list in order of slots is right.
fn is_of_scan(
    alloc: Global,
    list: &[Found],
    protocol: Protocol,
    logical: u32,
    claim: &Claim,
) -> bool
    requires { IsScanned list.now }
{
    if claim.what == "counts" {
        return names_counts(alloc, list, claim.want);
    }
    match protocol {
        Protocol::Scc => is_by::<Scc>(list, logical, claim),
        Protocol::Bpcc => is_by::<Bpcc>(list, logical, claim),
    }
}

/// Whether a claim on sorted records is right.
fn is_sorted(chart: &SortedRecords, protocol: Protocol, logical: u32, claim: &Claim) -> bool {
    let [first, second, _] = claim.numbers;
    let (name, want) = (claim.name, claim.want);
    match claim.what {
        "newest" => is_version(want, chart.newest(first)),
        "older" => is_version(want, chart.next_older(first, u64::from(second))),
        "find" => match chart.find(name) {
            Some(at) => is_number(want, at),
            None => want == "-",
        },
        "link" => link(want) == Some(chart.link_of(name)),
        "back" => is_version(want, chart.back_of(name)),
        "straddling" => is_version(want, chart.straddling(name)),
        "upto" => is_version(want, chart.straddling_up_to(name, u64::from(second))),
        "orbit" => match chart.orbit(first) {
            Some(orbit) => tells_orbit(want, orbit),
            None => false,
        },
        "why" => tells(want, chart.why(protocol, logical, first)),
        "current" => is_version(want, chart.current(protocol, logical, first)),
        "responsible" => is_version(want, chart.responsible(logical, name)),
        "length" => is_plain(chart.records(), logical, claim),
        _ => is_of_record(chart.records(), logical, claim),
    }
}

/// Whether a claim on how the pages of sorted records stand is right.
fn is_standing(
    alloc: Global,
    chart: SortedRecords,
    protocol: Protocol,
    logical: u32,
    claim: &Claim,
) -> bool {
    match CurrentVersions::new(alloc, chart, protocol, logical) {
        Ok(standing) => match claim.what {
            "current" => is_version(claim.want, standing.current(claim.numbers[0])),
            "responsible" => is_version(claim.want, standing.responsible(claim.name)),
            _ => false,
        },
        Err(_) => false,
    }
}

/// Whether the claim of a text is right of a list, of its sorted records, or of how its pages stand.
pub fn is_right(
    alloc: Global,
    kind: &str,
    list: &[Found],
    protocol: Protocol,
    logical: u32,
    text: &str,
) -> bool {
    let claim = claim_of(text);
    if kind == "list" {
        return is_plain(list, logical, &claim)
            || is_of_record(list, logical, &claim)
            || is_under(list, protocol, logical, &claim)
            || is_scanned(list) && is_of_scan(alloc, list, protocol, logical, &claim);
    }
    match SortedRecords::of(alloc, list) {
        Ok(chart) => {
            if kind == "sorted" {
                let is_so = is_sorted(&chart, protocol, logical, &claim);
                drop(chart);
                is_so
            } else {
                is_standing(alloc, chart, protocol, logical, &claim)
            }
        }
        Err(_) => false,
    }
}

/// Whether the orbit of a node of a graph is that of the text: 0 leads to 1, 1 to 2 and back to 1; 3 to 4, which is the
/// end; 5 to itself; 6 to 3.
pub fn is_orbit(alloc: Global, line: &str) -> bool {
    let (node, want) = halves(line, " = ");
    let graph = [Some(1), Some(2), Some(1), Some(4), None, Some(5), Some(3)];
    match (Orbits::new(alloc, &graph), number_at(node, 0)) {
        (Ok(orbits), Some(node)) => node < 7 && tells_orbit(want, orbits.orbit(node)),
        _ => false,
    }
}

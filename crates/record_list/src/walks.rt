#![tactic(auto, using(crate::proofs::OfFacts::Greatest::greatest_step))]

ghost use Rattle.std.specs.Prelude.{◌≡◌};
ghost use Rattle.record_list.specs.Current.{cur};
ghost use Rattle.record_list.specs.Verdict.{link_of, back_of, straddling, why_below_newest, why, verdict_of};

use crate::{Found, Verdict, Why, newest, next_older};
use tx_types::{Link, Protocol};

/// The link of the record with this name in the lowest slot, and the name itself where no record has it.
pub fn link_of(list: &[Found], name: Link) -> Link
    ensures { result ≡ link_of list.now name }
{
    for found in list {
        if found.rec.has_name(name) {
            return found.rec.next;
        }
    }
    name
}

/// The back version of the record with this name in the lowest slot, 0 where no record has it.
fn back_of(list: &[Found], name: Link) -> u64
    ensures { result ≡ back_of list.now name }
{
    for found in list {
        if found.rec.has_name(name) {
            return found.rec.back;
        }
    }
    0
}

/// The greatest version of a record that straddles this name, 0 for none: one of its page with the
/// version of the name between its back version and its own. A verdict names this version, so all records of the page
/// are looked at, and not only those up to the current one.
pub fn straddling(list: &[Found], name: Link) -> u64
    ensures { result ≡ straddling list.now name }
{
    let mut best = 0;
    for found in list {
        let rec = &found.rec;
        if rec.page == name.page && rec.back < name.version && name.version < rec.version {
            best = rec.version.max(best);
        }
    }
    best
}

/// What a link shows that leads below the newest version of its page.
fn why_below_newest(protocol: Protocol, list: &[Found], link: Link) -> Why
    ensures { result ≡ why_below_newest protocol list.now link }
{
    match protocol {
        Protocol::Scc => Why::Passed,
        Protocol::Bpcc => match straddling(list, link) {
            0 => Why::Passed,
            version => Why::Straddled(version),
        },
    }
}

/// What decides the verdict on the newest record of a page: where the walk from it ends.
#[tactic(auto, using(crate::proofs::walks::reason::Answers::Walk::walk_turn))]
pub fn reason(protocol: Protocol, list: &[Found], logical: u32, page: u32) -> Why
    ensures { result ≡ why protocol list.now logical page }
{
    let start = Link {
        page,
        version: newest(list, page),
    };
    let mut link = link_of(list, start);
    let mut turns = u64::from(logical) + 1;
    while turns > 0 {
        let top = newest(list, link.page);
        if link.version > top {
            return Why::Absent;
        }
        if link.version < top {
            return why_below_newest(protocol, list, link);
        }
        if link.page == start.page && link.version == start.version {
            return Why::Cycle;
        }
        link = link_of(list, link);
        turns -= 1;
    }
    Why::Absent
}

impl Why {
    /// The verdict that this decides.
    pub fn verdict(self) -> Verdict
        ensures { result ≡ verdict_of self }
    {
        match self {
            Why::Cycle | Why::Passed => Verdict::Committed,
            Why::Absent | Why::Straddled(_) => Verdict::Uncommitted,
        }
    }
}

/// The current version of a page, 0 for none.
#[tactic(auto)]
pub fn current_version(protocol: Protocol, list: &[Found], logical: u32, page: u32) -> u64
    ensures { result ≡ cur protocol list.now logical page }
{
    let version = newest(list, page);
    match reason(protocol, list, logical, page).verdict() {
        Verdict::Committed => version,
        Verdict::Uncommitted => match protocol {
            Protocol::Scc => next_older(list, page, version),
            Protocol::Bpcc => back_of(list, Link { page, version }),
        },
    }
}

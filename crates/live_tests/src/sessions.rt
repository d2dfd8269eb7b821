//! Sessions that are served on a file, over each loss of power. A line has two sessions, each a list of commands with
//! their replies, and numbers. Where a loss leaves a file behind a part of the first session, the device must have the
//! array that the replies promise, with or without what the command in hand completes; and the second session must be
//! answered so on it. The numbers are how many losses are tried, and how many of them left what the command in hand
//! completes: under Simple Cyclic Commit, and under Back Pointer Cyclic Commit.
mod ledger;
mod losing;
mod serving;

use crate::lines::{LineTest, assert_lines, is_count, sides, word};
use crate::losing::Tally;
use crate::sessions::losing::{Sessions, are_losses_of_sessions_right};
use std::alloc::Global;
use tx_types::{Config, Protocol};

/// A device of two dies of two blocks of two slots, with three pages.
fn config(protocol: Protocol) -> Config {
    Config {
        protocol,
        page_bytes: 16,
        pages_per_block: 2,
        blocks_per_die: 2,
        dies: 2,
        logical: 3,
        pending: 2,
    }
}

/// Whether the losses of sessions are right, and there are so many of them.
fn are_right(alloc: Global, protocol: Protocol, text: &str, losses: &str, whole: &str) -> bool {
    let (first, second) = text.split_once(" | ").unwrap_or((text, ""));
    let config = config(protocol);
    let sessions = Sessions {
        config,
        first,
        second,
    };
    let mut tally = Tally::new();
    are_losses_of_sessions_right(alloc, sessions, &mut tally)
        && is_count(losses, tally.losses)
        && is_count(whole, tally.whole)
}

/// Sessions under both protocols.
struct Served;

impl LineTest for Served {
    fn is_right(alloc: Global, line: &str) -> bool {
        let (text, counts) = sides(line);
        are_right(alloc, Protocol::Scc, text, word(counts, 0), word(counts, 1))
            && are_right(
                alloc,
                Protocol::Bpcc,
                text,
                word(counts, 2),
                word(counts, 3),
            )
    }
}

/// Transactions that are finished at once, or step by step, or aborted. In the third line blocks are collected for
/// room.
const TRANSACTIONS: &str = "\
write 1 0=41 > open 1 1; finish 1 > done 1 | write 2 1=51 > open 2 1; finish 2 > done 2 => 5 1 5 1
write 1 0=41 1=42 > open 1 2; finish 1 > done 1; write 2 0=43 1=44 > open 2 2; finish 2 > done 2 \
| write 3 0=51 2=52 > open 3 2; finish 3 > done 3 => 21 2 21 2
write 1 0=41 1=42 > open 1 2; finish 1 > done 1; write 2 1=43 2=44 > open 2 2; finish 2 > done 2; \
write 3 0=45 1=46 > open 3 2; finish 3 > done 3; write 4 2=47 0=48 > open 4 2; finish 4 > done 4; \
write 5 1=49 2=4a > open 5 2; finish 5 > done 5 \
| write 6 0=51 1=52 > open 6 2; finish 6 > done 6; write 7 2=53 > open 7 1; finish 7 > done 7 => 41 5 41 5
write 1 0=41 1=42 > open 1 2; step 1 > wrote 1 1 2; step 1 > done 1; write 2 0=43 1=44 > open 2 2; \
step 2 > wrote 2 1 2; abort 2 > aborted 2; write 3 1=45 > open 3 1; step 3 > done 3 \
| write 4 0=51 1=52 > open 4 2; finish 4 > done 4 => 25 2 17 2";

#[test]
fn transactions_outlive_losses(rt: HostRuntime) {
    assert_lines::<Served>(&rt, rt.alloc(), TRANSACTIONS);
}

/// Several that go on at once, and blocks that are collected.
const TOGETHER: &str = "\
write 1 0=41 > open 1 1; write 2 1=42 > open 2 1; stepall > moved 2 finished 2; write 3 0=43 > open 3 1; \
write 4 2=44 > open 4 1; stepall > moved 2 finished 2 \
| write 5 0=51 1=52 > open 5 2; stepall > moved 1 finished 0; stepall > moved 1 finished 1 => 21 10 21 10
write 1 0=41 1=42 > open 1 2; finish 1 > done 1; write 2 0=43 1=44 > open 2 2; finish 2 > done 2; \
collect > collected; write 3 1=45 2=46 > open 3 2; step 3 > wrote 3 1 2; step 3 > done 3; collect > collected \
| write 4 0=51 > open 4 1; finish 4 > done 4 => 41 3 41 3
write 1 0=41 1=42 > open 1 2; finish 1 > done 1; write 2 0=43 > open 2 1; finish 2 > done 2; collect > collected; \
write 3 1=44 2=45 > open 3 2; step 3 > wrote 3 1 2; collect > nothing; step 3 > done 3 \
| write 4 0=51 > open 4 1; finish 4 > done 4 => 31 3 31 3";

#[test]
fn several_transactions_and_collections_outlive_losses(rt: HostRuntime) {
    assert_lines::<Served>(&rt, rt.alloc(), TOGETHER);
}

/// Cuts and faults of the flash, beside the losses of its file.
const BREAKS: &str = "\
write 1 0=41 1=42 > open 1 2; fault 1 bad > armed; finish 1 > fault; finish 1 > done 1; write 2 1=43 > open 2 1; \
cut 1 all > armed; finish 2 > cut; read 1 > page 1 43000000000000000000000000000000; write 3 0=44 > open 3 1; \
finish 3 > done 3 | write 4 1=51 > open 4 1; finish 4 > done 4 => 23 2 23 2
write 1 0=41 1=42 > open 1 2; finish 1 > done 1; write 2 0=43 > open 2 1; fault 1 all > armed; step 2 > fault; \
step 2 > done 2; write 3 0=44 1=45 > open 3 2; cut 2 bad > armed; finish 3 > cut; \
read 0 > page 0 43000000000000000000000000000000; write 4 1=46 > open 4 1; finish 4 > done 4 \
| write 5 0=51 > open 5 1; finish 5 > done 5 => 37 3 33 3
write 1 0=41 > open 1 1; write 2 1=42 > open 2 1; cut 1 none > armed; stepall > cut; write 3 0=43 > open 3 1; \
write 4 1=44 > open 4 1; fault 1 all > armed; stepall > dropped; \
read 0 > page 0 43000000000000000000000000000000; read 1 > page 1 44000000000000000000000000000000 \
| write 5 0=51 > open 5 1; finish 5 > done 5 => 11 5 11 5";

#[test]
fn transactions_outlive_losses_and_breaks(rt: HostRuntime) {
    assert_lines::<Served>(&rt, rt.alloc(), BREAKS);
}

//! What the flash is when a reply is given.
use cut_replay::serve;
use desk_tasks::{KeptReplies, blank_flash, default_config};
use flash_model::Seen;
use host_protocol::parse;
use mem_flash::MemFlash;
use scc_commit::Scc;
use std::alloc::Global;
use tx_types::{Protocol, Slot};

/// The reply to each command, before which this many slots from the first on are complete.
const REPLIES: &str = "open 1 2\nwrote 1 1 2\ndone 1";

/// What the slot of a record shows: page 0 with byte 1, version 1, and a link to page 1, version 1.
const CELL: &str = "\
    0100000000000000000000000000000054584652020100000000000001000000010000000000000001000000000000000000000000000000\
    020000000000000000000000000000000000000000000000";

/// What it shows where nothing was programmed.
const NOTHING: &str = "\
    ffffffffffffffffffffffffffffffffffffffffffffffffffffffffffffffffffffffffffffffffffffffffffffffffffffffffffffffff\
    ffffffffffffffffffffffffffffffffffffffffffffffff";

/// How many slots were complete when a reply was given.
fn complete_slots(kept: &KeptReplies, i: usize) -> usize {
    let mut count: usize = 0;
    if i < kept.len() {
        for at in 0..kept.slots(i) {
            if kept.seen(i, Slot(at)) == Seen::Complete {
                count = count.saturating_add(1);
            }
        }
    }
    count
}

/// Whether the first slot had what it is to have when a reply was given: nothing before the second.
fn is_cell_right(alloc: Global, kept: &KeptReplies, i: usize) -> bool {
    if i >= kept.len() || kept.slots(i) == 0 {
        return false;
    }
    match hex::encode(alloc, kept.cell(i, Slot(0))) {
        Ok(digits) => digits.as_str() == if i == 0 { NOTHING } else { CELL },
        Err(_) => false,
    }
}

/// Whether bytes are a line with this text.
fn is_line(bytes: &[u8], text: &str) -> bool {
    str::from_utf8(bytes).unwrap_or("").strip_suffix('\n') == Some(text)
}

/// Whether a reply is this, and was given after this many programs as there were replies before.
fn is_reply_right(kept: &KeptReplies, i: usize, text: &str) -> bool {
    i < kept.len()
        && is_line(kept.text(i), text)
        && kept.programs(i) == i as u64
        && kept.erases(i) == 0
}

/// Serves commands on a blank device, and keeps what the flash is at each reply. Returns whether that is done.
fn is_served(alloc: Global, kept: &mut KeptReplies) -> bool {
    let config = default_config(Protocol::Scc);
    let Ok(list) = parse(
        alloc,
        b"write 1 0=01 1=02\nstep 1\nstep 1\n",
        config.page_bytes,
    ) else {
        return false;
    };
    let Ok(flash) = blank_flash(alloc, config) else {
        return false;
    };
    let (_, done) = serve::<MemFlash, Scc, KeptReplies>(alloc, flash, config, &list, kept);
    done.is_ok()
}

/// Whether the replies are right, and the flash at each.
fn are_right(alloc: Global, kept: &KeptReplies) -> bool {
    let mut are_right = kept.len() == 3;
    for (i, text) in REPLIES.split('\n').enumerate() {
        are_right = are_right
            && is_reply_right(kept, i, text)
            && complete_slots(kept, i) == i
            && is_cell_right(alloc, kept, i);
    }
    are_right
}

/// Whether commands are served, and the flash is at each reply what it is to be.
fn is_kept(alloc: Global) -> bool {
    let mut kept = KeptReplies::new(alloc);
    is_served(alloc, &mut kept) && are_right(alloc, &kept)
}

/// The slots of the flash are as each reply says when it is given. So this refuses the wrong body
/// `replies_from_kept_array`, a serve that answers from an array of its own and writes the flash later.
#[test]
fn keeps_what_the_flash_was_at_each_reply(rt: HostRuntime) {
    assert!(rt; is_kept(rt.alloc()));
}

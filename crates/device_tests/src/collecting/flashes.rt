//! Collections of the blocks of a few flashes, by the names of the flashes.

use super::rows::is_on;
use crate::building::{BACK_POINTER, SIMPLE, SMALL};
use crate::texts::halves;
use std::alloc::Global;
use tx_types::{Config, Protocol};

/// Steps on a flash, and what they come to: how they are answered, and how the flash is then.
pub const STEPS: &str = "\
    # Four blocks of two slots, all blank, of which block 3 is the spare.\n\
    steps blank: clean; settle => ++ spare 3 erases 0\n\
    steps blank: collect 0 0 => + spare 0 erases 1\n\
    steps blank: collect 0 0; collect 1 0 => ++ spare 1 erases 2\n\
    # The erase of the block is broken: it is as it was, blank like before, or lost. A block that is lost is the spare, \
    and is erased first.\n\
    steps blank: fault 1 none; collect 0 0; settle => -+ spare 3 erases 0\n\
    steps blank: fault 1 all; collect 0 0; settle => -+ spare 3 erases 0\n\
    steps blank: fault 1 bad; collect 0 0; settle => -+ 0: XX XX spare 0 erases 0\n\
    steps blank: fault 1 bad; collect 0 0; settle; clean => -++ spare 0 erases 1\n\
    steps blank: fault 1 bad; collect 0 0; settle; collect 2 0 => -++ spare 2 erases 2\n\
    # The erase of the lost block is broken too, or that of the second block.\n\
    steps blank: fault 1 bad; collect 0 0; settle; fault 1 none; collect 2 0; settle \
    => -+-+ 0: XX XX spare 0 erases 0\n\
    steps blank: fault 1 bad; collect 0 0; settle; fault 1 all; collect 2 0; settle => -+-+ spare 0 erases 0\n\
    steps blank: fault 1 bad; collect 0 0; settle; fault 1 bad; collect 2 0; settle \
    => -+-+ 0: XX XX spare 0 erases 0\n\
    steps blank: fault 1 bad; collect 0 0; settle; fault 2 none; collect 2 0; settle => -+-+ spare 0 erases 1\n\
    steps blank: fault 1 bad; collect 0 0; settle; fault 2 all; collect 2 0; settle => -+-+ spare 0 erases 1\n\
    steps blank: fault 1 bad; collect 0 0; settle; fault 2 bad; collect 2 0; settle \
    => -+-+ 2: XX XX spare 2 erases 1\n\
    # A read that fails finds nothing out, and it is tried again.\n\
    steps blank: fault 1 bad; collect 0 0; badread 2; settle; settle => --+ 0: XX XX spare 0 erases 0\n\
    steps blank: fault 1 bad; collect 0 0; settle; fault 1 all; clean; badread 1; settle; settle \
    => -+--+ spare 0 erases 0\n\
    # A collection is cut at each of its operations, with each outcome. From the flash alone the pages read as before. \
    The spare is erased, two records are copied, and the block is erased. There is no fifth operation.\n\
    steps sweep: cut 1 none; collect 0 0; reopen => -o ..\n\
    steps sweep: cut 1 all; collect 0 0; reopen => -o ..\n\
    steps sweep: cut 1 bad; collect 0 0; reopen => -o ..\n\
    steps sweep: cut 2 none; collect 0 0; reopen => -o ..\n\
    steps sweep: cut 2 all; collect 0 0; reopen => -o ..\n\
    steps sweep: cut 2 bad; collect 0 0; reopen => -o ..\n\
    steps sweep: cut 3 none; collect 0 0; reopen => -o ..\n\
    steps sweep: cut 3 all; collect 0 0; reopen => -o ..\n\
    steps sweep: cut 3 bad; collect 0 0; reopen => -o ..\n\
    steps sweep: cut 4 none; collect 0 0; reopen => -o ..\n\
    steps sweep: cut 4 all; collect 0 0; reopen => -o ..\n\
    steps sweep: cut 4 bad; collect 0 0; reopen => -o ..\n\
    steps sweep: cut 5 all; collect 0 0 => + ..\n\
    # A superseded record that is held is copied.\n\
    steps given_up: choose; collect 4 1; reopen; choose => 4+o7 0: 01 13 31 41 7: 12 23 .. .. spare 6 erases 1\n\
    # Power goes off in a copy, in a copy after the spare was erased, and in the erase of the block. Each line does what \
    the one before it did, and more.\n\
    steps full: choose; cut 1 bad; collect 0 0; reopen => 0-o 0: 01 11 1: 02 03 2: XX .. spare 2 erases 0\n\
    steps full: cut 1 bad; collect 0 0; reopen; choose; cut 2 bad; collect 0 0; reopen \
    => -o0-o 0: 01 11 1: 02 03 2: XX .. spare 2 erases 1\n\
    steps full: cut 1 bad; collect 0 0; reopen; cut 2 bad; collect 0 0; reopen; choose; cut 3 bad; collect 0 0; reopen \
    => -o-o0-o 0: XX XX 1: 02 03 2: 11 .. spare 0 erases 2\n\
    steps full: cut 1 bad; collect 0 0; reopen; cut 2 bad; collect 0 0; reopen; cut 3 bad; collect 0 0; reopen; \
    choose; collect 1 0 => -o-o-o1+ 0: 03 .. 2: 11 .. spare 1 erases 4\n\
    # A fault at the copy and at the erase of a collection, what is settled, and which block comes next.\n\
    steps three: fault 1 none; collect 0 0; settle; choose; collect 0 0 \
    => -+0+ 4: 11 .. .. .. 7: 02 .. .. .. spare 0 erases 1\n\
    steps three: fault 1 all; collect 0 0; settle; choose; collect 0 0 \
    => -+0+ 4: 11 .. .. .. 7: 02 .. .. .. spare 0 erases 2\n\
    steps three: fault 1 bad; collect 0 0; settle; choose; collect 0 0 \
    => -+0+ 4: 11 .. .. .. 7: 02 .. .. .. spare 0 erases 2\n\
    steps three: fault 2 none; collect 0 0; settle; choose; collect 0 0 \
    => -+0+ 4: 11 .. .. .. 7: 02 .. .. .. spare 0 erases 2\n\
    steps three: fault 2 all; collect 0 0; settle; choose => -+4 4: 11 .. .. .. 7: 02 .. .. .. spare 0 erases 0\n\
    steps three: fault 2 bad; collect 0 0; settle; choose \
    => -+4 0: XX XX XX XX 4: 11 .. .. .. 7: 02 .. .. .. spare 0 erases 0";

/// Four blocks of two slots.
const BLANK_SCC: Config = Config {
    protocol: Protocol::Scc,
    page_bytes: 16,
    pages_per_block: 2,
    blocks_per_die: 4,
    dies: 1,
    logical: 4,
    pending: 1,
};

const BLANK_BPCC: Config = Config {
    protocol: Protocol::Bpcc,
    page_bytes: 16,
    pages_per_block: 2,
    blocks_per_die: 4,
    dies: 1,
    logical: 4,
    pending: 1,
};

/// Three blocks of four slots.
const SWEEP_SCC: Config = Config {
    protocol: Protocol::Scc,
    page_bytes: 16,
    pages_per_block: 4,
    blocks_per_die: 3,
    dies: 1,
    logical: 5,
    pending: 2,
};

const SWEEP_BPCC: Config = Config {
    protocol: Protocol::Bpcc,
    page_bytes: 16,
    pages_per_block: 4,
    blocks_per_die: 3,
    dies: 1,
    logical: 5,
    pending: 2,
};

/// A loose record, one that is doubled and is current, a stale one and one that is current; then
/// its double, a slot that is damaged, and one current record more; in the spare one that is stale.
const BY_CYCLES: &str =
    "0 0.1 4.1 0 1, 1 1.1 1.1 0 2, 2 2.1 2.1 0 3, 3 3.1 3.1 0 4, 4 1.1 1.1 0 2, \
    5 damaged, 6 2.2 2.2 0 5, 8 2.1 2.1 0 3";

/// Slots as `BY_CYCLES` has them, with a record that is held: version 2 of page 1, which says that version 1 of page 0
/// counts for nothing.
const BY_BACK_POINTERS: &str =
    "0 0.1 1.1 0 1, 1 1.2 1.2 0 2, 2 2.1 2.1 0 3, 3 3.1 3.1 0 4, 4 1.3 1.3 2 6, \
    5 damaged, 6 2.2 2.2 1 5, 7 3.1 3.1 0 4, 8 2.1 2.1 0 3";

/// Pages 0 and 1 were asked for together, and given up after page 0. Then pages 1, 1, 2, 3, 2, 4
/// and 2 were written, each alone. Version 2 of page 1 is superseded, and is kept all the same,
/// since it says that version 1 of page 0 counts for nothing.
const GIVEN_UP: &str = "0 0.1 1.1 0 170, 16 1.2 1.2 0 204, 1 1.3 1.3 2 221, 17 2.1 2.1 0 1, \
    2 3.1 3.1 0 2, 18 2.2 2.2 1 3, 3 4.1 4.1 0 4, 19 2.3 2.3 2 5";

/// Pages 0, 1, 0 and 0 were written, each alone: no slot outside the spare is blank.
const FULL: &str = "0 0.1 0.1 0 1, 1 1.1 1.1 0 2, 2 0.2 0.2 0 3, 3 0.3 0.3 0 4";

/// Pages 0, 1 and 0 were written, each alone.
const THREE: &str = "0 0.1 0.1 0 1, 16 1.1 1.1 0 2, 1 0.2 0.2 0 3";

/// Whether the steps of a line, behind the name of a flash, come to what is wanted.
pub fn are_steps_right(alloc: Global, line: &str, wanted: &str) -> bool {
    let (name, steps) = halves(line, ": ");
    match name {
        "blank" => {
            is_on(alloc, BLANK_SCC, "nothing", steps, wanted)
                && is_on(alloc, BLANK_BPCC, "nothing", steps, wanted)
        }
        "sweep" => {
            is_on(alloc, SWEEP_SCC, BY_CYCLES, steps, wanted)
                && is_on(alloc, SWEEP_BPCC, BY_BACK_POINTERS, steps, wanted)
        }
        "given_up" => is_on(alloc, BACK_POINTER, GIVEN_UP, steps, wanted),
        "full" => is_on(alloc, SMALL, FULL, steps, wanted),
        "three" => is_on(alloc, SIMPLE, THREE, steps, wanted),
        _ => false,
    }
}

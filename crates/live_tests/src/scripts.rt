//! Scripts on a flash that is a file, and how many losses are tried of each. A step is one of `program SLOT BYTE`,
//! `erase BLOCK`, `fire`, `fire SLOT BYTE`, `fire SLOT BYTE SLOT BYTE` with a slot of each die, `cut COUNT OUTCOME`,
//! `fault COUNT OUTCOME`, `on` and `flush`. Blocks have two slots, dies two blocks.
use crate::lines::{LineTest, assert_lines, is_count, sides};
use crate::losing::Tally;
use crate::running::Script;
use crate::trying::are_runs_right;
use std::alloc::Global;

/// A script, and how many losses are tried of it.
struct Tried;

impl LineTest for Tried {
    fn is_right(alloc: Global, line: &str) -> bool {
        let (text, count) = sides(line);
        let steps = text.split("; ").count();
        let mut tally = Tally::new();
        are_runs_right(alloc, Script { text, steps }, &mut tally) && is_count(count, tally.losses)
    }
}

/// Programs and fires.
const PROGRAMS: &str = "\
program 0 41 => 2
flush; program 7 41; flush; flush => 257
program 0 41; flush; program 1 42; flush => 509
program 0 11; program 1 12; program 2 13; program 3 14; program 4 15; flush => 2117
fire; fire 5 51; flush; fire => 257
fire 1 51 4 52; flush; erase 2; fire 4 53 => 1099";

#[test]
fn programs_are_left(rt: HostRuntime) {
    assert_lines::<Tried>(&rt, rt.alloc(), PROGRAMS);
}

/// Erases, and programs of what was erased.
const ERASES: &str = "\
program 0 41; program 1 42; erase 0; program 0 43; flush => 1098
program 2 41; program 4 42; erase 1; erase 1; program 2 43; program 3 44 => 1521
fire 0 51 6 52; fire 1 53 7 54; erase 3; fire 2 55 6 56; flush => 2278";

#[test]
fn erases_are_left(rt: HostRuntime) {
    assert_lines::<Tried>(&rt, rt.alloc(), ERASES);
}

/// Cuts and faults.
const BREAKS: &str = "\
fault 1 all; program 2 61; fault 1 all; erase 1; program 2 62; flush => 931
fault 1 none; program 2 61; program 2 62; fault 1 none; erase 1; flush => 511
program 0 85; cut 1 bad; erase 0; fire; on; erase 0; program 0 86; flush => 953
fault 1 bad; program 2 61; program 3 62; flush; erase 1; flush => 847
cut 1 bad; fire 0 91 6 92; on; fault 1 bad; fire 2 93 7 94; flush; flush => 1446";

#[test]
fn breaks_are_left(rt: HostRuntime) {
    assert_lines::<Tried>(&rt, rt.alloc(), BREAKS);
}

/// Flushes of what waits and of nothing, and flashes that go on.
const FLUSHES: &str = "\
program 0 41; program 1 42; program 4 43; flush; flush => 1016
program 0 41; flush; erase 0; program 0 42; flush; flush => 931
program 6 71; program 7 72; fault 1 bad; erase 3; flush; erase 3; flush => 868
cut 1 bad; program 0 81; flush; erase 1; on; program 1 82; flush => 932
program 0 83; cut 1 all; erase 0; on; program 0 84; flush; flush => 932
flush; flush; program 5 95; flush; erase 2; program 4 96; flush => 932";

#[test]
fn flushes_are_left(rt: HostRuntime) {
    assert_lines::<Tried>(&rt, rt.alloc(), FLUSHES);
}

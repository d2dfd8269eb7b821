//! The lines of all texts, each by its first word.

use crate::collecting::flashes::{STEPS, are_steps_right};
use crate::devices::batches::BATCHES;
use crate::devices::doubts::DOUBTS;
use crate::devices::full::FULL;
use crate::devices::lines::are_calls_right;
use crate::devices::retired::RETIRED;
use crate::devices::rows::CALLS;
use crate::indexing::rows::TABLES;
use crate::indexing::tables::is_table_right;
use crate::keys::{KEYS, is_answered as are_keys_answered, is_bucket, is_read};
use crate::recovering::flashes::{FLASHES, is_flash_right};
use crate::recovering::lists::is_audited;
use crate::recovering::tables::{is_kept, is_loose};
use crate::serving::{SERVED, are_moments, are_reads, is_answered};
use crate::texts::halves;
use crate::worn::{WORN, are_right};
use std::alloc::Global;
use std::process::Abort;

/// Whether commands come to what is wanted.
fn are_commands_right(alloc: Global, kind: &str, commands: &str, wanted: &str) -> bool {
    match kind {
        "keys" => are_keys_answered(alloc, commands, wanted),
        "script" => is_read(alloc, commands, wanted),
        "bucket" => is_bucket(commands, wanted),
        "served" => is_answered(alloc, commands, wanted),
        "reads" => are_reads(alloc, commands, wanted),
        "moments" => are_moments(alloc, commands, wanted),
        "same" | "worn" => are_right(alloc, kind, commands),
        _ => false,
    }
}

/// Whether what is given comes to what is wanted, as the first word of its line names it.
fn comes_to(alloc: Global, kind: &str, given: &str, wanted: &str) -> bool {
    match kind {
        "calls" => are_calls_right(alloc, given, wanted),
        "steps" => are_steps_right(alloc, given, wanted),
        "tables" => is_table_right(alloc, given, wanted),
        "flash" => is_flash_right(alloc, given, wanted),
        "kept" => is_kept(alloc),
        "loose" => is_loose(alloc),
        "audited" => is_audited(alloc),
        _ => are_commands_right(alloc, kind, given, wanted),
    }
}

/// Whether a line is right, or says behind a `#` what the next lines are of.
fn is_right(alloc: Global, line: &str) -> bool {
    let (kind, rest) = halves(line, " ");
    let (given, wanted) = halves(rest, " => ");
    kind == "#" || comes_to(alloc, kind, given, wanted)
}

/// Asserts that each line of a text is right.
fn assert_lines(rt: &impl Abort, alloc: Global, text: &str) {
    for line in text.split('\n') {
        assert!(rt; is_right(alloc, line), "{line}");
    }
}

#[test]
fn devices_answer(rt: HostRuntime) {
    assert_lines(&rt, rt.alloc(), CALLS);
    assert_lines(&rt, rt.alloc(), BATCHES);
    assert_lines(&rt, rt.alloc(), DOUBTS);
    assert_lines(&rt, rt.alloc(), FULL);
    assert_lines(&rt, rt.alloc(), RETIRED);
}

#[test]
fn tables_are_right(rt: HostRuntime) {
    assert_lines(&rt, rt.alloc(), FLASHES);
    assert_lines(&rt, rt.alloc(), TABLES);
    assert_lines(&rt, rt.alloc(), STEPS);
    assert_lines(&rt, rt.alloc(), "kept\nloose");
}

#[test]
fn recovery_agrees_with_the_plain_audit(rt: HostRuntime) {
    assert_lines(&rt, rt.alloc(), "audited");
}

#[test]
fn commands_are_answered(rt: HostRuntime) {
    assert_lines(&rt, rt.alloc(), SERVED);
    assert_lines(&rt, rt.alloc(), WORN);
    assert_lines(&rt, rt.alloc(), KEYS);
}

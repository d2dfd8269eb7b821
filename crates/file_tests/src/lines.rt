//! The lines of all texts, each by its first word.
use crate::desk_io_tests::desks::{DESKS, are_done_over};
use crate::desk_io_tests::memory::{CHOSEN, are_chosen_calls_right};
use crate::desk_io_tests::saves::{SAVES, SAVES_BESIDE, is_save_right};
use crate::durable_folder_tests::{CRASHES, are_steps_right, is_save_right as is_crash_right};
use crate::mem_folder_tests::{LOSSES, are_losses_right, is_loaded, may_each_call_fail};
use crate::words::halves;
use std::process::Abort;

/// Whether a line is right of what its first word names, or says behind a `#` what the next lines are of.
fn is_right(rt: &HostRuntime, line: &'static str) -> bool {
    let (kind, rest) = halves(line, " ");
    let alloc = rt.alloc();
    match kind {
        "#" => true,
        "lost" => are_losses_right(alloc, rest),
        "saved" => is_loaded(alloc, rest),
        "fails" => may_each_call_fail(alloc, rest),
        "each" => is_crash_right(alloc, rest),
        "crash" => are_steps_right(alloc, rest),
        "memory" => are_chosen_calls_right(alloc, rest),
        "desks" => are_done_over(rt, rt, rest),
        "save" => is_save_right(rt, rest),
        _ => false,
    }
}

/// Asserts that each line of a text is right over a system.
fn assert_lines(rt: &impl Abort, system: &HostRuntime, text: &'static str) {
    for line in text.split('\n') {
        assert!(rt; is_right(system, line), "{line}");
    }
}

#[test]
fn losses_of_power_leave_files_whole(rt: HostRuntime) {
    assert_lines(&rt, &rt, LOSSES);
    assert_lines(&rt, &rt, CRASHES);
}

#[test]
fn desks_answer(rt: HostRuntime) {
    assert_lines(&rt, &rt, CHOSEN);
    assert_lines(&rt, &rt, DESKS);
}

#[test]
fn saves_call_the_system_in_order_and_may_fail(rt: HostRuntime) {
    assert_lines(&rt, &rt, SAVES);
}

#[test]
fn saves_beside_other_names_do_too(rt: HostRuntime) {
    assert_lines(&rt, &rt, SAVES_BESIDE);
}

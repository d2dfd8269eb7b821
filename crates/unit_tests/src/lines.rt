//! The lines of all texts, each by its first word.

use crate::claims::is_orbit;
use crate::dense_tables_tests::{DENSE, is_dense_right};
use crate::drive_lines::{
    DRIVES, is_list_right as is_drive_right, is_running_right, is_summary_right,
};
use crate::image_lines::{IMAGES, is_image_right};
use crate::lane_scan_tests::{SCANS, is_scan_right};
use crate::mem_flash_rows::{ROWS, is_row_right};
use crate::mem_flash_tests::{FLASHES, is_flash_right};
use crate::page_cache_tests::is_held;
use crate::page_record_tests::{AREAS, is_area_right};
use crate::picture_lines::{PICTURES, is_picture_right};
use crate::protocol_lines::{COMMANDS, REPLIES, is_file_right, is_long_file_right, is_reply_right};
use crate::record_lists::{LISTS, is_list_right};
use crate::report_lines::{REPORTS, is_check_right, is_report_right};
use crate::samples::halves;
use crate::slot_tables_tests::is_history;
use crate::table_lines::{TABLES, is_table_right};
use crate::tx_types_tests::{TYPES, is_type_right};
use std::alloc::Global;
use std::process::Abort;

/// Whether a line is right of lists, flashes and tables.
fn is_right_of_tables(alloc: Global, kind: &str, line: &str) -> bool {
    match kind {
        "config" | "types" => is_type_right(alloc, kind, line),
        "each" | "places" | "last" => is_scan_right(kind, line),
        "area" | "written" | "broken" => is_area_right(alloc, kind, line),
        "quotient" | "lists" | "tree" => is_dense_right(alloc, kind, line),
        "flash" | "slots" => is_flash_right(alloc, kind, line),
        "steps" => is_row_right(alloc, line),
        "table" => is_table_right(alloc, line),
        "cache" => is_held(alloc),
        "tables" => is_history(alloc),
        "list" | "sorted" | "standing" => is_list_right(alloc, kind, line),
        "graph" => is_orbit(alloc, line),
        _ => false,
    }
}

/// Whether a line is right of what is written or drawn.
fn is_right_of_texts(alloc: Global, kind: &str, line: &str) -> bool {
    match kind {
        "check" => is_check_right(alloc, line),
        "report" => is_report_right(alloc, line),
        "file" => is_file_right(alloc, line),
        "long" => is_long_file_right(alloc, line),
        "reply" => is_reply_right(alloc, line),
        "made" | "lines" => is_drive_right(alloc, kind, line),
        "summary" => is_summary_right(alloc, line),
        "running" => is_running_right(alloc, line),
        "image" | "same" | "extras" | "ordinary" | "lengths" => is_image_right(alloc, kind, line),
        "picture" | "wide" | "svg" | "wide-svg" | "overview" | "squares" => {
            is_picture_right(alloc, kind, line)
        }
        _ => is_right_of_tables(alloc, kind, line),
    }
}

/// Whether a line is right of what its first word names, or says behind a `#` what the next lines are of.
fn is_right(alloc: Global, line: &str) -> bool {
    let (kind, rest) = halves(line, " ");
    kind == "#" || is_right_of_texts(alloc, kind, rest)
}

/// Asserts that each line of a text is right.
fn assert_lines(rt: &impl Abort, alloc: Global, text: &str) {
    for line in text.split('\n') {
        assert!(rt; is_right(alloc, line), "{line}");
    }
}

#[test]
fn lists_and_tables_are_right(rt: HostRuntime) {
    assert_lines(&rt, rt.alloc(), TYPES);
    assert_lines(&rt, rt.alloc(), SCANS);
    assert_lines(&rt, rt.alloc(), AREAS);
    assert_lines(&rt, rt.alloc(), DENSE);
    assert_lines(&rt, rt.alloc(), TABLES);
    assert_lines(&rt, rt.alloc(), LISTS);
    assert_lines(&rt, rt.alloc(), "cache\ntables");
}

#[test]
fn flashes_and_images_are_right(rt: HostRuntime) {
    assert_lines(&rt, rt.alloc(), FLASHES);
    assert_lines(&rt, rt.alloc(), ROWS);
    assert_lines(&rt, rt.alloc(), IMAGES);
}

#[test]
fn reports_and_pictures_are_right(rt: HostRuntime) {
    assert_lines(&rt, rt.alloc(), REPORTS);
    assert_lines(&rt, rt.alloc(), PICTURES);
}

#[test]
fn commands_and_replies_are_right(rt: HostRuntime) {
    assert_lines(&rt, rt.alloc(), COMMANDS);
    assert_lines(&rt, rt.alloc(), REPLIES);
}

#[test]
fn generated_work_is_right(rt: HostRuntime) {
    assert_lines(&rt, rt.alloc(), DRIVES);
}

//! The walks that decide that the newest version of a page does not count: which links of them are shown, and how
//! they end.
ghost use Rattle.std.specs.Prelude.{◌≡◌, suc, ◌+◌, ◌<◌, ◌≤◌, [], ◌++◌, IfOk, IfSome, OnOk, length, vec_capacity};
ghost use Rattle.std.specs.List.{flat_map};
ghost use Rattle.record_list.specs.Verdict.{link_of, newest_name};
ghost use Rattle.sorted_records.specs.SortedRecords.{EndsBelow};
ghost use Rattle.verdict_report.specs.Walks.{is_end, walk_links};
ghost use Rattle.flash_picture.specs.Walks.{AreLedTo, end_by, end_of, end_text, last_steps, leaving_link, leaving_link_at, leaving_link_by, line_text, start_text, step_text, steps_of, steps_over, walk_line, walks_text};

use crate::own_lines::{line_end, pages_led_to};
use crate::text::{add, add_name, add_number};
use record_list::Why;
use sorted_records::{Orbit, SortedRecords};
use std::alloc::{AllocError, Global};
use tx_types::{Link, Protocol};

/// How many links of a walk are shown before its last one.
const MOST_LINKS: u32 = 16;

/// A step that is shown of a walk.
#[derive(Clone, Copy, PartialEq, Eq)]
pub enum Step {
    /// To the record that a link names.
    To(Link),
    /// Over links that are not shown.
    Dots,
}

/// How a walk ends that begins at a version which does not count.
#[derive(Clone, Copy, PartialEq, Eq)]
pub enum End {
    /// No record has the version of its last link, or a later one.
    Absent,
    /// The record of this version straddles its last link.
    Straddled(u64),
    /// It takes more links than there are pages.
    TooLong,
}

impl Step {
    /// Appends a step.
    pub fn write(self, text: &mut Vec<u8>) -> Result<(), AllocError>
        ensures { OnOk result (text.new.items ≡ text.old.items ++ step_text self) }
    {
        match self {
            Step::To(link) => add(b" -> ", text).and(add_name(link, text)),
            Step::Dots => text.extend_from_slice(b" .."),
        }
    }
}

impl End {
    /// How the walk from the newest record of a page ends; nothing where its version counts.
    pub fn of_page(
        chart: &SortedRecords,
        protocol: Protocol,
        logical: u32,
        page: u32,
    ) -> Option<End>
        ensures { result ≡ end_of protocol chart.now logical page }
    {
        end_by(
            chart.why(protocol, logical, page),
            leaving_link_at(chart, logical, page),
        )
    }

    /// Appends how a walk ends.
    pub fn write(self, text: &mut Vec<u8>) -> Result<(), AllocError>
        ensures { OnOk result (text.new.items ≡ text.old.items ++ end_text self) }
    {
        match self {
            End::Absent => text.extend_from_slice(b" absent"),
            End::Straddled(version) => {
                add(b" straddled by ", text).and(add_number(version, text))
            }
            End::TooLong => text.extend_from_slice(b" too long"),
        }
    }
}

/// How a walk ends, by what decides the verdict and by where it leaves the newest records.
fn end_by(why: Why, last: Option<Link>) -> Option<End>
    ensures { result ≡ end_by why last }
{
    match (why, last) {
        (Why::Cycle, _) => None,
        (Why::Passed, _) => None,
        (Why::Absent, None) => Some(End::TooLong),
        (Why::Absent, Some(_)) => Some(End::Absent),
        (Why::Straddled(version), _) => Some(End::Straddled(version)),
    }
}

/// The link at which the walk from the newest record of a page leaves the newest records, if it does. It is the link of
/// the record at which the orbit ends, so a picture of long walks takes no longer.
pub fn leaving_link_at(chart: &SortedRecords, logical: u32, page: u32) -> Option<Link>
    ensures { result ≡ leaving_link_at chart.now logical page }
{
    match chart.orbit(page) {
        Some(orbit) => leaving_link_by(chart, logical, orbit),
        None => None,
    }
}

/// The link at which the walk from the newest record of a page leaves the newest records, by the orbit of the place of
/// that record.
pub fn leaving_link_by(chart: &SortedRecords, logical: u32, orbit: Orbit) -> Option<Link>
    requires { EndsBelow (length chart.now) orbit }
    ensures { result ≡ leaving_link_by chart.now logical orbit }
{
    match orbit {
        Orbit::Ends { after, at } => {
            if after > logical {
                None
            } else {
                leaving_link(chart, chart.records()[at as usize].rec.next)
            }
        }
        Orbit::Round { .. } => None,
        Orbit::Aside => None,
    }
}

/// A link, where it is to a version above, or below, the newest of its page.
fn leaving_link(chart: &SortedRecords, link: Link) -> Option<Link>
    ensures { result ≡ leaving_link chart.now link }
{
    if link.version != chart.newest(link.page) {
        Some(link)
    } else {
        None
    }
}

/// The steps that are shown of the walk from the newest record of a page.
pub fn steps(
    alloc: Global,
    chart: &SortedRecords,
    logical: u32,
    page: u32,
) -> Result<Vec<Step>, AllocError>
    ensures steps { IfOk result (λ steps. steps.items ≡ steps_of chart.now logical page) }
    ensures few { IfOk result (λ steps. length steps.items ≤ 18) }
{
    let start = newest_name(chart, page);
    steps_from(
        alloc,
        chart,
        logical,
        start,
        leaving_link_at(chart, logical, page),
    )
}

/// The steps that are shown of the walk from a record, where the walk leaves the newest records at this link.
fn steps_from(
    alloc: Global,
    chart: &SortedRecords,
    logical: u32,
    start: Link,
    last: Option<Link>,
) -> Result<Vec<Step>, AllocError>
    ensures steps { let list = chart.now in IfOk result (λ steps. steps.items
        ≡ steps_over (walk_links list start (suc logical) (link_of list start)) last) }
    ensures few { IfOk result (λ steps. length steps.items ≤ 18) }
{
    let mut steps = Vec::with_capacity(alloc, 18)?;
    push_steps(chart, logical, start, last, &mut steps);
    Ok(steps)
}

/// Adds the same steps to a list that has none, and room for all.
fn push_steps(
    chart: &SortedRecords,
    logical: u32,
    start: Link,
    last: Option<Link>,
    steps: &mut Vec<Step>,
)
    requires empty { steps.old.items ≡ [] }
    requires room { vec_capacity steps.old ≡ 18 }
    ensures steps { let list = chart.now in steps.new.items
        ≡ steps_over (walk_links list start (suc logical) (link_of list start)) last }
    ensures few { length steps.new.items ≤ 18 }
{
    let mut link = chart.link_of(start);
    for _turn in 0..logical.saturating_add(1).min(MOST_LINKS) {
        steps.push_reserved(Step::To(link));
        if is_end(chart, start, link) {
            return;
        }
        link = chart.link_of(link);
    }
    if logical >= MOST_LINKS {
        push_last(last, steps);
    }
}

/// Adds what stands for the links that are not shown, and the last one, if there is one.
fn push_last(last: Option<Link>, steps: &mut Vec<Step>)
    requires { length steps.old.items + 2 ≤ vec_capacity steps.old }
    ensures { steps.new.items ≡ steps.old.items ++ last_steps last }
{
    steps.push_reserved(Step::Dots);
    if let Some(link) = last {
        steps.push_reserved(Step::To(link));
    }
}

/// Whether a walk from the record `start` ends at this link.
fn is_end(chart: &SortedRecords, start: Link, link: Link) -> bool
    ensures { result ≡ is_end chart.now start link }
{
    link.version != chart.newest(link.page) || link == start
}

/// The name of the newest record of a page.
pub fn newest_name(chart: &SortedRecords, page: u32) -> Link
    ensures { result ≡ newest_name chart.now page }
{
    Link {
        page,
        version: chart.newest(page),
    }
}

/// Appends the lines of the walks of all pages whose newest version does not count.
pub fn write_walks(
    alloc: Global,
    chart: &SortedRecords,
    protocol: Protocol,
    logical: u32,
    text: &mut Vec<u8>,
) -> Result<(), AllocError>
    ensures { OnOk result (text.new.items
        ≡ text.old.items ++ walks_text protocol chart.now logical) }
{
    let led = pages_led_to(alloc, chart, protocol, logical)?;
    let outcome = write_lines(alloc, chart, protocol, logical, &led, text);
    drop(led);
    outcome
}

/// Appends the lines of all pages, by whether a walk leads to their newest records.
fn write_lines(
    alloc: Global,
    chart: &SortedRecords,
    protocol: Protocol,
    logical: u32,
    led: &[bool],
    text: &mut Vec<u8>,
) -> Result<(), AllocError>
    requires { AreLedTo protocol chart.now logical logical led.now }
    ensures { OnOk result (text.new.items
        ≡ text.old.items ++ walks_text protocol chart.now logical) }
{
    for page in 0..logical {
        let end = line_end(chart, protocol, logical, page, led[page as usize]);
        write_walk(alloc, chart, logical, page, end, text)?;
    }
    Ok(())
}

/// Appends the line of a page that ends so, if it has one.
pub fn write_walk(
    alloc: Global,
    chart: &SortedRecords,
    logical: u32,
    page: u32,
    end: Option<End>,
    text: &mut Vec<u8>,
) -> Result<(), AllocError>
    ensures { OnOk result (text.new.items ≡ text.old.items ++ walk_line chart.now logical page end) }
{
    match end {
        None => Ok(()),
        Some(end) => {
            let steps = steps(alloc, chart, logical, page)?;
            let outcome = write_line(newest_name(chart, page), &steps, end, text);
            drop(steps);
            outcome
        }
    }
}

/// Appends the line of a walk from a record.
fn write_line(start: Link, steps: &[Step], end: End, text: &mut Vec<u8>) -> Result<(), AllocError>
    ensures { OnOk result (text.new.items ≡ text.old.items ++ line_text start steps.now end) }
{
    write_start(start, text)
        .and(write_steps(steps, text))
        .and(end.write(text))
        .and(add(b"\n", text))
}

/// Appends the record at which a walk begins.
pub fn write_start(start: Link, text: &mut Vec<u8>) -> Result<(), AllocError>
    ensures { OnOk result (text.new.items ≡ text.old.items ++ start_text start) }
{
    add(b"walk ", text).and(add_name(start, text))
}

/// Appends steps.
fn write_steps(steps: &[Step], text: &mut Vec<u8>) -> Result<(), AllocError>
    ensures { OnOk result (text.new.items ≡ text.old.items ++ flat_map step_text steps.now) }
{
    for step in steps {
        step.write(text)?;
    }
    Ok(())
}

//! The lines below the map of a picture in SVG.
ghost use Rattle.std.specs.Prelude.{◌≡◌, ◌+◌, ◌*◌, ◌≤◌, ◌++◌, IfOk, OnOk, codes, length};
ghost use Rattle.flash_picture.specs.Svg.{breach_svg, columns_with, count_rows, lines_at, rows_taken, walk_rows_text, step_row, steps_begin, steps_rows, walk_rows, walk_takes, walks_svg, walks_take};
ghost use Rattle.flash_picture.specs.Walks.{AreLedTo, step_text};

use crate::own_lines::{line_end, pages_led_to};
use crate::picture::write_law;
use crate::pieces::add_attribute;
use crate::text::add;
use crate::walk::{End, Step, newest_name, steps, write_start};
use record_list::Breach;
use sorted_records::SortedRecords;
use std::alloc::{AllocError, Global};
use tx_types::{Link, Protocol};

/// A line of a walk is full with this many columns: a step behind more stands in the next line, so the place of each is
/// known before it is written.
const FULL_COLUMNS: usize = 80;

/// Appends the walks of all pages whose newest version does not count, one that many share once, and returns how many
/// lines they are.
pub fn write_walks(
    alloc: Global,
    chart: &SortedRecords,
    protocol: Protocol,
    logical: u32,
    text: &mut Vec<u8>,
) -> Result<u64, AllocError>
    ensures text { OnOk result (text.new.items ≡ text.old.items ++ walks_svg protocol chart.now logical) }
    ensures lines { IfOk result (λ lines. lines ≡ walks_take protocol chart.now logical logical) }
    ensures few { IfOk result (λ lines. lines ≤ 19 * logical) }
{
    let led = pages_led_to(alloc, chart, protocol, logical)?;
    let outcome = write_lines(alloc, chart, protocol, logical, &led, text);
    drop(led);
    outcome
}

/// Appends the walks of all pages, by whether a walk leads to their newest records, and returns how many lines they
/// are.
fn write_lines(
    alloc: Global,
    chart: &SortedRecords,
    protocol: Protocol,
    logical: u32,
    led: &[bool],
    text: &mut Vec<u8>,
) -> Result<u64, AllocError>
    requires { AreLedTo protocol chart.now logical logical led.now }
    ensures text { OnOk result (text.new.items ≡ text.old.items ++ walks_svg protocol chart.now logical) }
    ensures lines { IfOk result (λ lines. lines ≡ walks_take protocol chart.now logical logical) }
    ensures few { IfOk result (λ lines. lines ≤ 19 * logical) }
{
    let mut lines = 0;
    for page in 0..logical {
        let end = line_end(chart, protocol, logical, page, led[page as usize]);
        lines += write_walk(alloc, chart, logical, page, end, text)?;
    }
    Ok(lines)
}

/// Appends the walk of a page that ends so, if it has a line of its own, and returns how many lines it is.
fn write_walk(
    alloc: Global,
    chart: &SortedRecords,
    logical: u32,
    page: u32,
    end: Option<End>,
    text: &mut Vec<u8>,
) -> Result<u64, AllocError>
    ensures text { OnOk result (text.new.items ≡ text.old.items ++ walk_rows chart.now logical page end) }
    ensures lines { IfOk result (λ lines. lines ≡ walk_takes chart.now logical page end) }
    ensures few { IfOk result (λ lines. lines ≤ 19) }
{
    match end {
        None => Ok(0),
        Some(end) => {
            let steps = steps(alloc, chart, logical, page)?;
            let outcome = write_rows(newest_name(chart, page), &steps, end, text);
            drop(steps);
            outcome
        }
    }
}

/// Appends a walk from a record, and returns how many lines it is.
fn write_rows(start: Link, steps: &[Step], end: End, text: &mut Vec<u8>) -> Result<u64, AllocError>
    ensures text { OnOk result (text.new.items ≡ text.old.items ++ walk_rows_text start steps.now end) }
    ensures lines { IfOk result (λ lines. lines ≡ rows_taken start steps.now) }
    ensures few { IfOk result (λ lines. lines ≤ length steps.now + 1) }
{
    open_line(b"walk", text)?;
    let from = text.len();
    write_start(start, text)?;
    let begun = write_steps(steps, text.len() - from, text)?;
    end.write(text)?;
    add(b"</tspan>\n", text)?;
    Ok(begun + 1)
}

/// Appends steps behind this many columns of a line, and returns how many lines they begin.
fn write_steps(steps: &[Step], first: usize, text: &mut Vec<u8>) -> Result<u64, AllocError>
    requires { first ≤ length text.old.items }
    ensures text { OnOk result (text.new.items ≡ text.old.items ++ steps_rows first steps.now) }
    ensures lines { IfOk result (λ lines. lines ≡ steps_begin first steps.now) }
    ensures few { IfOk result (λ lines. lines ≤ length steps.now) }
{
    let mut columns = first;
    let mut begun = 0;
    for step in steps {
        begun += count_rows(columns);
        columns = write_step(*step, columns, text)?;
    }
    Ok(begun)
}

/// How many lines a step begins behind this many columns.
fn count_rows(columns: usize) -> u64
    ensures rows { result ≡ count_rows columns }
    ensures few { result ≤ 1 }
{
    if columns > FULL_COLUMNS { 1 } else { 0 }
}

/// Appends a step behind this many columns of a line, and returns how many the line has with it.
fn write_step(step: Step, columns: usize, text: &mut Vec<u8>) -> Result<usize, AllocError>
    requires { columns ≤ length text.old.items }
    ensures text { OnOk result (text.new.items ≡ text.old.items ++ step_row columns step) }
    ensures columns { IfOk result (λ all. all ≡ columns_with columns step) }
    ensures within { IfOk result (λ all. all ≤ length text.new.items) }
{
    if columns > FULL_COLUMNS {
        add(b"</tspan>\n<tspan class='walk' x='40' dy='20'>", text)?;
        write_behind(step, 0, text)
    } else {
        write_behind(step, columns, text)
    }
}

/// Appends a step behind this many columns of this line, and returns how many the line has with it.
fn write_behind(step: Step, columns: usize, text: &mut Vec<u8>) -> Result<usize, AllocError>
    requires { columns ≤ length text.old.items }
    ensures text { OnOk result (text.new.items ≡ text.old.items ++ step_text step) }
    ensures columns { IfOk result (λ all. all ≡ columns + length (step_text step)) }
    ensures within { IfOk result (λ all. all ≤ length text.new.items) }
{
    let from = text.len() - columns;
    step.write(text)?;
    Ok(text.len() - from)
}

/// Appends the lines below the map: these of walks, and the law that is broken. They begin below this place.
pub fn write_below(
    top: u64,
    walks: &[u8],
    breach: Option<Breach>,
    text: &mut Vec<u8>,
) -> Result<(), AllocError>
    ensures { OnOk result (text.new.items ≡ text.old.items ++ lines_at top walks.now breach) }
{
    add(b"<text", text)
        .and(add_attribute(b"y", top, text))
        .and(add(b">", text))
        .and(add(walks, text))
        .and(write_breach(breach, text))
        .and(add(b"</text>\n", text))
}

/// Appends the law that is broken, if one is.
fn write_breach(breach: Option<Breach>, text: &mut Vec<u8>) -> Result<(), AllocError>
    ensures { OnOk result (text.new.items ≡ text.old.items ++ breach_svg breach) }
{
    match breach {
        None => Ok(()),
        Some(breach) => {
            open_line(b"unsound", text)
                .and(write_law(breach, text))
                .and(add(b"</tspan>\n", text))
        }
    }
}

/// Begins a line below the one before.
fn open_line(class: &[u8], text: &mut Vec<u8>) -> Result<(), AllocError>
    ensures { OnOk result (text.new.items ≡ text.old.items
        ++ (codes "<tspan class='" ++ class.now ++ codes "' x='8' dy='20'>")) }
{
    add(b"<tspan class='", text)
        .and(add(class, text))
        .and(add(b"' x='8' dy='20'>", text))
}

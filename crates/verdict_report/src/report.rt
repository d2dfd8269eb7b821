ghost use Rattle.std.specs.Prelude.{◌≡◌, ◌++◌, Some, IfOk, OnOk, OnErr, length, ◌≤◌};
ghost use Rattle.verdict_report.specs.Lines.{line_text};
ghost use Rattle.verdict_report.specs.Newest.{IsNewestRecord};
ghost use Rattle.verdict_report.specs.Report.{pages, verdict_line, last_line, report, most_links};

use crate::line::{LINE_ROOM, Line};
use crate::number::add_number;
use crate::records::Records;
use crate::walk::Walk;
use record_list::{CommitRule, Found};
use std::alloc::{AllocError, Global};
use tx_types::{Memory, Protocol, Rec};

/// The room that is taken for a report at first, for each record in bytes: what most lines take. What is not
/// used costs no memory, and a text that does not grow is not copied.
const COMMON_LINE: usize = 256;

/// Appends the report on a list of records, and returns the number of pages that it explains. After `Memory` the bytes
/// are as before.
///
/// Each page below `logical` that has a record has a line, in ascending order:
/// `verdict P newest V WORD REASON current C walk LINKS`. V is the newest version of page P and C its
/// current one, 0 for none. WORD is `committed` or `uncommitted`. REASON is `cycle`, `passed`,
/// `absent` or `straddled A`, A being the greatest version that straddles the last link. LINKS are the
/// links that the walk from the newest record takes, each as page, colon and version: the first is that
/// record's own, and the last one decides. Of more than 16 links the first 16 are followed by `more M`,
/// M being the number of the others. The last line is `explained N`, N being the number of lines
/// before it.
pub fn explain<R: CommitRule>(
    alloc: Global,
    list: &[Found],
    logical: u32,
    out: &mut Vec<u8>,
) -> Result<u32, Memory>
    ensures count { IfOk result (λ n. n ≡ length (pages list.now logical)) }
    ensures text { OnOk result (out.new.items ≡ out.old.items ++ report R.protocol list.now logical) }
    ensures err { OnErr result (out.new.items ≡ out.old.items) }
{
    let mut text = Vec::with_capacity(alloc, list.len().saturating_mul(COMMON_LINE))?;
    let count = write_report(alloc, R::protocol(), list, logical, &mut text)?;
    append(text, out)?;
    Ok(count)
}

/// Appends a text. Where it would stand alone it is not copied.
fn append(text: Vec<u8>, out: &mut Vec<u8>) -> Result<(), Memory>
    ensures ok { OnOk result (out.new.items ≡ out.old.items ++ text.items) }
    ensures err { OnErr result (out.new.items ≡ out.old.items) }
{
    if out.is_empty() {
        *out = text;
    } else {
        out.extend_from_slice(&text)?;
    }
    Ok(())
}

/// Appends the report, and returns the number of pages.
fn write_report(
    alloc: Global,
    protocol: Protocol,
    list: &[Found],
    logical: u32,
    text: &mut Vec<u8>,
) -> Result<u32, AllocError>
    ensures count { IfOk result (λ n. n ≡ length (pages list.now logical)) }
    ensures text { OnOk result (text.new.items
        ≡ text.old.items ++ report protocol list.now logical) }
{
    let records = Records::new(alloc, list)?;
    let outcome = write_lines(alloc, protocol, &records, logical, text);
    drop(records);
    outcome
}

/// Appends the lines of the report, and returns the number of pages.
fn write_lines(
    alloc: Global,
    protocol: Protocol,
    records: &Records,
    logical: u32,
    text: &mut Vec<u8>,
) -> Result<u32, AllocError>
    ensures count { IfOk result (λ n. n ≡ length (pages records.now.chart logical)) }
    ensures text { OnOk result (text.new.items
        ≡ text.old.items ++ report protocol records.now.chart logical) }
{
    let mut room = [0; LINE_ROOM];
    let mut count = 0;
    for page in 0..logical {
        if let Some(rec) = records.newest_record(page) {
            let line = explain_page(alloc, protocol, records, logical, page, &rec)?;
            line.write(&mut room, text)?;
            count += 1;
        }
    }
    write_last(count, text)?;
    Ok(count)
}

/// Appends the last line of a report on this many pages.
fn write_last(count: u32, text: &mut Vec<u8>) -> Result<(), AllocError>
    ensures { OnOk result (text.new.items ≡ text.old.items ++ last_line count) }
{
    text.extend_from_slice(b"explained ")?;
    add_number(u64::from(count), text)?;
    text.extend_from_slice(b"\n")
}

/// What the report says of a page, from its newest record.
fn explain_page(
    alloc: Global,
    protocol: Protocol,
    records: &Records,
    logical: u32,
    page: u32,
    rec: &Rec,
) -> Result<Line, AllocError>
    requires { IsNewestRecord records.now.chart page (Some rec.now) }
    ensures text { IfOk result (λ l. line_text l ≡ verdict_line protocol records.now.chart logical page) }
    ensures few { IfOk result (λ l. length l.walk.shown.items ≤ most_links) }
{
    let why = records.why(protocol, logical, page);
    Ok(Line {
        page,
        newest: rec.version,
        why,
        current: records.current(protocol, page, rec, why),
        walk: Walk::of_page(alloc, records, logical, page)?,
    })
}

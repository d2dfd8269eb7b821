ghost use Rattle.std.specs.Prelude.{◌≡◌, ◌++◌, IfOk, IsOkAnd, OnOk, OnErr};
ghost use Rattle.std.specs.String.{string_bytes};
ghost use Rattle.host_protocol.specs.Replies.{text_of, line_of, stats_words, flash_stats};

use crate::numbers_line::{add_line_of_one, add_line_of_three, add_line_of_two, add_moved};
use crate::page_line::add_page;
use std::alloc::{AllocError, Global};
use tx_types::{Bytes, Memory, Stats};

/// The answer to a command.
#[derive(Drop)]
pub enum Reply {
    /// The page was never written.
    Blank(u32),
    /// The page and its contents.
    Page(u32, Bytes),
    /// The tag of a transaction that was opened, and how many pages it has.
    Opened(u32, u32),
    /// The tag of an open transaction, how many of its pages are written, and how many it has.
    Wrote(u32, u32, u32),
    /// The tag of a transaction all of whose pages are changed now.
    Done(u32),
    /// The tag of a transaction none of whose pages was changed.
    Aborted(u32),
    /// The tag of a transaction that was to be aborted when its pages were changed already.
    Late(u32),
    /// No open transaction has the tag.
    Unknown(u32),
    /// How many open transactions went on by a page, and how many of these went.
    Moved(u32, u32),
    /// A block was won back.
    Collected,
    /// There was nothing to win back.
    Nothing,
    /// The cut, the fault or the bad read is to come.
    Armed,
    /// Power was cut.
    Cut,
    /// The flash failed.
    Fault,
    /// The flash failed while pages of several transactions were written together, and no transaction is open.
    Dropped,
    /// A write without pages.
    RefusedEmpty,
    /// There is no such page.
    RefusedRange(u32),
    /// The page stood in the write before.
    RefusedRepeated(u32),
    /// An open transaction has the tag.
    RefusedTag(u32),
    /// The page belongs to an open transaction, and the tag of that one.
    RefusedOverlap(u32, u32),
    /// The write has more pages than may be pending; how many still may.
    RefusedFull(u32),
    /// The page has no version left.
    RefusedSpent(u32),
    Stats(Stats),
    /// The lines of a report, each with its line feed.
    Report(Bytes),
}

/// Appends the line of the reply with its line feed, or the lines of a report. After `Memory` the bytes
/// are as before.
pub fn reply_text(alloc: Global, reply: &Reply, out: &mut Vec<u8>) -> Result<(), Memory>
    ensures ok { OnOk result (out.new.items ≡ out.old.items ++ text_of reply.now) }
    ensures err { OnErr result (out.new.items ≡ out.old.items) }
{
    match reply {
        Reply::Blank(page) => add_line_of_one(b"blank", *page, out),
        Reply::Page(page, bytes) => add_page(*page, bytes.as_slice(), out),
        Reply::Opened(tag, pages) => add_line_of_two(b"open", *tag, *pages, out),
        Reply::Wrote(tag, done, all) => add_line_of_three(b"wrote", *tag, *done, *all, out),
        Reply::Done(tag) => add_line_of_one(b"done", *tag, out),
        Reply::Aborted(tag) => add_line_of_one(b"aborted", *tag, out),
        Reply::Late(tag) => add_line_of_one(b"late", *tag, out),
        Reply::Unknown(tag) => add_line_of_one(b"unknown", *tag, out),
        Reply::Moved(moved, finished) => add_moved(*moved, *finished, out),
        Reply::Collected => append(b"collected\n", out),
        Reply::Nothing => append(b"nothing\n", out),
        Reply::Armed => append(b"armed\n", out),
        Reply::Cut => append(b"cut\n", out),
        Reply::Fault => append(b"fault\n", out),
        Reply::Dropped => append(b"dropped\n", out),
        Reply::RefusedEmpty => append(b"refused empty\n", out),
        Reply::RefusedRange(page) => add_line_of_one(b"refused range", *page, out),
        Reply::RefusedRepeated(page) => add_line_of_one(b"refused repeated", *page, out),
        Reply::RefusedTag(tag) => add_line_of_one(b"refused tag", *tag, out),
        Reply::RefusedOverlap(page, tag) => add_line_of_two(b"refused overlap", *page, *tag, out),
        Reply::RefusedFull(free) => add_line_of_one(b"refused full", *free, out),
        Reply::RefusedSpent(page) => add_line_of_one(b"refused spent", *page, out),
        Reply::Stats(stats) => push(stats_line(alloc, stats), out),
        Reply::Report(text) => append(text.as_slice(), out),
    }
}

/// Appends bytes.
fn append(bytes: &[u8], out: &mut Vec<u8>) -> Result<(), Memory>
    ensures ok { OnOk result (out.new.items ≡ out.old.items ++ bytes.now) }
    ensures err { OnErr result (out.new.items ≡ out.old.items) }
{
    out.extend_from_slice(bytes)?;
    Ok(())
}

/// Appends a line, if there was memory for it.
fn push(line: Result<String, AllocError>, out: &mut Vec<u8>) -> Result<(), Memory>
    ensures ok { OnOk result (IsOkAnd line (λ l. out.new.items ≡ out.old.items ++ string_bytes l)) }
    ensures err { OnErr result (out.new.items ≡ out.old.items) }
{
    append(line?.as_bytes(), out)
}

/// The line of the numbers of a device.
fn stats_line(alloc: Global, stats: &Stats) -> Result<String, AllocError>
    ensures { IfOk result (λ l. string_bytes l ≡ line_of (stats_words stats.now)) }
{
    let flash = flash_part(alloc, stats)?;
    let Stats {
        written,
        tags,
        pending,
        ..
    } = stats;
    format!(in alloc; "stats written {written} open {tags} pending {pending} {flash}")
}

/// The end of that line, which tells of the flash.
fn flash_part(alloc: Global, stats: &Stats) -> Result<String, AllocError>
    ensures { IfOk result (λ l. string_bytes l ≡ line_of (flash_stats stats.now)) }
{
    let Stats {
        programs,
        erases,
        garbage,
        ..
    } = stats;
    format!(in alloc; "programs {programs} erases {erases} garbage {garbage}\n")
}

ghost use Rattle.std.specs.Prelude.{◌≡◌, ℕ, ◌∷◌, ◌++◌, [], map, take, codes, decimal, length};
ghost use Rattle.tx_types.specs.declared.config.Protocol.{Protocol};
ghost use Rattle.record_list.specs.Verdict.{verdict_of};
ghost use Rattle.verdict_report.specs.Lines.{after_spaces};
ghost use Rattle.verdict_report.specs.Report.{verdict_word, reason_words, link_word, more_words, most_links, last_line, verdict_line};
ghost use Rattle.verdict_report.specs.Walks.{links_of};
ghost use Rattle.verdict_check.specs.Expected.{IsExpected};
ghost use Rattle.verdict_check.specs.Texts.{left, left_behind};

use crate::expected::Expected;
use crate::reading::Reading;
use crate::records::Records;
use record_list::Why;
use tx_types::Link;

/// The links of a walk that a line names at most.
const SHOWN_LINKS: u32 = 16;

/// Reads the line of a page.
pub fn read_line<'a>(reading: Reading<'a>, records: &Records, line: &Expected) -> Reading<'a>
    ensures { (protocol : Protocol) (logical : ℕ) → IsExpected protocol records.now.list.now logical line.now →
        left result ≡ left_behind (verdict_line protocol records.now.list.now logical line.now.page)
        (left reading.entry) }
{
    let reading = read_page(reading, line.page, line.newest);
    let reading = read_verdict(reading, line.why);
    let reading = read_reason(reading, line.why);
    let reading = read_current(reading, line.current);
    let reading = read_links(reading, records, line.page, line.links);
    read_more(reading, line.links).then(b"\n")
}

/// Reads the page and its newest version.
fn read_page(reading: Reading, page: u32, newest: u64) -> Reading
    ensures { left result
        ≡ left_behind (codes "verdict" ++ after_spaces (decimal page ∷ codes "newest" ∷ decimal newest ∷ []))
        (left reading.entry) }
{
    reading
        .then(b"verdict ")
        .then_number(u64::from(page))
        .then(b" newest ")
        .then_number(newest)
}

/// Reads the verdict that this decides.
fn read_verdict(reading: Reading, why: Why) -> Reading
    ensures { left result ≡ left_behind (after_spaces (verdict_word (verdict_of why) ∷ [])) (left reading.entry) }
{
    match why {
        Why::Cycle | Why::Passed => reading.then(b" committed"),
        Why::Absent | Why::Straddled(_) => reading.then(b" uncommitted"),
    }
}

/// Reads what decides it.
fn read_reason(reading: Reading, why: Why) -> Reading
    ensures { left result ≡ left_behind (after_spaces (reason_words why)) (left reading.entry) }
{
    match why {
        Why::Cycle => reading.then(b" cycle"),
        Why::Passed => reading.then(b" passed"),
        Why::Absent => reading.then(b" absent"),
        Why::Straddled(version) => reading.then(b" straddled ").then_number(version),
    }
}

/// Reads the current version, and what comes before the links.
fn read_current(reading: Reading, current: u64) -> Reading
    ensures { left result
        ≡ left_behind (after_spaces (codes "current" ∷ decimal current ∷ codes "walk" ∷ [])) (left reading.entry) }
{
    reading
        .then(b" current ")
        .then_number(current)
        .then(b" walk")
}

/// Reads the first links of the walk from the newest record of a page, which has this many.
fn read_links<'a>(reading: Reading<'a>, records: &Records, page: u32, links: u32) -> Reading<'a>
    ensures { (logical : ℕ) → links ≡ length (links_of records.now.list.now logical page) →
        left result ≡ left_behind
        (after_spaces (map link_word (take most_links (links_of records.now.list.now logical page))))
        (left reading.entry) }
{
    let mut reading = reading;
    let mut link = records.newest_link(page);
    for _shown in 0..links.min(SHOWN_LINKS) {
        reading = read_link(reading, link);
        link = records.newest_link(link.page);
    }
    reading
}

/// Reads a link.
fn read_link(reading: Reading, link: Link) -> Reading
    ensures { left result ≡ left_behind (32 ∷ link_word link) (left reading.entry) }
{
    reading
        .then(b" ")
        .then_number(u64::from(link.page))
        .then(b":")
        .then_number(link.version)
}

/// Reads how many of this many links are not named, if any are not.
fn read_more(reading: Reading, links: u32) -> Reading
    ensures { left result ≡ left_behind (after_spaces (more_words links)) (left reading.entry) }
{
    if links <= SHOWN_LINKS {
        return reading;
    }
    reading
        .then(b" more ")
        .then_number(u64::from(links - SHOWN_LINKS))
}

/// Reads the last line of a report on this many pages.
pub fn read_last(reading: Reading, pages: u32) -> Reading
    ensures { left result ≡ left_behind (last_line pages) (left reading.entry) }
{
    reading
        .then(b"explained ")
        .then_number(u64::from(pages))
        .then(b"\n")
}

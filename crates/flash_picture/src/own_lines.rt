//! Which pages have a line of their own. A walk that many pages share is told once.
ghost use Rattle.std.specs.Prelude.{◌≡◌, ◌<◌, IfOk, IfSome, length};
ghost use Rattle.record_list.specs.Verdict.{is_committed};
ghost use Rattle.sorted_records.specs.SortedRecords.{EndsBelow};
ghost use Rattle.flash_picture.specs.Walks.{AreLedTo, is_led_to, is_part, line_end, marked, page_behind, page_of_newest, part_by};

use crate::walk::{End, leaving_link_by, newest_name};
use record_list::Why;
use sorted_records::{Orbit, SortedRecords};
use std::alloc::{AllocError, Global};
use tx_types::{Link, Protocol};

/// How many records a line names: that at which its walk begins, and those of its first links.
const MOST_NAMED: u64 = 17;

/// For each page whether the newest record of another one does not count, and links to its newest one.
pub fn pages_led_to(
    alloc: Global,
    chart: &SortedRecords,
    protocol: Protocol,
    logical: u32,
) -> Result<Vec<bool>, AllocError>
    ensures { IfOk result (λ led. AreLedTo protocol chart.now logical logical led.items) }
{
    let mut led = vec![in alloc; false; logical as usize]?;
    for page in 0..logical {
        mark(page_behind(chart, protocol, logical, page), &mut led);
    }
    Ok(led)
}

/// Marks a page, if there is one.
fn mark(page: Option<u32>, led: &mut Vec<bool>)
    requires { IfSome page (λ page. page < length led.old.items) }
    ensures { led.new.items ≡ marked page led.old.items }
{
    if let Some(page) = page {
        led[page as usize] = true;
    }
}

/// The page to whose newest record that of this page links, where the latter does not count.
fn page_behind(chart: &SortedRecords, protocol: Protocol, logical: u32, page: u32) -> Option<u32>
    ensures page { result ≡ page_behind protocol chart.now logical page }
    ensures within { IfSome result (λ page. page < logical) }
{
    if counts(chart.why(protocol, logical, page)) {
        None
    } else {
        page_of_newest(chart, logical, chart.link_of(newest_name(chart, page)))
    }
}

/// Whether a version counts, by what decides this.
fn counts(why: Why) -> bool
    ensures { result ≡ is_committed why }
{
    match why {
        Why::Cycle => true,
        Why::Passed => true,
        Why::Absent => false,
        Why::Straddled(_) => false,
    }
}

/// The page to whose newest record a link leads, if it leads to one.
fn page_of_newest(chart: &SortedRecords, logical: u32, link: Link) -> Option<u32>
    ensures page { result ≡ page_of_newest chart.now logical link }
    ensures within { IfSome result (λ page. page < logical) }
{
    if link.page < logical && link.version == chart.newest(link.page) {
        Some(link.page)
    } else {
        None
    }
}

/// How the line of a page ends, by whether a walk leads to its newest record; nothing where its newest version counts,
/// or the line of another page names that.
pub fn line_end(
    chart: &SortedRecords,
    protocol: Protocol,
    logical: u32,
    page: u32,
    led_to: bool,
) -> Option<End>
    requires { led_to ≡ is_led_to protocol chart.now logical page }
    ensures { result ≡ line_end protocol chart.now logical page }
{
    if led_to && is_part(chart, logical, page) {
        None
    } else {
        End::of_page(chart, protocol, logical, page)
    }
}

/// Whether the walk of a page leaves the newest records, and not after a multiple of the records that a line names.
fn is_part(chart: &SortedRecords, logical: u32, page: u32) -> bool
    ensures { result ≡ is_part chart.now logical page }
{
    match chart.orbit(page) {
        Some(orbit) => part_by(chart, logical, orbit),
        None => false,
    }
}

/// The same by the orbit of the place of the newest record of a page.
fn part_by(chart: &SortedRecords, logical: u32, orbit: Orbit) -> bool
    requires { EndsBelow (length chart.now) orbit }
    ensures { result ≡ part_by chart.now logical orbit }
{
    match orbit {
        Orbit::Ends { after, at } => {
            let last = leaving_link_by(chart, logical, Orbit::Ends { after, at });
            last.is_some() && !(u64::from(after) + 1).is_multiple_of(MOST_NAMED)
        }
        Orbit::Round { .. } => false,
        Orbit::Aside => false,
    }
}

ghost use Rattle.std.specs.Prelude.{◌≡◌, [], take, length, vec_capacity, IfOk};
ghost use Rattle.verdict_report.specs.Lines.{IsWalk};
ghost use Rattle.verdict_report.specs.Report.{most_links};
ghost use Rattle.verdict_report.specs.Walks.{links_of};

use crate::records::Records;
use std::alloc::{AllocError, Global};
use tx_types::Link;

/// How many links of a walk a report shows.
pub const SHOWN_LINKS: u32 = 16;

/// What a report says of the links of a walk.
#[derive(Drop)]
pub struct Walk {
    /// The first of them, at most `SHOWN_LINKS`.
    pub shown: Vec<Link>,
    /// How many they are.
    pub count: u64,
}

impl Walk {
    /// The walk from the newest record of a page.
    pub fn of_page(
        alloc: Global,
        records: &Records,
        logical: u32,
        page: u32,
    ) -> Result<Walk, AllocError>
        ensures { IfOk result (λ w. IsWalk w (links_of records.now.chart logical page)) }
    {
        let shown = first_links(alloc, records, logical, page)?;
        let count = count_links(records, logical, page, shown.len());
        Ok(Walk { shown, count })
    }
}

/// How many links the walk from the newest record of a page has, of which a report shows this many.
fn count_links(records: &Records, logical: u32, page: u32, shown: usize) -> u64
    requires { shown ≡ length (take most_links (links_of records.now.chart logical page)) }
    ensures { result ≡ length (links_of records.now.chart logical page) }
{
    if shown < SHOWN_LINKS as usize {
        shown as u64
    } else {
        records.walk_length(logical, page)
    }
}

/// The first links of the walk from the newest record of a page.
fn first_links(
    alloc: Global,
    records: &Records,
    logical: u32,
    page: u32,
) -> Result<Vec<Link>, AllocError>
    ensures { IfOk result (λ links. links.items
        ≡ take most_links (links_of records.now.chart logical page)) }
{
    let mut links = Vec::with_capacity(alloc, SHOWN_LINKS as usize)?;
    push_links(records, logical, page, &mut links);
    Ok(links)
}

/// Adds the same to a list that has none, and room for all.
fn push_links(records: &Records, logical: u32, page: u32, links: &mut Vec<Link>)
    requires empty { links.old.items ≡ [] }
    requires room { vec_capacity links.old ≡ most_links }
    ensures { links.new.items ≡ take most_links (links_of records.now.chart logical page) }
{
    let start = records.newest_name(page);
    let mut last = records.newest_link(page);
    links.push_reserved(last);
    for _turn in 0..logical.min(SHOWN_LINKS - 1) {
        let Some(link) = records.next_link(start, last) else {
            break;
        };
        links.push_reserved(link);
        last = link;
    }
}

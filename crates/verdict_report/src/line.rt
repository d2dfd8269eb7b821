ghost use Rattle.std.specs.Prelude.{◌≡◌, ◌∷◌, ◌++◌, ◌+◌, ◌*◌, ◌≤◌, [], OnOk, map, codes, length, drop};
ghost use Rattle.std.specs.Fmt.{decimal};
ghost use Rattle.verdict_report.specs.Lines.{after_spaces, line_text};
ghost use Rattle.verdict_report.specs.Report.{verdict_word, reason_words, link_word, more_words, most_links};

use crate::backwards::{put_bytes, put_number};
use crate::walk::{SHOWN_LINKS, Walk};
use record_list::{Verdict, Why};
use std::alloc::AllocError;
use tx_types::Link;

/// Room for a line, in bytes.
pub const LINE_ROOM: usize = 1024;

/// What a report says of a page that has a record.
#[derive(Drop)]
pub struct Line {
    pub page: u32,
    /// Its newest version.
    pub newest: u64,
    /// What decides the verdict on that.
    pub why: Why,
    /// Its current version, 0 for none.
    pub current: u64,
    /// The walk that decides.
    pub walk: Walk,
}

impl Line {
    /// Appends the line with its line feed. It is put together in the room, from its end.
    pub fn write(self, room: &mut [u8; LINE_ROOM], text: &mut Vec<u8>) -> Result<(), AllocError>
        requires { length self.walk.shown.items ≤ most_links }
        ensures { OnOk result (text.new.items ≡ text.old.items ++ line_text self) }
    {
        let start = self.put(room);
        text.extend_from_slice(&room[start..])
    }

    /// Puts the line at the end of the room, and returns where it begins.
    fn put(&self, room: &mut [u8; LINE_ROOM]) -> usize
        requires { length self.now.walk.shown.items ≤ most_links }
        ensures within { result ≤ 1024 }
        ensures put { drop result room.new ≡ line_text self.now }
    {
        let end = put_bytes(b"\n", room, LINE_ROOM);
        let end = put_more(self.walk.count, room, end);
        let end = put_links(&self.walk.shown, room, end);
        let end = put_current(self.current, room, end);
        let end = put_reason(self.why, room, end);
        let end = put_verdict(self.why.verdict(), room, end);
        put_page(self.page, self.newest, room, end)
    }
}

/// Puts the page and its newest version.
fn put_page(page: u32, newest: u64, room: &mut [u8], end: usize) -> usize
    requires { (60 ≤ end) × (end ≤ length room.old) }
    ensures within { (result ≤ end) × (end ≤ result + 60) }
    ensures put { drop result room.new ≡ (codes "verdict"
        ++ after_spaces (decimal page ∷ codes "newest" ∷ decimal newest ∷ [])) ++ drop end room.old }
{
    let end = put_number(newest, room, end);
    let end = put_bytes(b" newest ", room, end);
    let end = put_number(u64::from(page), room, end);
    put_bytes(b"verdict ", room, end)
}

/// Puts the verdict.
fn put_verdict(verdict: Verdict, room: &mut [u8], end: usize) -> usize
    requires { (12 ≤ end) × (end ≤ length room.old) }
    ensures within { (result ≤ end) × (end ≤ result + 12) }
    ensures put { drop result room.new
        ≡ after_spaces (verdict_word verdict ∷ []) ++ drop end room.old }
{
    match verdict {
        Verdict::Committed => put_bytes(b" committed", room, end),
        Verdict::Uncommitted => put_bytes(b" uncommitted", room, end),
    }
}

/// Puts what decides a verdict.
fn put_reason(why: Why, room: &mut [u8], end: usize) -> usize
    requires { (40 ≤ end) × (end ≤ length room.old) }
    ensures within { (result ≤ end) × (end ≤ result + 40) }
    ensures put { drop result room.new ≡ after_spaces (reason_words why) ++ drop end room.old }
{
    match why {
        Why::Cycle => put_bytes(b" cycle", room, end),
        Why::Passed => put_bytes(b" passed", room, end),
        Why::Absent => put_bytes(b" absent", room, end),
        Why::Straddled(version) => {
            let end = put_number(version, room, end);
            put_bytes(b" straddled ", room, end)
        }
    }
}

/// Puts the current version, and what comes before the links.
fn put_current(current: u64, room: &mut [u8], end: usize) -> usize
    requires { (40 ≤ end) × (end ≤ length room.old) }
    ensures within { (result ≤ end) × (end ≤ result + 40) }
    ensures put { drop result room.new
        ≡ after_spaces (codes "current" ∷ decimal current ∷ codes "walk" ∷ []) ++ drop end room.old }
{
    let end = put_bytes(b" walk", room, end);
    let end = put_number(current, room, end);
    put_bytes(b" current ", room, end)
}

/// Puts links, of which there are at most `SHOWN_LINKS`.
fn put_links(links: &[Link], room: &mut [u8], end: usize) -> usize
    requires few { length links.now ≤ most_links }
    requires room { (42 * most_links ≤ end) × (end ≤ length room.old) }
    ensures within { (result ≤ end) × (end ≤ result + 42 * most_links) }
    ensures put { drop result room.new ≡ after_spaces (map link_word links.now) ++ drop end room.old }
{
    let mut start = end;
    let mut left = links.len();
    while left > 0 {
        left -= 1;
        start = put_link(links[left], room, start);
    }
    start
}

/// Puts a link.
#[inline(always)]
fn put_link(link: Link, room: &mut [u8], end: usize) -> usize
    requires { (42 ≤ end) × (end ≤ length room.old) }
    ensures within { (result ≤ end) × (end ≤ result + 42) }
    ensures put { drop result room.new ≡ after_spaces (link_word link ∷ []) ++ drop end room.old }
{
    let end = put_number(link.version, room, end);
    let end = put_bytes(b":", room, end);
    let end = put_number(u64::from(link.page), room, end);
    put_bytes(b" ", room, end)
}

/// Puts how many of this many links are not shown, if any are not.
fn put_more(count: u64, room: &mut [u8], end: usize) -> usize
    requires { (30 ≤ end) × (end ≤ length room.old) }
    ensures within { (result ≤ end) × (end ≤ result + 30) }
    ensures put { drop result room.new ≡ after_spaces (more_words count) ++ drop end room.old }
{
    let shown = u64::from(SHOWN_LINKS);
    if count > shown {
        let end = put_number(count - shown, room, end);
        put_bytes(b" more ", room, end)
    } else {
        end
    }
}

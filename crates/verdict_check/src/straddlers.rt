ghost use Rattle.std.specs.Prelude.{◌≡◌, ◌≢◌, ℕ, ◌+◌, ◌<◌, ◌≤◌, None, Some, All, length};
ghost use Rattle.tx_types.specs.declared.config.Protocol.TheVariants.{Bpcc};
ghost use Rattle.record_list.specs.Records.{newest};
ghost use Rattle.verdict_check.specs.Older.{version_at};
ghost use Rattle.verdict_check.specs.Straddlers.{page_behind, AreLast, AreBefore, AreStraddlersOf, AreStraddlers, TakesIn};

use crate::records::{MOST_PAGES, Records};
use tx_types::{Protocol, Rec};

/// Notes of the page of each newest record the greatest version that straddles the link of that, 0 for none, where
/// the protocol asks for it.
pub fn note_straddlers(records: &Records, protocol: Protocol, logical: u32, straddlers: &mut [u64])
    requires few { logical ≤ 65536 }
    requires pages { All (λ f. f.rec.page < logical) records.now.list.now }
    requires size { length straddlers.old ≡ 65536 }
    requires empty { All (λ version. version ≡ 0) straddlers.old }
    ensures { protocol ≡ Bpcc → AreStraddlers records.now.list.now straddlers.new }
{
    match protocol {
        Protocol::Scc => {}
        Protocol::Bpcc => note_versions(records, logical, straddlers),
    }
}

/// Notes the straddlers of the newest records under Back Pointer Cyclic Commit. It looks at each record once, with the
/// links into its page.
fn note_versions(records: &Records, logical: u32, straddlers: &mut [u64])
    requires few { logical ≤ 65536 }
    requires pages { All (λ f. f.rec.page < logical) records.now.list.now }
    requires size { length straddlers.old ≡ 65536 }
    requires empty { All (λ version. version ≡ 0) straddlers.old }
    ensures { AreStraddlers records.now.list.now straddlers.new }
{
    let mut last = [None; MOST_PAGES];
    let mut before = [None; MOST_PAGES];
    note_links(records, logical, &mut last, &mut before);
    for found in records.list {
        note_version(records, logical, found.rec, &last, &before, straddlers);
    }
}

/// Chains the pages whose newest records lead behind, by the pages to which they lead.
fn note_links(records: &Records, logical: u32, last: &mut [Option<u32>], before: &mut [Option<u32>])
    requires few { logical ≤ length before.old }
    requires pages { All (λ f. f.rec.page < length last.old) records.now.list.now }
    requires empty { All (λ page. page ≡ None) last.old }
    ensures last { AreLast records.now.list.now logical last.new }
    ensures before { AreBefore records.now.list.now logical before.new }
{
    for page in 0..logical {
        note_link(records, page, last, before);
    }
}

/// Puts a page at the end of its chain, if its newest record leads behind.
fn note_link(records: &Records, page: u32, last: &mut [Option<u32>], before: &mut [Option<u32>])
    requires page { page < length before.old }
    requires pages { All (λ f. f.rec.page < length last.old) records.now.list.now }
    requires last { AreLast records.now.list.now page last.old }
    requires before { AreBefore records.now.list.now page before.old }
    ensures last { AreLast records.now.list.now (page + 1) last.new }
    ensures before { AreBefore records.now.list.now (page + 1) before.new }
    ensures size { length last.new ≡ length last.old }
    ensures before_size { length before.new ≡ length before.old }
{
    let link = records.newest_link(page);
    if link.version < records.newest(link.page) {
        let into = link.page as usize;
        before[page as usize] = last[into];
        last[into] = Some(page);
    }
}

/// Notes the version of a record for each page whose newest record has a link that it straddles: for those that lead
/// behind into its page, along their chain.
fn note_version(
    records: &Records,
    logical: u32,
    rec: Rec,
    last: &[Option<u32>],
    before: &[Option<u32>],
    straddlers: &mut [u64],
)
    requires page { rec.page < length last.now }
    requires known { rec.version ≤ newest records.now.list.now rec.page }
    requires few { logical ≤ length before.now }
    requires size { logical ≤ length straddlers.old }
    requires last { AreLast records.now.list.now logical last.now }
    requires before { AreBefore records.now.list.now logical before.now }
    ensures noted { (page : ℕ) → page < logical →
        TakesIn records.now.list.now rec straddlers.old straddlers.new page }
    ensures size { length straddlers.new ≡ length straddlers.old }
{
    let mut next = last[rec.page as usize];
    while let Some(page) = next {
        note_straddled(records, rec, page, straddlers);
        next = before[page as usize];
    }
}

/// Notes the version of a record for a page, where it straddles the link of its newest record into its own page.
fn note_straddled(records: &Records, rec: Rec, page: u32, straddlers: &mut [u64])
    requires within { page < length straddlers.old }
    requires into { page_behind records.now.list.now page ≡ Some rec.page }
    ensures noted { TakesIn records.now.list.now rec straddlers.old straddlers.new page }
    ensures others { (p : ℕ) → p ≢ page → version_at straddlers.new p ≡ version_at straddlers.old p }
    ensures size { length straddlers.new ≡ length straddlers.old }
{
    let name = records.newest_link(page);
    if rec.back < name.version && name.version < rec.version {
        let at = page as usize;
        straddlers[at] = straddlers[at].max(rec.version);
    }
}

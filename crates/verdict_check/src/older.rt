ghost use Rattle.std.specs.Prelude.{◌≡◌, ◌<◌, ℕ, All, length, max};
ghost use Rattle.record_list.specs.Records.{newest, version_below};
ghost use Rattle.verdict_check.specs.Older.{version_at, AreOlder};

use crate::records::Records;
use tx_types::Rec;

/// Notes the greatest version of each page below its newest one, 0 for none.
pub fn note_older(records: &Records, older: &mut [u64])
    requires pages { All (λ f. f.rec.page < length older.old) records.now.list.now }
    requires empty { All (λ version. version ≡ 0) older.old }
    ensures { AreOlder records.now.list.now (length records.now.list.now) older.new }
{
    for found in records.list {
        note_version(records, found.rec, older);
    }
}

/// Notes the version of a record, where it is below the newest one of its page.
#[tactic(auto, using(crate::proofs::OlderLemmas::noted_below, crate::proofs::OlderLemmas::noted_not))]
fn note_version(records: &Records, rec: Rec, older: &mut [u64])
    requires page { rec.page < length older.old }
    ensures noted { (page : ℕ) → version_at older.new page
        ≡ max (version_at older.old page) (version_below page (newest records.now.list.now page) rec) }
    ensures size { length older.new ≡ length older.old }
{
    let page = rec.page as usize;
    if rec.version < records.newest(rec.page) {
        older[page] = older[page].max(rec.version);
    }
}

ghost use Rattle.std.specs.Prelude.{◌≡◌, ℕ, ◌+◌, ◌<◌, ◌≤◌, false, Some, length, slice_set, IfSome, IsSomeAnd, if◌then◌else◌};
ghost use Rattle.tx_types.specs.Config.{slots_of};
ghost use Rattle.slot_tables.specs.TablesState.{number_at};
ghost use Rattle.judged_records.specs.Numbered.{rec_at};
ghost use Rattle.version_index.specs.Written.{fills, pages_written};

use slot_tables::Tables;

/// Whether the record of a number fills its page: there is one, which does not discard it.
pub fn fills(tables: &Tables, number: Option<u32>) -> bool
    requires { IfSome number (λ x. x < slots_of tables.now.shape) }
    ensures { result ≡ fills tables.now.records number }
{
    match number {
        None => false,
        Some(number) => match tables.record(number) {
            None => false,
            Some(rec) => !rec.discard,
        },
    }
}

/// The number of pages that their current records fill, where it is known whether a record may discard its page. If
/// none does, each page with a current record is filled, and no page is looked at. It is called once, when tables are
/// made.
pub fn count_written(tables: &Tables, logical: u32, discards: bool) -> u32
    requires pages { length tables.now.pages ≡ logical }
    requires kept { discards ≡ false →
        (page x : ℕ) → page < length tables.now.pages → number_at tables.now.current page ≡ Some x →
        IsSomeAnd (rec_at tables.now.records x) (λ r. r.discard ≡ false) }
    ensures { result ≡ pages_written tables.now }
{
    // For the proof: the sizes of the tables.
    let _ = tables.shape();
    if discards {
        return count_filled(tables, logical);
    }
    tables.count_written() as u32
}

/// The number of pages that their current records fill. It looks at each page.
fn count_filled(tables: &Tables, logical: u32) -> u32
    requires { length tables.now.pages ≡ logical }
    ensures { result ≡ pages_written tables.now }
{
    // For the proof: the sizes of the tables.
    let _ = tables.shape();
    let mut count = 0;
    for page in 0..logical {
        if fills(tables, tables.current(page)) {
            count += 1;
        }
    }
    count
}

/// Whether the current record of a page fills it.
pub fn is_filled(tables: &Tables, page: u32) -> bool
    requires { page < length tables.now.pages }
    ensures { result ≡ fills tables.now.records (number_at tables.now.current page) }
{
    fills(tables, tables.current(page))
}

/// Sets which record of a page is current, and keeps the number of pages that their current records fill. The caller
/// knows whether the record before fills the page and whether this one does, and so looks at each of them once.
pub fn set_current(
    tables: &mut Tables,
    written: &mut u32,
    page: u32,
    to: Option<u32>,
    before: bool,
    after: bool,
)
    requires page { page < length tables.old.pages }
    requires number { IfSome to (λ x. x < slots_of tables.old.shape) }
    requires few { length tables.old.pages ≤ 65536 }
    requires written { written.old ≡ pages_written tables.old }
    requires before { before ≡ fills tables.old.records (number_at tables.old.current page) }
    requires after { after ≡ fills tables.old.records to }
    ensures set { tables.new ≡ record tables.old { current = slice_set tables.old.current page to } }
    ensures written { written.new ≡ pages_written tables.new }
{
    // For the proof: the sizes of the tables.
    let _ = tables.shape();
    tables.set_current(page, to);
    *written = recount(*written, before, after);
}

/// A count of what passes a test, once one thing passes or fails that passed or failed before.
fn recount(count: u32, passed: bool, passes: bool) -> u32
    requires counted { (if passed then 1 else 0) ≤ count }
    requires few { count ≤ 65536 }
    ensures { result + (if passed then 1 else 0) ≡ count + (if passes then 1 else 0) }
{
    let others = if passed { count - 1 } else { count };
    if passes { others + 1 } else { others }
}

ghost use Rattle.std.specs.Prelude.{◌≡◌, ◌<◌, if◌then◌else◌};
ghost use Rattle.record_list.specs.Transaction.{back_version};
ghost use Rattle.judged_records.specs.Notes.{found_in};
ghost use Rattle.tx_engine.specs.Calls.{CanProgram, CanWriteNext, ClearsFor, FindsFor, IsClearFor, IsReadyFor, IsRecordDue, WritesPage};
ghost use Rattle.open_table.specs.OpenTransactionsState.{HasPlace, bytes_due, name_due, transaction_at, with_transaction, with_mark};
ghost use Rattle.tx_engine.specs.Readying.{MakesRoom};
ghost use Rattle.tx_engine.specs.Settling.{is_at_last};
ghost use Rattle.tx_engine.specs.StoreState.{WritesOwn, store_in};

use crate::Mark;
use crate::settling::note_next;
use crate::store::Store;
use collector::theorems;
use flash_model::{Broken, Flash};
use open_table::OpenTransactions;
use record_list::CommitRule;
use tx_types::{Link, Protocol, Rec, Slot};

/// Writes the next page of the transaction at an index, which is plain, and notes its record: with
/// the last one the transaction is whole. Records that must go are cleared away before, and where no
/// block has room one is collected. After a broken program of its last page the transaction is in
/// doubt.
pub(crate) fn write_next<F: Flash, R: CommitRule>(
    store: &mut Store<F, R>,
    transactions: &mut OpenTransactions,
    at: usize,
) -> Result<(), Broken>
    requires { CanWriteNext F.state R.protocol store.old transactions.old at }
    ensures { WritesPage F.state store.old store.new transactions.old transactions.new at result }
{
    theorems::image_is_sound::<R>();
    theorems::noting_keeps::<R>();
    evict_blocks_to_go(store, transactions, at)?;
    let slot = find_slot(store, transactions, at)?;
    let rec = next_record(store, transactions, at);
    if let Err(broken) = program(store, transactions, at, slot, rec) {
        mark_doubt_at_last(transactions, at);
        return Err(broken);
    }
    note_next(transactions, at);
    Ok(())
}

/// Evicts each block that holds a record which must go before the next page of the transaction at an index is written.
fn evict_blocks_to_go<F: Flash, R: CommitRule>(
    store: &mut Store<F, R>,
    transactions: &OpenTransactions,
    at: usize,
) -> Result<(), Broken>
    requires { IsReadyFor F.state R.protocol store.old transactions.now at }
    ensures { ClearsFor F.state R.protocol store.old store.new transactions.now
        (name_due transactions.now at) result }
{
    theorems::array_stays::<R>();
    theorems::image_is_sound::<R>();
    let name = transactions.name(at, transactions.done_count(at));
    store.evict_blocks_to_go(name.page, name.version)
}

/// The slot in which its record is programmed. Where no block has room one is collected first.
fn find_slot<F: Flash, R: CommitRule>(
    store: &mut Store<F, R>,
    transactions: &OpenTransactions,
    at: usize,
) -> Result<Slot, Broken>
    requires { IsClearFor F.state R.protocol store.old transactions.now at }
    ensures { FindsFor F.state R.protocol store.old store.new transactions.now
        (name_due transactions.now at) result }
{
    theorems::array_stays::<R>();
    theorems::image_is_sound::<R>();
    store.allocate_slot()
}

/// Makes room for the next page of the transaction at an index: records that must go are cleared away, and where no
/// block has room one is collected.
pub(crate) fn make_room<F: Flash, R: CommitRule>(
    store: &mut Store<F, R>,
    transactions: &OpenTransactions,
    at: usize,
) -> Result<(), Broken>
    requires { IsReadyFor F.state R.protocol store.old transactions.now at }
    ensures { MakesRoom F.state store.old store.new transactions.now (name_due transactions.now at) result }
{
    evict_blocks_to_go(store, transactions, at)?;
    if store.has_room() {
        return Ok(());
    }
    // The slot stays free, and the search comes to it again.
    let _slot = find_slot(store, transactions, at)?;
    Ok(())
}

/// The record that the transaction at an index writes next.
pub(crate) fn next_record<F: Flash, R: CommitRule>(
    store: &Store<F, R>,
    transactions: &OpenTransactions,
    at: usize,
) -> Rec
    requires next { HasPlace transactions.now at (transaction_at transactions.now at).entry.done }
    requires page { (name_due transactions.now at).page < store.now.noted.config.logical }
    ensures { IsRecordDue store.now.noted transactions.now at result }
{
    let pages = transactions.pages(at);
    let done = transactions.done_count(at);
    let Link { page, version } = transactions.name(at, done);
    let place = if done + 1 == pages { 0 } else { done + 1 };
    Rec {
        page,
        version,
        next: transactions.name(at, place),
        back: back_version(store, page),
        count: pages,
        discard: transactions.discards(at, done),
    }
}

/// The back version of a record of this page that is written now.
fn back_version<F: Flash, R: CommitRule>(store: &Store<F, R>, page: u32) -> u64
    requires { page < store.now.noted.config.logical }
    ensures { result ≡ back_version store.now.noted.config.protocol (found_in store.now.noted.notes)
        store.now.noted.config.logical page }
{
    match store.config().protocol {
        Protocol::Scc => 0,
        Protocol::Bpcc => store.version(page),
    }
}

/// Programs the next record of the transaction at an index with its page.
fn program<F: Flash, R: CommitRule>(
    store: &mut Store<F, R>,
    transactions: &OpenTransactions,
    at: usize,
    slot: Slot,
    rec: Rec,
) -> Result<(), Broken>
    requires { CanProgram R.protocol (store_in F.state store.old) transactions.now at slot rec }
    ensures { WritesOwn (store_in F.state store.old) (store_in F.state store.new) slot rec
        (bytes_due transactions.now at) result }
{
    store.write(
        slot,
        rec,
        transactions.bytes(at, transactions.done_count(at)),
    )
}

/// The transaction at an index is in doubt where it was writing its last page.
fn mark_doubt_at_last(transactions: &mut OpenTransactions, at: usize)
    requires { HasPlace transactions.old at (transaction_at transactions.old at).entry.done }
    ensures { transactions.new ≡ (if is_at_last (transaction_at transactions.old at).entry
        then with_transaction transactions.old at (with_mark (transaction_at transactions.old at) Mark.Doubt)
        else transactions.old) }
{
    let pages = transactions.pages(at);
    if transactions.done_count(at) + 1 == pages {
        transactions.set_mark(at, Mark::Doubt);
    }
}

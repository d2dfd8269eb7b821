ghost use Rattle.std.specs.Prelude.{◌≡◌, ◌<◌, ◌+◌, All, length, position};
ghost use Rattle.array_machine.specs.ArrayState.{is_doubted};
ghost use Rattle.tx_engine.specs.Calls.{SettlesDevice};
ghost use Rattle.tx_engine.specs.DeviceState.{Stands};
ghost use Rattle.open_table.specs.OpenTransactionsState.{transaction_at, with_transaction};
ghost use Rattle.tx_engine.specs.Settling.{with_next, is_writing};
ghost use Rattle.tx_engine.specs.Tables.{device_in};

use crate::Mark;
use crate::store::Store;
use collector::{Settled, Unsure, theorems};
use flash_model::{Broken, Flash};
use open_table::OpenTransactions;
use record_list::CommitRule;

/// Finds out what a broken operation left, and what that makes of the open transactions. The
/// flash is only read. After a failed read all is as before.
#[inline(always)]
pub(crate) fn settle<F: Flash, R: CommitRule>(
    store: &mut Store<F, R>,
    transactions: &mut OpenTransactions,
) -> Result<(), Broken>
    requires stands { Stands F.state (device_in F.state store.old transactions.old) }
    requires rule { store.old.noted.config.protocol ≡ R.protocol }
    ensures { SettlesDevice F.state store.old store.new transactions.old transactions.new result }
{
    theorems::image_is_sound::<R>();
    theorems::noting_keeps::<R>();
    theorems::array_stays::<R>();
    let writer = writer(store, transactions);
    let doubted = position_in_doubt(store, transactions);
    let found = store.settle()?;
    match found {
        Settled::Present => {
            if let Some(at) = writer {
                note_next(transactions, at);
            }
        }
        Settled::Missing | Settled::Other => {
            if let Some(at) = doubted {
                transactions.set_mark(at, Mark::Plain);
            }
        }
    }
    Ok(())
}

/// Where the open transaction stands of which a record was being programmed when that broke, if it
/// was such a record.
fn writer<F: Flash, R: CommitRule>(
    store: &Store<F, R>,
    transactions: &OpenTransactions,
) -> Option<usize>
    requires { All (λ o. o.entry.done < length o.entry.writes) transactions.now.all }
    ensures { (at : _) (rec : _) → store.now.unsure ≡ Unsure.Own at rec →
        result ≡ position (is_writing rec.page) transactions.now.all }
{
    match store.unsure() {
        Unsure::Own { at: _, rec } => position_writing(transactions, rec.page),
        _ => None,
    }
}

/// Where the open transaction stands that is in doubt. Where nothing is unsure there is none.
fn position_in_doubt<F: Flash, R: CommitRule>(
    store: &Store<F, R>,
    transactions: &OpenTransactions,
) -> Option<usize>
    requires { Stands F.state (device_in F.state store.now transactions.now) }
    ensures { result ≡ position (λ o. is_doubted o.entry.mark) transactions.now.all }
{
    match store.unsure() {
        Unsure::Nothing => None,
        _ => transactions.in_doubt(),
    }
}

/// Where the open transaction stands that writes this page next.
fn position_writing(transactions: &OpenTransactions, page: u32) -> Option<usize>
    requires { All (λ o. o.entry.done < length o.entry.writes) transactions.now.all }
    ensures { result ≡ position (is_writing page) transactions.now.all }
{
    for at in 0..transactions.count() as usize {
        if transactions.name(at, transactions.done_count(at)).page == page {
            return Some(at);
        }
    }
    None
}

/// The next record of a transaction is noted: with its last one the transaction is whole.
pub(crate) fn note_next(transactions: &mut OpenTransactions, at: usize)
    requires at { at < length transactions.old.all }
    requires short { (transaction_at transactions.old at).naming.noted_count
        < length (transaction_at transactions.old at).entry.writes }
    ensures { transactions.new ≡ with_transaction transactions.old at (with_next (transaction_at transactions.old at)) }
{
    let pages = transactions.pages(at);
    let noted = transactions.noted_count(at) + 1;
    transactions.set_noted_count(at, noted);
    if noted == pages {
        transactions.set_mark(at, Mark::Whole);
    }
}

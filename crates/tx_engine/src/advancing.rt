ghost use Rattle.std.specs.Prelude.{◌≡◌, ◌<◌, false, length};
ghost use Rattle.tx_engine.specs.Calls.{AdvancesTo, CanAdvance, CanCount, CountsNext};
ghost use Rattle.open_table.specs.OpenTransactionsState.{transaction_at};
ghost use Rattle.tx_engine.specs.Settling.{must_program};

use crate::closing::close;
use crate::store::Store;
use crate::writing::write_next;
use array_machine::{Mark, Progress};
use flash_model::{Broken, Flash};
use open_table::OpenTransactions;
use record_list::CommitRule;

/// The transaction at an index of a settled device goes on: its next page is written where it is not
/// noted, and counted.
pub(crate) fn advance<F: Flash, R: CommitRule>(
    store: &mut Store<F, R>,
    transactions: &mut OpenTransactions,
    at: usize,
) -> Result<Progress, Broken>
    requires { CanAdvance F.state R.protocol store.old transactions.old at }
    ensures { AdvancesTo F.state store.old store.new transactions.old transactions.new at result }
{
    if !must_program(transactions, at) {
        return Ok(acknowledge_page(store, transactions, at));
    }
    write_next(store, transactions, at)?;
    Ok(acknowledge_page(store, transactions, at))
}

/// Whether the next page of the transaction at an index is to be written.
pub(crate) fn must_program(transactions: &OpenTransactions, at: usize) -> bool
    requires { at < length transactions.now.all }
    ensures { result ≡ must_program (transaction_at transactions.now at) }
{
    match transactions.mark(at) {
        Mark::Whole => false,
        Mark::Plain | Mark::Doubt => transactions.noted_count(at) == transactions.done_count(at),
    }
}

/// A transaction whose next page is noted, or which is whole, goes on without the flash.
pub(crate) fn acknowledge_page<F: Flash, R: CommitRule>(
    store: &mut Store<F, R>,
    transactions: &mut OpenTransactions,
    at: usize,
) -> Progress
    requires { CanCount F.state R.protocol store.old transactions.old at }
    ensures { CountsNext F.state store.old store.new transactions.old transactions.new at result }
{
    match transactions.mark(at) {
        Mark::Whole => {
            close(store, transactions, at);
            Progress::Done
        }
        Mark::Plain | Mark::Doubt => {
            let all = transactions.pages(at);
            let done = transactions.done_count(at) + 1;
            transactions.set_done_count(at, done);
            Progress::Wrote { done, all }
        }
    }
}

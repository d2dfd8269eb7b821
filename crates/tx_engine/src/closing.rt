ghost use Rattle.tx_engine.specs.Calls.{CanClose, CanUnpin, Closes, Unpins};
ghost use Rattle.open_table.specs.OpenTransactionsState.{transaction_at};

use crate::store::Store;
use flash_model::Flash;
use open_table::OpenTransactions;
use record_list::CommitRule;

/// Removes the transaction at an index, and unpins its pages.
pub(crate) fn close<F: Flash, R: CommitRule>(
    store: &mut Store<F, R>,
    transactions: &mut OpenTransactions,
    at: usize,
)
    requires { CanClose F.state R.protocol store.old transactions.old at }
    ensures { Closes F.state store.old store.new transactions.old transactions.new at }
{
    unpin(store, transactions, at);
    transactions.remove(at);
}

/// Unpins the pages of the transaction at an index.
fn unpin<F: Flash, R: CommitRule>(
    store: &mut Store<F, R>,
    transactions: &OpenTransactions,
    at: usize,
)
    requires { CanUnpin store.old.noted transactions.now at }
    ensures { Unpins store.old store.new (transaction_at transactions.now at).naming.names }
{
    for place in 0..transactions.pages(at) {
        store.unpin(transactions.name(at, place).page);
    }
}

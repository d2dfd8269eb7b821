ghost use Rattle.tx_engine.specs.Calls.{CanAdvance};
ghost use Rattle.tx_engine.specs.Readying.{ReadiesSettled};

use crate::advancing::must_program;
use crate::store::Store;
use crate::writing::make_room;
use flash_model::{Broken, Flash};
use open_table::OpenTransactions;
use record_list::CommitRule;

/// Makes a settled device ready for the next page of the transaction at an index: where it is to be written, room is
/// made.
pub(crate) fn make_ready_settled<F: Flash, R: CommitRule>(
    store: &mut Store<F, R>,
    transactions: &OpenTransactions,
    at: usize,
) -> Result<(), Broken>
    requires { CanAdvance F.state R.protocol store.old transactions.now at }
    ensures { ReadiesSettled F.state store.old store.new transactions.now at result }
{
    if !must_program(transactions, at) {
        return Ok(());
    }
    make_room(store, transactions, at)
}

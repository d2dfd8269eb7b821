ghost use Rattle.tx_engine.specs.Retire.{CanRetireSettled, RetiresSettled};

use crate::store::Store;
use collector::theorems;
use flash_model::{Broken, Retire};
use open_table::OpenTransactions;
use record_list::CommitRule;
use tx_types::Block;

/// Retires a block of a device that settled.
pub(crate) fn retire_settled<F: Retire, R: CommitRule>(
    store: &mut Store<F, R>,
    transactions: &OpenTransactions,
    block: Block,
) -> Result<(), Broken>
    requires { CanRetireSettled F.state R.protocol store.old transactions.now block.0 }
    ensures { RetiresSettled F.state R.protocol store.old store.new transactions.now block.0 result }
{
    theorems::array_stays::<R>();
    theorems::image_is_sound::<R>();
    store.retire(block)
}

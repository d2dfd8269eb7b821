ghost use Rattle.std.specs.Prelude.{◌≡◌};
ghost use Rattle.tx_engine.specs.Calls.{CollectsSettled, IsReady};
ghost use Rattle.tx_engine.specs.Collections.{answer_of};

use crate::store::Store;
use array_machine::Collected;
use collector::theorems;
use flash_model::{Broken, Flash};
use open_table::OpenTransactions;
use record_list::CommitRule;

/// Collects the block with the most garbage of a device that settled, if there is any.
pub(crate) fn collect_settled<F: Flash, R: CommitRule>(
    store: &mut Store<F, R>,
    transactions: &OpenTransactions,
) -> Result<Collected, Broken>
    requires ready { IsReady F.state R.protocol store.old transactions.now }
    ensures { CollectsSettled F.state store.old store.new transactions.now result }
{
    theorems::array_stays::<R>();
    theorems::image_is_sound::<R>();
    theorems::no_garbage_means_tidy();
    let any = store.collect()?;
    Ok(answer_of(any))
}

/// What a collection answers.
fn answer_of(any: bool) -> Collected
    ensures { result ≡ answer_of any }
{
    if any {
        Collected::One
    } else {
        Collected::Nothing
    }
}

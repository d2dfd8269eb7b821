ghost use Rattle.collector.specs.Retiring.{RetiresBlock};
ghost use Rattle.tx_engine.specs.Retire.{CanRetire, RefusesRetiring};
ghost use Rattle.tx_engine.specs.StoreState.{store_in};

use crate::RetireError;
use crate::store::Store;
use collector::retire_block;
use flash_model::{Broken, Retire};
use record_list::CommitRule;
use tx_types::Block;

impl<F: Retire, R: CommitRule> Store<F, R> {
    /// Why a block is not to be retired, if it is not: first that it does not exist.
    pub(crate) fn retire_refusal(&self, block: Block) -> Option<RetireError>
        ensures { RefusesRetiring (F.state self.now.flash) block.0 result }
    {
        if block.0 >= self.flash.shape().blocks() {
            return Some(RetireError::Range);
        }
        let allowance = self.flash.allowance();
        if self.flash.retired() == allowance {
            return Some(RetireError::Worn(allowance));
        }
        None
    }

    /// Replaces a block by a fresh one, once what is needed in it was copied.
    pub(crate) fn retire(&mut self, block: Block) -> Result<(), Broken>
        requires { CanRetire F.state R.protocol self.old block.0 }
        ensures { RetiresBlock R.protocol (store_in F.state self.old) (store_in F.state self.new)
            block.0 result }
    {
        retire_block(
            &mut self.flash,
            &mut self.index,
            &mut self.blocks,
            &mut self.unsure,
            &mut self.room,
            block,
        )
    }
}

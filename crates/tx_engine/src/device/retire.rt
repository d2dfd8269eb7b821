ghost use Rattle.std.specs.Prelude.{◌≡◌, false};
ghost use Rattle.tx_engine.specs.DeviceCalls.{RetiresDevice};

use crate::Device;
use crate::retiring::retire_settled;
use crate::settling::settle;
use flash_model::Retire;
use record_list::CommitRule;
use tx_types::Block;

/// Why a block was not retired.
#[derive(Clone, Copy, PartialEq, Eq)]
pub enum RetireError {
    /// There is no such block.
    Range,
    /// As many blocks were retired as the flash allows, which is this many.
    Worn(u32),
    /// The flash met a fault.
    Fault,
}

impl<F: Retire, R: CommitRule> Device<F, R> {
    /// Replaces a block by a fresh one. First it becomes known what a broken operation left, and
    /// what is needed in the block is copied to another. A refusal changes nothing. After a fault
    /// it is not known what a broken operation left, as before, or that is known and the array is
    /// as it was then.
    pub fn retire(&mut self, block: Block) -> Result<(), RetireError>
        requires kept { self.old.dropped ≡ false }
        ensures { RetiresDevice F.state self.old self.new block.0 result }
    {
        if let Some(refusal) = self.store.retire_refusal(block) {
            return Err(refusal);
        }
        let Ok(()) = settle(&mut self.store, &mut self.transactions) else {
            return Err(RetireError::Fault);
        };
        let Ok(()) = retire_settled(&mut self.store, &self.transactions, block) else {
            return Err(RetireError::Fault);
        };
        Ok(())
    }
}

ghost use Rattle.std.specs.Prelude.{◌≡◌, false};
ghost use Rattle.tx_engine.specs.Readying.{ReadiesDevice};

use crate::Device;
use crate::readying::make_ready_settled;
use crate::settling::settle;
use array_machine::StepError;
use flash_model::Flash;
use record_list::CommitRule;

impl<F: Flash, R: CommitRule> Device<F, R> {
    /// Does what a step of the transaction with this tag, if there is one, does before it writes a page, so that the
    /// next step of it takes one program and no erase. First it becomes known what a broken operation left. Then, where
    /// a page is to be written, records that must go are cleared away, and where no block has room one is collected. A
    /// page that turns out to be written takes no flash operation more.
    pub fn make_ready(&mut self, tag: u32) -> Result<(), StepError>
        requires kept { self.old.dropped ≡ false }
        ensures { ReadiesDevice F.state self.old self.new tag result }
    {
        let Some(at) = self.transactions.position(tag) else {
            return Err(StepError::Unknown);
        };
        let Ok(()) = settle(&mut self.store, &mut self.transactions) else {
            return Err(StepError::Fault);
        };
        let Ok(()) = make_ready_settled(&mut self.store, &self.transactions, at) else {
            return Err(StepError::Fault);
        };
        Ok(())
    }
}

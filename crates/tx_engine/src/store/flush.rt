ghost use Rattle.tx_engine.specs.StoreCalls.{FlushesStored};

use crate::store::Store;
use flash_model::{Cached, NotDurable};
use record_list::CommitRule;

impl<F: Cached, R: CommitRule> Store<F, R> {
    /// The same call of the flash.
    pub(crate) fn flush(&mut self) -> Result<(), NotDurable>
        ensures stays { FlushesStored F.state self.old self.new }
        ensures flushes { F.flushes self.old.flash self.new.flash result }
    {
        self.flash.flush()
    }
}

ghost use Rattle.tx_engine.specs.DeviceCalls.{FlushesDevice};

use crate::Device;
use flash_model::{Cached, NotDurable};
use record_list::CommitRule;

impl<F: Cached, R: CommitRule> Device<F, R> {
    /// Makes durable all that was done. The device is as before, dropped or not, and its flash shows what it showed,
    /// also where this fails.
    pub fn flush(&mut self) -> Result<(), NotDurable>
        ensures stays { FlushesDevice F.state self.old self.new }
        ensures flushes { F.flushes self.old.flash self.new.flash result }
    {
        self.store.flush()
    }
}

ghost use Rattle.std.specs.Prelude.{◌≤◌};
ghost use Rattle.flash_model.specs.Arms.{ArmsCut, ArmsFault, ArmsBadRead};
ghost use Rattle.tx_engine.specs.DeviceCalls.{ArmsDevice};

use crate::Device;
use flash_model::{Arms, Outcome};
use record_list::CommitRule;

impl<F: Arms, R: CommitRule> Device<F, R> {
    /// Arms a power cut at the `count`-th program or erase from now on, with this outcome.
    pub fn arm_cut(&mut self, count: u32, outcome: Outcome)
        requires { 1 ≤ count }
        ensures { ArmsDevice self.old self.new
            (ArmsCut (F.state self.old.flash) (F.state self.new.flash) count outcome) }
    {
        self.store.arm_cut(count, outcome);
    }

    /// Arms a fault at the `count`-th program or erase from now on, with this outcome.
    pub fn arm_fault(&mut self, count: u32, outcome: Outcome)
        requires { 1 ≤ count }
        ensures { ArmsDevice self.old self.new
            (ArmsFault (F.state self.old.flash) (F.state self.new.flash) count outcome) }
    {
        self.store.arm_fault(count, outcome);
    }

    /// Arms a fault at the `count`-th read from now on.
    pub fn arm_bad_read(&mut self, count: u32)
        requires { 1 ≤ count }
        ensures { ArmsDevice self.old self.new
            (ArmsBadRead (F.state self.old.flash) (F.state self.new.flash) count) }
    {
        self.store.arm_bad_read(count);
    }
}

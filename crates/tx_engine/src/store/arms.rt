ghost use Rattle.std.specs.Prelude.{◌≤◌};
ghost use Rattle.flash_model.specs.Arms.{ArmsCut, ArmsFault, ArmsBadRead};
ghost use Rattle.tx_engine.specs.StoreCalls.{ArmsStored};

use crate::store::Store;
use flash_model::{Arms, Outcome};
use record_list::CommitRule;

impl<F: Arms, R: CommitRule> Store<F, R> {
    /// The same call of the flash.
    pub(crate) fn arm_cut(&mut self, count: u32, outcome: Outcome)
        requires { 1 ≤ count }
        ensures { ArmsStored self.old self.new
            (ArmsCut (F.state self.old.flash) (F.state self.new.flash) count outcome) }
    {
        self.flash.arm_cut(count, outcome);
    }

    /// The same call of the flash.
    pub(crate) fn arm_fault(&mut self, count: u32, outcome: Outcome)
        requires { 1 ≤ count }
        ensures { ArmsStored self.old self.new
            (ArmsFault (F.state self.old.flash) (F.state self.new.flash) count outcome) }
    {
        self.flash.arm_fault(count, outcome);
    }

    /// The same call of the flash.
    pub(crate) fn arm_bad_read(&mut self, count: u32)
        requires { 1 ≤ count }
        ensures { ArmsStored self.old self.new
            (ArmsBadRead (F.state self.old.flash) (F.state self.new.flash) count) }
    {
        self.flash.arm_bad_read(count);
    }
}

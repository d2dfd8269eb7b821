ghost use Rattle.std.specs.Prelude.{◌≤◌};
ghost use Rattle.flash_model.specs.Arms.{TurnsOn, ArmsCut, ArmsFault, ArmsBadRead};

use crate::{Flash, Outcome};

/// A flash whose power can be turned on again after a cut.
pub trait Power: Flash {
    /// Turns power on. What was to come is to come still.
    fn power_on(&mut self)
        ensures { TurnsOn (Self.state self.old) (Self.state self.new) };
}

/// A flash that can be told to break. Each arm is for one break, and a new one replaces an older one of its
/// kind. All else is as before.
pub trait Arms: Flash {
    /// A program or an erase from now on, the one of this number from 1, will be cut with this outcome: power
    /// goes off in it.
    fn arm_cut(&mut self, count: u32, outcome: Outcome)
        requires { 1 ≤ count }
        ensures { ArmsCut (Self.state self.old) (Self.state self.new) count outcome };

    /// A program or an erase from now on, the one of this number from 1, will be broken with this outcome
    /// while power stays on.
    fn arm_fault(&mut self, count: u32, outcome: Outcome)
        requires { 1 ≤ count }
        ensures { ArmsFault (Self.state self.old) (Self.state self.new) count outcome };

    /// A read from now on, the one of this number from 1, will be broken.
    fn arm_bad_read(&mut self, count: u32)
        requires { 1 ≤ count }
        ensures { ArmsBadRead (Self.state self.old) (Self.state self.new) count };
}

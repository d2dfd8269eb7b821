ghost use Rattle.std.specs.Prelude.{◌≡◌, ◌≤◌};
ghost use Rattle.flash_model.specs.Arms.{SetsCut, SetsFault, SetsBadRead};
ghost use Rattle.cut_replay.specs.Sessions.{IsNotDropped, SetsArm};

use flash_model::{Arms, Outcome};
use mounted_session::Session;
use record_list::CommitRule;
use tx_engine::{Device, device_facts};

/// A program or an erase from now on, the one of this number from 1, will be cut with this outcome.
pub fn arm_cut<F: Arms, R: CommitRule>(
    session: &mut Session<F, Device<F, R>>,
    count: u32,
    outcome: Outcome,
)
    requires kept { IsNotDropped session.old }
    requires count { 1 ≤ count }
    ensures { SetsArm F.state R.protocol (SetsCut (record { count = count; outcome = outcome }))
        session.old session.new }
{
    match session {
        Session::Mounted(device) => {
            device.arm_cut(count, outcome);
            device_facts(device);
        }
        Session::Unmounted(flash) => flash.arm_cut(count, outcome),
    }
}

/// A program or an erase from now on, the one of this number from 1, will meet a fault with this outcome.
pub fn arm_fault<F: Arms, R: CommitRule>(
    session: &mut Session<F, Device<F, R>>,
    count: u32,
    outcome: Outcome,
)
    requires kept { IsNotDropped session.old }
    requires count { 1 ≤ count }
    ensures { SetsArm F.state R.protocol (SetsFault (record { count = count; outcome = outcome }))
        session.old session.new }
{
    match session {
        Session::Mounted(device) => {
            device.arm_fault(count, outcome);
            device_facts(device);
        }
        Session::Unmounted(flash) => flash.arm_fault(count, outcome),
    }
}

/// A read from now on, the one of this number from 1, will meet a fault.
pub fn arm_bad_read<F: Arms, R: CommitRule>(session: &mut Session<F, Device<F, R>>, count: u32)
    requires kept { IsNotDropped session.old }
    requires count { 1 ≤ count }
    ensures { SetsArm F.state R.protocol (SetsBadRead count) session.old session.new }
{
    match session {
        Session::Mounted(device) => {
            device.arm_bad_read(count);
            device_facts(device);
        }
        Session::Unmounted(flash) => flash.arm_bad_read(count),
    }
}

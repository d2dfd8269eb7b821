ghost use Rattle.std.specs.Prelude.{◌≡◌};
ghost use Rattle.tx_engine.specs.Always.{HoldsAlways};
ghost use Rattle.cut_replay.specs.Mounted.{ServesHere};

use crate::calls::step;
use flash_model::Flash;
use host_protocol::{Command, Reply};
use record_list::CommitRule;
use tx_engine::Device;

/// Goes on with a transaction up to its end, or to the first step that is not done. The reply is
/// that of the last step.
pub fn finish<F: Flash, R: CommitRule>(device: &mut Device<F, R>, tag: u32) -> Reply
    requires { HoldsAlways F.state R.protocol device.old }
    ensures serves { ServesHere F.state (Command.Finish tag) device.old device.new result }
    ensures always { HoldsAlways F.state R.protocol device.new }
{
    'steps: loop {
        match step(device, tag) {
            Reply::Wrote(..) => {}
            last => return last,
        }
    }
}

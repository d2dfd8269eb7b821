ghost use Rattle.std.specs.Prelude.{◌≡◌, false};
ghost use Rattle.tx_engine.specs.Always.{HoldsAlways};

use crate::Device;
use crate::theorems::{crash_states, device_invariant};
use flash_model::Flash;
use record_list::CommitRule;
use tx_types::Config;

/// The configuration of a device that is not dropped, and what holds of its flash whatever was broken before.
pub fn device_facts<F: Flash, R: CommitRule>(device: &Device<F, R>) -> Config
    requires kept { device.now.dropped ≡ false }
    ensures config { result ≡ device.now.config }
    ensures always { HoldsAlways F.state R.protocol device.now }
{
    device_invariant::<F, R>();
    crash_states::<F, R>();
    device.config()
}

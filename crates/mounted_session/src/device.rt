ghost use Rattle.std.specs.Prelude.{◌≡◌};
ghost use Rattle.flash_model.specs.Arms.{TurnsOn};
ghost use Rattle.mounted_session.specs.Devices.{MountsIn, IsWhy, ReadsFew, mounts_quiet, not_mounted};

use crate::{Mounted, NotMounted};
use flash_model::Power;
use record_list::CommitRule;
use std::alloc::Global;
use tx_engine::{Device, MountError, device_facts};
use tx_types::{Config, Slot};

/// Why a flash is refused of which no read met a fault.
#[derive(Clone, Copy)]
pub enum Refusal {
    /// The image of the flash is not sound: the first law that it breaks, and the slot that the law names.
    Unsound { law: u8, slot: Slot },
    /// There was no memory.
    Memory,
}

impl<F: Power, R: CommitRule> Mounted<F> for Device<F, R> {
    type Why = Refusal;

    ghost flash_of = { λ s. s.flash };

    ghost takes = { λ its. its.protocol ≡ R.protocol };

    ghost opens = { MountsIn F.state };

    ghost refuses = { IsWhy };

    ghost meets = { ReadsFew };

    fn mount(
        alloc: Global,
        flash: F,
        config: Config,
    ) -> Result<Device<F, R>, (F, NotMounted<Refusal>)> {
        match Device::mount(alloc, with_power(flash), config) {
            Ok(device) => {
                device_facts(&device);
                Ok(device)
            }
            Err((flash, error)) => Err((flash, not_mounted(error))),
        }
    }

    fn flash(&self) -> &F {
        self.flash()
    }

    fn close(self) -> F {
        self.close()
    }

    ghost stays = { mounts_quiet F.state };
}

/// Turns power on where it is off.
fn with_power<F: Power>(mut flash: F) -> F
    ensures { TurnsOn (F.state flash) (F.state result) }
{
    if !flash.live() {
        flash.power_on();
    }
    flash
}

/// Why no device was mounted.
fn not_mounted(error: MountError) -> NotMounted<Refusal>
    ensures { result ≡ not_mounted error }
{
    match error {
        MountError::Fault => NotMounted::Fault,
        MountError::Unsound { law, slot } => NotMounted::Refused(Refusal::Unsound { law, slot }),
        MountError::Memory => NotMounted::Refused(Refusal::Memory),
    }
}

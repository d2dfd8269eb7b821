//! What holds of all devices. The functions do nothing of their own: each is there for what it ensures.
ghost use Rattle.tx_types.specs.declared.config.Protocol.{Protocol};
ghost use Rattle.tx_engine.specs.Always.{CutsLeave, DevicesStand};
ghost use Rattle.tx_engine.specs.LaterSlots.{LaterSlotLaw};
ghost use Rattle.tx_engine.specs.ReadySteps.{ReadyStepLaw};

use flash_model::Flash;
use record_list::CommitRule;

/// What a device that stands for its array has on its flash: the image is sound, and its array is the device's, or that
/// with the pages of the transaction in doubt. Where nothing is unsure the image has the noted records.
pub fn device_invariant<F: Flash, R: CommitRule>()
    ensures { DevicesStand F.state R.protocol }
{
    collector::theorems::known_image_is_sound::<R>();
    collector::theorems::image_is_sound::<R>();
    collector::theorems::noting_keeps::<R>();
}

/// What a power cut in a call leaves: the array of the image is one that the array machine allows.
pub fn crash_states<F: Flash, R: CommitRule>()
    ensures { CutsLeave F.state R.protocol }
{
    device_invariant::<F, R>();
}

/// Where no version rose since an image, what came to its blank slots since may be lost: each current and each held
/// record has a slot that stays, outside some block.
pub fn later_slots_may_go()
    ensures { (protocol : Protocol) → LaterSlotLaw protocol }
{}

/// A step of a settled device that is ready for the next page of its transaction takes one program at most, and no
/// erase.
pub fn ready_steps<F: Flash>()
    ensures { ReadyStepLaw F.state }
{}

ghost use Rattle.std.specs.Prelude.{◌≡◌, ℕ, false, [], None, OnOk, IfErr};
ghost use Rattle.tx_engine.specs.Always.{HoldsAlways};
ghost use Rattle.tx_engine.specs.DeviceState.{Stands, limits_of};
ghost use Rattle.array_machine.specs.Submit.{first_refusals};
ghost use Rattle.page_keys.specs.Writing.{Writes, WritesNot};

use crate::answers::PutError;
use collector::theorems::{image_is_sound, noting_keeps};
use flash_model::Flash;
use record_list::CommitRule;
use tx_engine::{Device, Progress, SubmitError, device_facts};
use tx_types::{Batch, Config};

/// Writes a batch as one transaction, on a device on which nothing is open. Only a page that has no version left is
/// refused.
pub(crate) fn write<F: Flash, R: CommitRule>(
    device: &mut Device<F, R>,
    batch: &Batch,
) -> Result<(), PutError>
    requires kept { device.old.dropped ≡ false }
    requires closed { device.old.machine.entries ≡ [] }
    requires size { batch.now.page_bytes ≡ device.old.config.page_bytes }
    requires fits { first_refusals (limits_of device.old.config) [] 0 batch.now.entries ≡ None }
    ensures written { OnOk result (Writes F.state device.old device.new batch.now.entries) }
    ensures not_written { IfErr result (WritesNot F.state device.old device.new batch.now.entries) }
    ensures kept { device.new.dropped ≡ false }
{
    image_is_sound::<R>();
    noting_keeps::<R>();
    standing_facts(device);
    if let Err(refusal) = device.submit(0, batch) {
        return Err(spent_refusal(refusal));
    }
    standing_facts(device);
    'steps: loop {
        match device.step(0) {
            Ok(Progress::Wrote { .. }) => {
                standing_facts(device);
            }
            Ok(Progress::Done) => {
                standing_facts(device);
                return Ok(());
            }
            Err(_) => {
                standing_facts(device);
                return Err(PutError::Fault);
            }
        }
    }
}

/// The configuration of a device that is not dropped, that it stands for its array, and what holds of it at every
/// moment.
fn standing_facts<F: Flash, R: CommitRule>(device: &Device<F, R>) -> Config
    requires kept { device.now.dropped ≡ false }
    ensures stands { Stands F.state device.now }
    ensures always { HoldsAlways F.state R.protocol device.now }
{
    device.config();
    device_facts(device)
}

/// The refusal of a page that has no version left.
fn spent_refusal(refusal: SubmitError) -> PutError
    requires { (page : ℕ) × (refusal ≡ SubmitError.Spent page) }
    ensures { (page : ℕ) → refusal ≡ SubmitError.Spent page → result ≡ PutError.Spent page }
{
    match refusal {
        SubmitError::Spent(page) => PutError::Spent(page),
        _ => unreachable!(),
    }
}

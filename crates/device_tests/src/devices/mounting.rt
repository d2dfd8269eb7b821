//! Devices that are mounted, and mounted again after a power cut or a fault.

ghost use Rattle.std.specs.Prelude.{◌≡◌, false, IfSome, IsTrue, Ok};
ghost use Rattle.tx_types.specs.Config.{checked};

use super::calls::answer;
use super::telling::{Answers, say_moved};
use flash_model::{Arms, Flash, Power, Retire, Wide};
use record_list::CommitRule;
use std::alloc::Global;
use tx_engine::{Device, MountError};
use tx_types::Config;

/// Whether a flash has the shape of a configuration, whose protocol is that of the rule.
pub fn is_fit<F: Flash, R: CommitRule>(flash: &F, config: Config) -> bool
    ensures check { IsTrue result → checked config ≡ Ok (F.state flash.now).shape }
    ensures rule { IsTrue result → config.protocol ≡ R.protocol }
{
    config.check() == Ok(flash.shape()) && config.protocol == R::protocol()
}

/// Mounts a flash whose image is sound.
pub fn mounted<F: Flash + Drop, R: CommitRule>(
    alloc: Global,
    flash: F,
    config: Config,
) -> Option<Device<F, R>>
    ensures kept { IfSome result (λ d. d.dropped ≡ false) }
{
    if !is_fit::<F, R>(&flash, config) {
        return None;
    }
    match Device::mount(alloc, flash, config) {
        Ok(device) => Some(device),
        Err(_) => None,
    }
}

/// Mounts a flash once power is on, and once more where that meets a fault.
fn again<F: Power + Drop, R: CommitRule>(
    alloc: Global,
    flash: F,
    config: Config,
    answers: &mut Answers,
) -> Option<Device<F, R>>
    ensures kept { IfSome result (λ d. d.dropped ≡ false) }
{
    let mut flash = flash;
    if !flash.live() {
        flash.power_on();
    }
    if !is_fit::<F, R>(&flash, config) {
        return None;
    }
    match Device::mount(alloc, flash, config) {
        Ok(device) => Some(device),
        Err((flash, MountError::Fault)) => {
            answers.say("fault");
            mounted(alloc, flash, config)
        }
        Err(_) => None,
    }
}

/// All open transactions go on together. Returns whether that met no power cut and no fault.
fn go_on<F: Wide, R: CommitRule>(device: &mut Device<F, R>, answers: &mut Answers) -> bool
    requires kept { device.old.dropped ≡ false }
    ensures kept { IsTrue result → device.new.dropped ≡ false }
{
    match device.step_all() {
        Ok(moved) => {
            say_moved(answers, moved);
            true
        }
        Err(_) => {
            answers.say(if device.live() { "dropped" } else { "cut" });
            false
        }
    }
}

/// Makes one call. Returns whether the device goes on: power is on, and it was neither dropped nor ended.
fn goes_on<F: Arms + Retire + Wide, R: CommitRule>(
    alloc: Global,
    device: &mut Device<F, R>,
    call: &str,
    answers: &mut Answers,
) -> bool
    requires kept { device.old.dropped ≡ false }
    ensures kept { IsTrue result → device.new.dropped ≡ false }
{
    match call {
        "stepall" => go_on(device, answers),
        "mount" => false,
        _ => {
            answer(alloc, device, call, answers);
            device.live()
        }
    }
}

/// Makes one call. Gives the device, or one that is mounted on its flash where it does not go on.
fn next<F: Arms + Power + Retire + Wide + Drop, R: CommitRule>(
    alloc: Global,
    device: Device<F, R>,
    call: &str,
    answers: &mut Answers,
) -> Option<Device<F, R>>
    requires kept { device.dropped ≡ false }
    ensures kept { IfSome result (λ d. d.dropped ≡ false) }
{
    let mut device = device;
    let config = device.config();
    if goes_on(alloc, &mut device, call, answers) {
        Some(device)
    } else {
        again(alloc, device.close(), config, answers)
    }
}

/// Makes the calls of a text, and says what they answer. `stepall` has all open transactions go on together, and
/// `mount` ends the device and mounts its flash. Returns whether the device could always be mounted.
pub fn serve<F: Arms + Power + Retire + Wide + Drop, R: CommitRule>(
    alloc: Global,
    device: Device<F, R>,
    calls: &str,
    answers: &mut Answers,
) -> bool
    requires kept { device.dropped ≡ false }
{
    let mut device = device;
    for call in calls.split("; ") {
        match next(alloc, device, call, answers) {
            Some(next) => device = next,
            None => return false,
        }
    }
    drop(device.close());
    true
}

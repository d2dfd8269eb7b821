ghost use Rattle.std.specs.Prelude.{◌≡◌, false, All, Ok, IfOk, IfErr, OnOk};
ghost use Rattle.tx_types.specs.Config.{checked, shape_of};
ghost use Rattle.flash_model.specs.Flash.{IsSteady};
ghost use Rattle.judged_records.specs.Notes.{found_in};
ghost use Rattle.mem_flash.specs.MemFlashState.{fresh, loaded, state_of};
ghost use Rattle.tx_engine.specs.Opens.{Mounts};
ghost use Rattle.judged_records.specs.Images.{IsSoundImage, records_in};
ghost use Rattle.verdict_report.specs.Report.{report};
ghost use Rattle.desk_tasks.specs.Runs.{blank_image, default_config};
ghost use Rattle.desk_tasks.specs.Stops.{RefusesDevice, StopsBy};

use crate::output::Failure;
use bpcc_commit::Bpcc;
use cut_replay::Lines;
use flash_model::steady_stays;
use mem_flash::MemFlash;
use record_list::{Breach, CommitRule, Found};
use scc_commit::Scc;
use std::alloc::Global;
use tx_engine::theorems::device_invariant;
use tx_engine::{Device, MountError};
use tx_types::{Config, Memory, Protocol};
use verdict_report::explain;

/// What serving commands leaves.
#[derive(Drop)]
pub struct ServedFlash {
    pub flash: MemFlash,
    pub replies: Lines,
}

/// The default device of a protocol.
pub fn default_config(protocol: Protocol) -> Config
    ensures { result ≡ default_config protocol }
{
    Config {
        protocol,
        page_bytes: 16,
        pages_per_block: 4,
        blocks_per_die: 4,
        dies: 2,
        logical: 20,
        pending: 7,
    }
}

/// A flash on which nothing was programmed.
pub fn blank_flash(alloc: Global, config: Config) -> Result<MemFlash, Memory>
    requires { checked config ≡ Ok (shape_of config) }
    ensures { IfOk result (λ flash. flash ≡ fresh (shape_of config) (blank_image config)) }
{
    let Ok(shape) = config.check() else {
        unreachable!();
    };
    MemFlash::new(alloc, shape)
}

/// The report on the records of a device.
pub fn explain_flash(
    alloc: Global,
    flash: MemFlash,
    config: Config,
) -> Result<Vec<u8>, Failure<'static>>
    requires check { checked config ≡ Ok (shape_of config) }
    requires ready { flash ≡ loaded (shape_of config) flash.image flash.extras }
    ensures sound { OnOk result (
        IsSoundImage config.protocol config.logical (shape_of config) flash.image) }
    ensures report { IfOk result (λ text. text.items ≡
        report config.protocol (records_in config.protocol flash.image) config.logical) }
    ensures err { IfErr result (StopsBy (RefusesDevice config flash.image)) }
{
    match config.protocol {
        Protocol::Scc => explain_by::<Scc>(alloc, flash, config),
        Protocol::Bpcc => explain_by::<Bpcc>(alloc, flash, config),
    }
}

/// The same under a rule.
fn explain_by<R: CommitRule>(
    alloc: Global,
    flash: MemFlash,
    config: Config,
) -> Result<Vec<u8>, Failure<'static>>
    requires check { checked config ≡ Ok (shape_of config) }
    requires rule { config.protocol ≡ R.protocol }
    requires ready { flash ≡ loaded (shape_of config) flash.image flash.extras }
    ensures sound { OnOk result (
        IsSoundImage config.protocol config.logical (shape_of config) flash.image) }
    ensures report { IfOk result (λ text. text.items ≡
        report config.protocol (records_in config.protocol flash.image) config.logical) }
    ensures err { IfErr result (StopsBy (RefusesDevice config flash.image)) }
{
    let device = sound_device::<R>(alloc, flash, config)?;
    let found = records_of(device)?;
    report_on::<R>(alloc, &found, config.logical)
}

/// The records that a device found, which is given up.
pub fn records_of<R: CommitRule>(device: Device<MemFlash, R>) -> Result<Vec<Found>, Memory>
    requires kept { device.dropped ≡ false }
    ensures { IfOk result (λ found. found.items ≡ found_in device.noted.notes) }
{
    let found = device.noted_records();
    drop(device.close());
    found
}

/// The report on a list of records.
fn report_on<R: CommitRule>(
    alloc: Global,
    list: &[Found],
    logical: u32,
) -> Result<Vec<u8>, Failure<'static>>
    ensures ok { IfOk result (λ text. text.items ≡ report R.protocol list.now logical) }
    ensures err { IfErr result (λ e. e ≡ Failure.Memory) }
{
    let mut text = Vec::new(alloc);
    explain::<R>(alloc, list, logical, &mut text)?;
    Ok(text)
}

/// A device that is opened from its flash, which breaks no call, and whose image is sound.
pub fn sound_device<R: CommitRule>(
    alloc: Global,
    flash: MemFlash,
    config: Config,
) -> Result<Device<MemFlash, R>, Failure<'static>>
    requires check { checked config ≡ Ok (shape_of config) }
    requires rule { config.protocol ≡ R.protocol }
    requires ready { flash ≡ loaded (shape_of config) flash.image flash.extras }
    ensures ok { IfOk result (Mounts state_of flash config) }
    ensures sound { OnOk result (
        IsSoundImage config.protocol config.logical (shape_of config) flash.image) }
    ensures list { IfOk result (λ d.
        found_in d.noted.notes ≡ records_in config.protocol flash.image) }
    ensures steady { IfOk result (λ d. IsSteady (state_of d.flash)) }
    ensures err { IfErr result (StopsBy (RefusesDevice config flash.image)) }
{
    let device = open_device::<R>(alloc, flash, config)?;
    device_invariant::<MemFlash, R>();
    steady_stays();
    let _ = device.config();
    Ok(device)
}

/// A device that is opened from its flash.
fn open_device<R: CommitRule>(
    alloc: Global,
    flash: MemFlash,
    config: Config,
) -> Result<Device<MemFlash, R>, Failure<'static>>
    requires check { checked config ≡ Ok (shape_of config) }
    requires rule { config.protocol ≡ R.protocol }
    requires ready { flash ≡ loaded (shape_of config) flash.image flash.extras }
    ensures ok { IfOk result (Mounts state_of flash config) }
    ensures err { IfErr result (StopsBy (RefusesDevice config flash.image)) }
{
    match Device::mount(alloc, flash, config) {
        Ok(device) => Ok(device),
        Err((flash, error)) => {
            drop(flash);
            match error {
                MountError::Unsound { law, slot } => Err(Failure::from(Breach { law, slot })),
                MountError::Memory => Err(Failure::Memory),
                MountError::Fault => unreachable!(),
            }
        }
    }
}

ghost use Rattle.std.specs.Prelude.{◌≡◌, ◌++◌, false, Ok, None, Some, IfOk, IfErr, OnOk, codes};
ghost use Rattle.std.specs.Fmt.{decimal};
ghost use Rattle.tx_types.specs.Config.{checked, shape_of};
ghost use Rattle.flash_model.specs.Flash.{IsSteady};
ghost use Rattle.mem_flash.specs.MemFlashState.{loaded, state_of};
ghost use Rattle.array_machine.specs.ArrayState.{idle};
ghost use Rattle.durable_folder.specs.Histories.{Rests};
ghost use Rattle.desk_io.specs.Disk.{FindsBoth};
ghost use Rattle.program_base.specs.Refusals.{line};
ghost use Rattle.desk_tasks.specs.Retirements.{LeavesRetired, RetiresIdle, block_refusal};
ghost use Rattle.desk_tasks.specs.Steps.{Retiring};
ghost use Rattle.desk_tasks.specs.Stops.{RefusesRetirement, StopsBy, Works, WorksTo};
ghost use Rattle.desk_tasks.specs.Request.{Retire};

use crate::devices::sound_device;
use crate::output::{Failure, File, Output, Text};
use crate::refusal::Refusal;
use bpcc_commit::Bpcc;
use desk_io::Desk;
use flash_model::retiring_composes;
use image_file::into_image;
use mem_flash::MemFlash;
use program_base::{load_file, open_image};
use record_list::CommitRule;
use scc_commit::Scc;
use std::alloc::{AllocError, Global};
use tx_engine::theorems::device_invariant;
use tx_engine::{Device, RetireError};
use tx_types::{Block, Config, Protocol};

/// Retires a block of the device of an image file, which is then saved.
pub fn do_retire<'a, D: Desk>(
    alloc: Global,
    image: &'a str,
    block: Block,
    desk: &mut D,
) -> Result<Output<'a>, Failure<'a>>
    ensures works { Works (Some (Retire image.now block.0)) (FindsBoth (D.state desk.old) (D.disk desk.old))
        (D.state desk.old) (D.state desk.new) result }
    ensures disk { Rests (D.disk desk.old) (D.disk desk.new) }
{
    let bytes = load_file(image, desk)?;
    retire_from_bytes(alloc, image, bytes, block)
}

/// What retiring a block gives, from the bytes of its image on.
fn retire_from_bytes<'a>(
    alloc: Global,
    name: &'a str,
    bytes: Vec<u8>,
    block: Block,
) -> Result<Output<'a>, Failure<'a>>
    ensures { WorksTo (Retiring name.now bytes.items block.0) result }
{
    let (config, flash) = open_image(alloc, bytes)?;
    let left = retire_in_flash(alloc, flash, config, block)?;
    let saved = into_image(alloc, &config, left)?;
    let line = retired_line(alloc, block)?;
    Ok(Output {
        saved: Some(File { name, bytes: saved }),
        text: Text::Other(line),
    })
}

/// The line that says that a block was retired.
fn retired_line(alloc: Global, block: Block) -> Result<Vec<u8>, AllocError>
    ensures { IfOk result (λ words. words.items ≡ line (codes "retired " ++ decimal block.0)) }
{
    let line = format!(in alloc; "retired {}\n", block.0)?;
    Ok(line.into_bytes())
}

/// The flash of a device in which a block was retired.
fn retire_in_flash(
    alloc: Global,
    flash: MemFlash,
    config: Config,
    block: Block,
) -> Result<MemFlash, Failure<'static>>
    requires check { checked config ≡ Ok (shape_of config) }
    requires ready { flash ≡ loaded (shape_of config) flash.image flash.extras }
    ensures ok { IfOk result (LeavesRetired config flash block.0) }
    ensures err { IfErr result (StopsBy (RefusesRetirement config flash.image flash.extras block.0)) }
{
    match config.protocol {
        Protocol::Scc => retire_by::<Scc>(alloc, flash, config, block),
        Protocol::Bpcc => retire_by::<Bpcc>(alloc, flash, config, block),
    }
}

/// The same under a rule.
fn retire_by<R: CommitRule>(
    alloc: Global,
    flash: MemFlash,
    config: Config,
    block: Block,
) -> Result<MemFlash, Failure<'static>>
    requires check { checked config ≡ Ok (shape_of config) }
    requires rule { config.protocol ≡ R.protocol }
    requires ready { flash ≡ loaded (shape_of config) flash.image flash.extras }
    ensures ok { IfOk result (LeavesRetired config flash block.0) }
    ensures err { IfErr result (StopsBy (RefusesRetirement config flash.image flash.extras block.0)) }
{
    let mut device = sound_device::<R>(alloc, flash, config)?;
    let _ = device.config();
    let done = retire(&mut device, block);
    let left = device.close();
    match done {
        Ok(()) => Ok(left),
        Err(stop) => {
            drop(left);
            Err(stop)
        }
    }
}

/// Retires a block of a device with nothing open, whose flash breaks no call.
fn retire<R: CommitRule>(
    device: &mut Device<MemFlash, R>,
    block: Block,
) -> Result<(), Failure<'static>>
    requires kept { device.old.dropped ≡ false }
    requires steady { IsSteady (state_of device.old.flash) }
    requires shape { device.old.flash.shape ≡ shape_of device.old.config }
    requires idle { device.old.machine ≡ idle device.old.machine.pages }
    ensures refusal { OnOk result (
        block_refusal device.old.config device.old.flash.extras block.0 ≡ None) }
    ensures retires { OnOk result (RetiresIdle device.old device.new block.0) }
    ensures err { IfErr result (StopsBy (λ ending.
        block_refusal device.old.config device.old.flash.extras block.0 ≡ Some ending)) }
{
    retiring_composes();
    device_invariant::<MemFlash, R>();
    match device.retire(block) {
        Ok(()) => {
            let _ = device.config();
            Ok(())
        }
        Err(RetireError::Range) => Err(Failure::Refused(Refusal::NoBlock(block.0))),
        Err(RetireError::Worn(allowance)) => Err(Failure::Refused(Refusal::Worn(allowance))),
        Err(RetireError::Fault) => unreachable!(),
    }
}

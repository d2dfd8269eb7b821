ghost use Rattle.std.specs.Prelude.{◌≡◌, ◌≤◌, ◌++◌, ℕ, List, All, Ok, Some, IfOk, IfErr, codes, length};
ghost use Rattle.std.specs.Fmt.{decimal};
ghost use Rattle.durable_folder.specs.Histories.{Rests};
ghost use Rattle.desk_io.specs.Disk.{FindsBoth};
ghost use Rattle.desk_io.specs.Desk.{DeskState, max_file_bytes};
ghost use Rattle.program_base.specs.Refusals.{line};
ghost use Rattle.desk_tasks.specs.Ending.{SummedUp, Ran};
ghost use Rattle.desk_tasks.specs.Steps.{Explaining, OpensAndServes, Parsing, Running, Trying, formatting};
ghost use Rattle.desk_tasks.specs.Stops.{Works, WorksTo};
ghost use Rattle.desk_tasks.specs.Request.{Drive, Explain, Format, Run, Try};
ghost use Rattle.mem_flash.specs.MemFlashState.{loaded};
ghost use Rattle.tx_types.specs.Config.{checked, shape_of};

use crate::devices::{ServedFlash, blank_flash, default_config, explain_flash};
use crate::driving::drive_fresh;
use crate::loading::load_both;
use crate::output::{Failure, File, Output, Text};
use crate::reading::check_commands;
use crate::refusal::Refusal;
use crate::serving::serve_lines;
use desk_io::Desk;
use flash_model::MAX_ALLOWANCE;
use image_file::{blank_image, into_image};
use mem_flash::MemFlash;
use program_base::{load_file, open_image};
use std::alloc::{AllocError, Global};
use tx_types::{Config, Protocol};

/// Serves the commands of a file on a fresh device.
pub fn do_try<'a, D: Desk>(
    alloc: Global,
    name: &'a str,
    desk: &mut D,
) -> Result<Output<'a>, Failure<'a>>
    ensures works { Works (Some (Try name.now)) (FindsBoth (D.state desk.old) (D.disk desk.old))
        (D.state desk.old) (D.state desk.new) result }
    ensures disk { Rests (D.disk desk.old) (D.disk desk.new) }
{
    let lines = load_file(name, desk)?;
    try_from_bytes(alloc, &lines)
}

/// Serves the commands of a file on the device of an image file, which is then saved.
pub fn do_run<'a, D: Desk>(
    alloc: Global,
    image: &'a str,
    script: &'a str,
    desk: &mut D,
) -> Result<Output<'a>, Failure<'a>>
    ensures works { Works (Some (Run image.now script.now)) (FindsBoth (D.state desk.old) (D.disk desk.old))
        (D.state desk.old) (D.state desk.new) result }
    ensures disk { Rests (D.disk desk.old) (D.disk desk.new) }
{
    let (bytes, lines) = load_both(image, script, desk)?;
    run_from_bytes(alloc, image, bytes, &lines)
}

/// Reports on the records of an image file.
pub fn do_explain<'a, D: Desk>(
    alloc: Global,
    image: &'a str,
    desk: &mut D,
) -> Result<Output<'a>, Failure<'a>>
    ensures works { Works (Some (Explain image.now)) (FindsBoth (D.state desk.old) (D.disk desk.old))
        (D.state desk.old) (D.state desk.new) result }
    ensures disk { Rests (D.disk desk.old) (D.disk desk.new) }
{
    let bytes = load_file(image, desk)?;
    explain_from_bytes(alloc, bytes)
}

/// What a try gives, from the bytes of its commands on.
fn try_from_bytes<'a>(alloc: Global, lines: &[u8]) -> Result<Output<'a>, Failure<'a>>
    requires { length lines.now ≤ max_file_bytes }
    ensures { WorksTo (Trying lines.now) result }
{
    let config = default_config(Protocol::Scc);
    let blank = blank_flash(alloc, config)?;
    let ServedFlash { flash, replies } = serve_lines(alloc, blank, config, lines)?;
    drop(flash);
    Ok(Output {
        saved: None,
        text: Text::Replies(replies),
    })
}

/// What a run gives, from the bytes of its files on.
fn run_from_bytes<'a>(
    alloc: Global,
    name: &'a str,
    bytes: Vec<u8>,
    lines: &[u8],
) -> Result<Output<'a>, Failure<'a>>
    requires { length lines.now ≤ max_file_bytes }
    ensures { WorksTo (Running name.now bytes.items lines.now) result }
{
    let (config, flash) = open_image(alloc, bytes)?;
    run_lines(alloc, name, config, flash, lines)
}

/// Serves the commands of a file on the device of a flash, whose image is then saved under this name. A bad line comes
/// before an image that is not sound: so where serving stops, the whole file is read for one.
fn run_lines<'a>(
    alloc: Global,
    name: &'a str,
    config: Config,
    flash: MemFlash,
    lines: &[u8],
) -> Result<Output<'a>, Failure<'a>>
    requires check { checked config ≡ Ok (shape_of config) }
    requires ready { flash ≡ loaded (shape_of config) flash.image flash.extras }
    requires length { length lines.now ≤ max_file_bytes }
    ensures { WorksTo (Parsing config.page_bytes lines.now (λ commands. OpensAndServes config flash.image
        (Ran name.now config flash.image flash.extras commands))) result }
{
    match serve_lines(alloc, flash, config, lines) {
        Ok(served) => {
            let ServedFlash { flash, replies } = served;
            let saved = into_image(alloc, &config, flash)?;
            Ok(Output {
                saved: Some(File { name, bytes: saved }),
                text: Text::Replies(replies),
            })
        }
        Err(stop) => {
            check_commands(alloc, lines, config.page_bytes)?;
            Err(stop)
        }
    }
}

/// What an explanation gives, from the bytes of its image on.
fn explain_from_bytes<'a>(alloc: Global, bytes: Vec<u8>) -> Result<Output<'a>, Failure<'a>>
    ensures { WorksTo (Explaining bytes.items) result }
{
    let (config, flash) = open_image(alloc, bytes)?;
    let report = explain_flash(alloc, flash, config)?;
    Ok(Output {
        saved: None,
        text: Text::Other(report),
    })
}

/// The image of a blank device, so many blocks of which may be retired, and a line that says so.
pub fn do_format<'a>(
    alloc: Global,
    name: &'a str,
    config: Config,
    allowance: u32,
) -> Result<Output<'a>, Failure<'a>>
    ensures { WorksTo (λ ending. ending ≡ formatting name.now config allowance (checked config)) result }
{
    let shape = match config.check() {
        Ok(shape) => shape,
        Err(rule) => return Err(Failure::Refused(Refusal::BadConfiguration(rule))),
    };
    if allowance > MAX_ALLOWANCE {
        return Err(Failure::Refused(Refusal::BadAllowance));
    }
    let bytes = blank_image(alloc, &config, shape, allowance)?;
    let line = formatted_line(alloc, name, shape.slots())?;
    Ok(Output {
        saved: Some(File { name, bytes }),
        text: Text::Other(line),
    })
}

/// The line that says that a file has the image of a blank device of so many slots.
fn formatted_line(alloc: Global, name: &str, slots: u32) -> Result<Vec<u8>, AllocError>
    ensures { IfOk result (λ words. words.items ≡
        line (codes "formatted " ++ name.now ++ codes " " ++ decimal slots)) }
{
    let line = format!(in alloc; "formatted {name} {slots}\n")?;
    Ok(line.into_bytes())
}

/// The summary of the replies to commands that are drawn.
pub fn do_drive<'a>(
    alloc: Global,
    start: u64,
    count: u32,
    protocol: Protocol,
) -> Result<Output<'a>, Failure<'a>>
    ensures { WorksTo (λ ending. ending ≡ SummedUp start count protocol) result }
{
    let line = drive_fresh(alloc, start, count, protocol)?;
    Ok(Output {
        saved: None,
        text: Text::Other(line),
    })
}

ghost use Rattle.std.specs.Prelude.{◌≡◌, ◌<◌, ◌≤◌, ◌++◌, All, Ok, Some, IfOk, IfErr, codes};
ghost use Rattle.std.specs.Fmt.{decimal};
ghost use Rattle.tx_types.specs.Config.{checked, shape_of};
ghost use Rattle.mem_flash.specs.MemFlashState.{loaded};
ghost use Rattle.record_list.specs.Records.{IsScanned};
ghost use Rattle.durable_folder.specs.Histories.{Rests};
ghost use Rattle.desk_io.specs.Disk.{FindsBoth};
ghost use Rattle.desk_tasks.specs.Checking.{ChecksList};
ghost use Rattle.program_base.specs.Refusals.{line};
ghost use Rattle.desk_tasks.specs.Ending.{Good};
ghost use Rattle.desk_tasks.specs.Steps.{Checking, Judging};
ghost use Rattle.desk_tasks.specs.Stops.{StopsBy, Works, WorksTo};
ghost use Rattle.desk_tasks.specs.Request.{Check};

use crate::devices::{records_of, sound_device};
use crate::loading::load_both;
use crate::output::{Failure, Output, Text};
use crate::refusal::Refusal;
use bpcc_commit::Bpcc;
use desk_io::Desk;
use mem_flash::MemFlash;
use program_base::open_image;
use record_list::{CommitRule, Found};
use scc_commit::Scc;
use std::alloc::{AllocError, Global};
use tx_types::{Config, Protocol};
use verdict_check::check_report;

/// Says whether a file is the report on the records of an image file.
pub fn do_check<'a, D: Desk>(
    alloc: Global,
    image: &'a str,
    report: &'a str,
    desk: &mut D,
) -> Result<Output<'a>, Failure<'a>>
    ensures works { Works (Some (Check image.now report.now)) (FindsBoth (D.state desk.old) (D.disk desk.old))
        (D.state desk.old) (D.state desk.new) result }
    ensures disk { Rests (D.disk desk.old) (D.disk desk.new) }
{
    let (bytes, text) = load_both(image, report, desk)?;
    check_from_bytes(alloc, bytes, &text)
}

/// What a check gives, from the bytes of its files on.
fn check_from_bytes<'a>(
    alloc: Global,
    bytes: Vec<u8>,
    text: &[u8],
) -> Result<Output<'a>, Failure<'a>>
    ensures { WorksTo (Checking bytes.items text.now) result }
{
    let (config, flash) = open_image(alloc, bytes)?;
    check_device(alloc, flash, config, text)
}

/// What a check of the report on a device gives.
fn check_device<'a>(
    alloc: Global,
    flash: MemFlash,
    config: Config,
    text: &[u8],
) -> Result<Output<'a>, Failure<'a>>
    requires check { checked config ≡ Ok (shape_of config) }
    requires ready { flash ≡ loaded (shape_of config) flash.image flash.extras }
    ensures { WorksTo (Judging config flash.image text.now) result }
{
    let pages = check_flash(alloc, flash, config, text)?;
    let line = good_line(alloc, pages)?;
    Ok(Output {
        saved: None,
        text: Text::Other(line),
    })
}

/// The line that says that a report on so many pages is true.
fn good_line(alloc: Global, pages: u32) -> Result<Vec<u8>, AllocError>
    ensures { IfOk result (λ words. words.items ≡ line (codes "good " ++ decimal pages)) }
{
    let line = format!(in alloc; "good {pages}\n")?;
    Ok(line.into_bytes())
}

/// How many pages the report on a device explains, where this text is it.
fn check_flash(
    alloc: Global,
    flash: MemFlash,
    config: Config,
    text: &[u8],
) -> Result<u32, Failure<'static>>
    requires check { checked config ≡ Ok (shape_of config) }
    requires ready { flash ≡ loaded (shape_of config) flash.image flash.extras }
    ensures ok { IfOk result (λ n. Judging config flash.image text.now (Good n)) }
    ensures err { IfErr result (StopsBy (Judging config flash.image text.now)) }
{
    match config.protocol {
        Protocol::Scc => check_by::<Scc>(alloc, flash, config, text),
        Protocol::Bpcc => check_by::<Bpcc>(alloc, flash, config, text),
    }
}

/// The same under a rule.
fn check_by<R: CommitRule>(
    alloc: Global,
    flash: MemFlash,
    config: Config,
    text: &[u8],
) -> Result<u32, Failure<'static>>
    requires check { checked config ≡ Ok (shape_of config) }
    requires rule { config.protocol ≡ R.protocol }
    requires ready { flash ≡ loaded (shape_of config) flash.image flash.extras }
    ensures ok { IfOk result (λ n. Judging config flash.image text.now (Good n)) }
    ensures err { IfErr result (StopsBy (Judging config flash.image text.now)) }
{
    let device = sound_device::<R>(alloc, flash, config)?;
    let found = records_of(device)?;
    check_records(&found, config.protocol, config.logical, text)
}

/// The same of a list of records.
fn check_records(
    list: &[Found],
    protocol: Protocol,
    logical: u32,
    text: &[u8],
) -> Result<u32, Failure<'static>>
    requires few { logical ≤ 65536 }
    requires pages { All (λ f. f.rec.page < logical) list.now }
    requires scanned { IsScanned list.now }
    ensures ok { IfOk result (λ n. ChecksList protocol list.now logical text.now (Good n)) }
    ensures err { IfErr result (StopsBy (ChecksList protocol list.now logical text.now)) }
{
    match check_report(list, protocol, logical, text) {
        Ok(pages) => Ok(pages),
        Err(line) => Err(Failure::Refused(Refusal::WrongLine(line))),
    }
}

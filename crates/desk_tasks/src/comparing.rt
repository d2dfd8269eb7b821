ghost use Rattle.std.specs.Prelude.{◌≡◌, ◌==◌, ◌&&◌, ◌<◌, ◌++◌, ℕ, false, Ok, Some, IfOk, IfErr, IfSome, IfNone, codes, length};
ghost use Rattle.std.specs.Fmt.{decimal};
ghost use Rattle.tx_types.specs.Config.{checked, shape_of};
ghost use Rattle.flash_model.specs.Flash.{IsSteady};
ghost use Rattle.mem_flash.specs.MemFlashState.{loaded, state_of};
ghost use Rattle.durable_folder.specs.Histories.{Rests};
ghost use Rattle.desk_io.specs.Disk.{FindsBoth};
ghost use Rattle.program_base.specs.Refusals.{line};
ghost use Rattle.desk_tasks.specs.Ending.{Same};
ghost use Rattle.desk_tasks.specs.Checking.{HaveOneShape, array_of_device};
ghost use Rattle.array_machine.specs.ArrayState.{page_at};
ghost use Rattle.array_machine.specs.Read.{ReadsPage};
ghost use Rattle.lane_scan.specs.Scans.{DifferFirstAt};
ghost use Rattle.desk_tasks.specs.declared.difference.Difference.TheVariants.{At};
ghost use Rattle.desk_tasks.specs.Differences.{ComesTo, DiffersAt, FindsFirst, difference_ending};
ghost use Rattle.desk_tasks.specs.Steps.{Comparing, Opening, Reading};
ghost use Rattle.desk_tasks.specs.Stops.{StopsBy, Works, WorksTo};
ghost use Rattle.desk_tasks.specs.Request.{Compare};

use crate::devices::sound_device;
use crate::difference::Difference;
use crate::output::{Failure, Output, Text};
use crate::refusal::Refusal;
use bpcc_commit::Bpcc;
use desk_io::Desk;
use flash_model::steady_stays;
use lane_scan::first_difference;
use mem_flash::MemFlash;
use program_base::{load_file, open_image};
use record_list::CommitRule;
use scc_commit::Scc;
use std::alloc::{AllocError, Global};
use tx_engine::{Device, ReadAnswer};
use tx_types::{Config, Memory, Protocol};

/// Compares the arrays of two image files. The first one is read before the second is loaded.
pub fn do_compare<'a, D: Desk>(
    alloc: Global,
    first: &'a str,
    second: &'a str,
    desk: &mut D,
) -> Result<Output<'a>, Failure<'a>>
    ensures works { Works (Some (Compare first.now second.now)) (FindsBoth (D.state desk.old) (D.disk desk.old))
        (D.state desk.old) (D.state desk.new) result }
    ensures disk { Rests (D.disk desk.old) (D.disk desk.new) }
{
    let bytes = load_file(first, desk)?;
    let (config, flash) = open_image(alloc, bytes)?;
    match load_file(second, desk) {
        Ok(others) => compare_from_bytes(alloc, config, flash, others),
        Err(stop) => {
            drop(flash);
            Err(Failure::from(stop))
        }
    }
}

/// What a comparison gives, from the bytes of the second file on.
fn compare_from_bytes<'a>(
    alloc: Global,
    config: Config,
    flash: MemFlash,
    others: Vec<u8>,
) -> Result<Output<'a>, Failure<'a>>
    requires check { checked config ≡ Ok (shape_of config) }
    requires ready { flash ≡ loaded (shape_of config) flash.image flash.extras }
    ensures { WorksTo (Reading others.items (λ b other more. Comparing config flash.image b other)) result }
{
    let (second, other) = match open_image(alloc, others) {
        Ok(read) => read,
        Err(stop) => {
            drop(flash);
            return Err(Failure::from(stop));
        }
    };
    compare_devices(alloc, config, flash, second, other)
}

/// What a comparison of two devices gives.
fn compare_devices<'a>(
    alloc: Global,
    config: Config,
    flash: MemFlash,
    second: Config,
    other: MemFlash,
) -> Result<Output<'a>, Failure<'a>>
    requires check { checked config ≡ Ok (shape_of config) }
    requires ready { flash ≡ loaded (shape_of config) flash.image flash.extras }
    requires second_check { checked second ≡ Ok (shape_of second) }
    requires second_ready { other ≡ loaded (shape_of second) other.image other.extras }
    ensures { WorksTo (Comparing config flash.image second other.image) result }
{
    let logical = compare_flashes(alloc, config, flash, second, other)?;
    let line = same_line(alloc, logical)?;
    Ok(Output {
        saved: None,
        text: Text::Other(line),
    })
}

/// The line that says that two arrays of so many pages are one.
fn same_line(alloc: Global, logical: u32) -> Result<Vec<u8>, AllocError>
    ensures { IfOk result (λ words. words.items ≡ line (codes "same " ++ decimal logical)) }
{
    let line = format!(in alloc; "same {logical}\n")?;
    Ok(line.into_bytes())
}

/// The number of pages of two devices, where their arrays are one.
fn compare_flashes(
    alloc: Global,
    config: Config,
    flash: MemFlash,
    second: Config,
    other: MemFlash,
) -> Result<u32, Failure<'static>>
    requires check { checked config ≡ Ok (shape_of config) }
    requires ready { flash ≡ loaded (shape_of config) flash.image flash.extras }
    requires second_check { checked second ≡ Ok (shape_of second) }
    requires second_ready { other ≡ loaded (shape_of second) other.image other.extras }
    ensures ok { IfOk result (λ n. Comparing config flash.image second other.image (Same n)) }
    ensures err { IfErr result (StopsBy (Comparing config flash.image second other.image)) }
{
    match config.protocol {
        Protocol::Scc => compare_first_by::<Scc>(alloc, config, flash, second, other),
        Protocol::Bpcc => compare_first_by::<Bpcc>(alloc, config, flash, second, other),
    }
}

/// The same under the rule of the first.
fn compare_first_by<R: CommitRule>(
    alloc: Global,
    config: Config,
    flash: MemFlash,
    second: Config,
    other: MemFlash,
) -> Result<u32, Failure<'static>>
    requires check { checked config ≡ Ok (shape_of config) }
    requires rule { config.protocol ≡ R.protocol }
    requires ready { flash ≡ loaded (shape_of config) flash.image flash.extras }
    requires second_check { checked second ≡ Ok (shape_of second) }
    requires second_ready { other ≡ loaded (shape_of second) other.image other.extras }
    ensures ok { IfOk result (λ n. Comparing config flash.image second other.image (Same n)) }
    ensures err { IfErr result (StopsBy (Comparing config flash.image second other.image)) }
{
    match second.protocol {
        Protocol::Scc => compare_by::<R, Scc>(alloc, config, flash, second, other),
        Protocol::Bpcc => compare_by::<R, Bpcc>(alloc, config, flash, second, other),
    }
}

/// The same under both rules.
fn compare_by<R: CommitRule, S: CommitRule>(
    alloc: Global,
    config: Config,
    flash: MemFlash,
    second: Config,
    other: MemFlash,
) -> Result<u32, Failure<'static>>
    requires check { checked config ≡ Ok (shape_of config) }
    requires rule { config.protocol ≡ R.protocol }
    requires ready { flash ≡ loaded (shape_of config) flash.image flash.extras }
    requires second_check { checked second ≡ Ok (shape_of second) }
    requires second_rule { second.protocol ≡ S.protocol }
    requires second_ready { other ≡ loaded (shape_of second) other.image other.extras }
    ensures ok { IfOk result (λ n. Comparing config flash.image second other.image (Same n)) }
    ensures err { IfErr result (StopsBy (Comparing config flash.image second other.image)) }
{
    match sound_device::<R>(alloc, flash, config) {
        Ok(mut one) => {
            let outcome = compare_to_flash::<R, S>(alloc, config, &mut one, second, other);
            drop(one.close());
            outcome
        }
        Err(stop) => {
            drop(other);
            Err(stop)
        }
    }
}

/// The same of a device and of the flash of another.
fn compare_to_flash<R: CommitRule, S: CommitRule>(
    alloc: Global,
    config: Config,
    one: &mut Device<MemFlash, R>,
    second: Config,
    other: MemFlash,
) -> Result<u32, Failure<'static>>
    requires kept { one.old.dropped ≡ false }
    requires config { one.old.config ≡ config }
    requires steady { IsSteady (state_of one.old.flash) }
    requires second_check { checked second ≡ Ok (shape_of second) }
    requires second_rule { second.protocol ≡ S.protocol }
    requires second_ready { other ≡ loaded (shape_of second) other.image other.extras }
    ensures ok { IfOk result (λ n.
        Opening second other.image
        (ComesTo config one.old.machine.pages second (array_of_device second other.image)) (Same n)) }
    ensures err { IfErr result (StopsBy (
        Opening second other.image
        (ComesTo config one.old.machine.pages second (array_of_device second other.image)))) }
{
    let mut two = sound_device::<S>(alloc, other, second)?;
    let outcome = compare_opened(alloc, config, one, second, &mut two);
    drop(two.close());
    outcome
}

/// The same of two devices.
fn compare_opened<R: CommitRule, S: CommitRule>(
    alloc: Global,
    config: Config,
    one: &mut Device<MemFlash, R>,
    second: Config,
    two: &mut Device<MemFlash, S>,
) -> Result<u32, Failure<'static>>
    requires kept { one.old.dropped ≡ false }
    requires two_kept { two.old.dropped ≡ false }
    requires config { one.old.config ≡ config }
    requires second_config { two.old.config ≡ second }
    requires steady { IsSteady (state_of one.old.flash) }
    requires two_steady { IsSteady (state_of two.old.flash) }
    ensures ok { IfOk result (λ n.
        ComesTo config one.old.machine.pages second two.old.machine.pages (Same n)) }
    ensures err { IfErr result (
        StopsBy (ComesTo config one.old.machine.pages second two.old.machine.pages)) }
{
    if !have_one_shape(config, second) {
        return Err(Failure::Refused(Refusal::DifferShape));
    }
    let found = first_difference_of(alloc, one, two, config)?;
    comparison_result(config.logical, found)
}

/// What a comparison of arrays of so many pages comes to.
fn comparison_result(logical: u32, found: Option<Difference>) -> Result<u32, Failure<'static>>
    ensures ok { IfOk result (λ n. Same n ≡ difference_ending logical found) }
    ensures err { IfErr result (StopsBy (λ ending. ending ≡ difference_ending logical found)) }
{
    match found {
        None => Ok(logical),
        Some(Difference::Blank(page)) => Err(Failure::Refused(Refusal::DifferBlank(page))),
        Some(Difference::At { page, at }) => Err(Failure::Refused(Refusal::DifferAt { page, at })),
    }
}

/// Whether two devices have as many pages of as many bytes.
fn have_one_shape(a: Config, b: Config) -> bool
    ensures { result ≡ ((a.page_bytes == b.page_bytes) && (a.logical == b.logical)) }
{
    a.page_bytes == b.page_bytes && a.logical == b.logical
}

/// The first difference of the arrays of two devices.
fn first_difference_of<R: CommitRule, S: CommitRule>(
    alloc: Global,
    one: &mut Device<MemFlash, R>,
    two: &mut Device<MemFlash, S>,
    config: Config,
) -> Result<Option<Difference>, Memory>
    requires kept { one.old.dropped ≡ false }
    requires two_kept { two.old.dropped ≡ false }
    requires config { one.old.config ≡ config }
    requires shape { HaveOneShape config two.old.config }
    requires steady { IsSteady (state_of one.old.flash) }
    requires two_steady { IsSteady (state_of two.old.flash) }
    ensures { IfOk result (FindsFirst one.old.machine.pages two.old.machine.pages config.logical) }
{
    let page_bytes = config.page_bytes as usize;
    let mut rooms = vec![in alloc; 0; 2 * page_bytes]?;
    let (here, there) = rooms.split_at_mut(page_bytes);
    Ok(search_pages(one, two, config, here, there))
}

/// Searches the pages of two devices for the first difference. The rooms are for a page each.
fn search_pages<R: CommitRule, S: CommitRule>(
    one: &mut Device<MemFlash, R>,
    two: &mut Device<MemFlash, S>,
    config: Config,
    here: &mut [u8],
    there: &mut [u8],
) -> Option<Difference>
    requires kept { one.old.dropped ≡ false }
    requires two_kept { two.old.dropped ≡ false }
    requires config { one.old.config ≡ config }
    requires shape { HaveOneShape config two.old.config }
    requires steady { IsSteady (state_of one.old.flash) }
    requires two_steady { IsSteady (state_of two.old.flash) }
    requires room { length here.old ≡ config.page_bytes }
    requires two_room { length there.old ≡ config.page_bytes }
    ensures { FindsFirst one.old.machine.pages two.old.machine.pages config.logical result }
{
    for page in 0..config.logical {
        if let Some(found) = difference_at(one, two, page, here, there) {
            return Some(found);
        }
    }
    None
}

/// The difference of two arrays in a page, if there is one. The rooms are for a page each.
fn difference_at<R: CommitRule, S: CommitRule>(
    one: &mut Device<MemFlash, R>,
    two: &mut Device<MemFlash, S>,
    page: u32,
    here: &mut [u8],
    there: &mut [u8],
) -> Option<Difference>
    requires kept { one.old.dropped ≡ false }
    requires two_kept { two.old.dropped ≡ false }
    requires page { page < one.old.config.logical }
    requires shape { HaveOneShape one.old.config two.old.config }
    requires steady { IsSteady (state_of one.old.flash) }
    requires two_steady { IsSteady (state_of two.old.flash) }
    requires room { length here.old ≡ one.old.config.page_bytes }
    requires two_room { length there.old ≡ one.old.config.page_bytes }
    ensures none { IfNone result (page_at one.old.machine.pages page ≡ page_at two.old.machine.pages page) }
    ensures some { IfSome result (DiffersAt one.old.machine.pages two.old.machine.pages page) }
    ensures stays { one.new ≡ record one.old { flash = one.new.flash } }
    ensures two_stays { two.new ≡ record two.old { flash = two.new.flash } }
    ensures steady { IsSteady (state_of one.new.flash) }
    ensures two_steady { IsSteady (state_of two.new.flash) }
    ensures room { length here.new ≡ length here.old }
    ensures two_room { length there.new ≡ length there.old }
{
    let first = read(one, page, here);
    let second = read(two, page, there);
    match first {
        ReadAnswer::Blank => match second {
            ReadAnswer::Blank => None,
            ReadAnswer::Page => Some(Difference::Blank(page)),
        },
        ReadAnswer::Page => match second {
            ReadAnswer::Blank => Some(Difference::Blank(page)),
            ReadAnswer::Page => byte_difference(page, here, there),
        },
    }
}

/// The difference of what two arrays hold at a page that is blank in neither.
fn byte_difference(page: u32, here: &[u8], there: &[u8]) -> Option<Difference>
    requires { length here.now ≡ length there.now }
    ensures none { IfNone result (here.now ≡ there.now) }
    ensures some { IfSome result (λ found. (at : ℕ) × (found ≡ At page at) × DifferFirstAt here.now there.now at) }
{
    let at = first_difference(here, there)?;
    Some(Difference::At { page, at })
}

/// Reads a page of a device whose flash breaks no call.
fn read<R: CommitRule>(device: &mut Device<MemFlash, R>, page: u32, into: &mut [u8]) -> ReadAnswer
    requires kept { device.old.dropped ≡ false }
    requires page { page < device.old.config.logical }
    requires room { length into.old ≡ device.old.config.page_bytes }
    requires steady { IsSteady (state_of device.old.flash) }
    ensures reads { ReadsPage device.old.config.logical device.old.machine.pages page into.new (Ok result) }
    ensures stays { device.new ≡ record device.old { flash = device.new.flash } }
    ensures steady { IsSteady (state_of device.new.flash) }
    ensures room { length into.new ≡ length into.old }
{
    steady_stays();
    match device.read(page, into) {
        Ok(answer) => answer,
        Err(_) => unreachable!(),
    }
}

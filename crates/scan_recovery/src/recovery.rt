ghost use Rattle.std.specs.Prelude.{◌≡◌, ◌<◌, ℕ, All, Ok, OnOk, IfOk, IfErr, length};
ghost use Rattle.tx_types.specs.Config.{checked, slots_of};
ghost use Rattle.tx_types.specs.declared.config.Protocol.{Protocol};
ghost use Rattle.flash_model.specs.Calls.{Carries};
ghost use Rattle.flash_model.specs.Flash.{FlashState, IsFlash};
ghost use Rattle.flash_model.specs.Operations.{moment_of};
ghost use Rattle.record_list.specs.SoundList.{Copies};
ghost use Rattle.record_list.specs.Written.{KeepsWritten};
ghost use Rattle.sorted_records.specs.SortedRecords.{Sorts, list_of};
ghost use Rattle.judged_records.specs.Images.{IsSoundImage, written_in, IsLeastImageBreach};
ghost use Rattle.scan_recovery.specs.Opening.{IsOpened};
ghost use Rattle.scan_recovery.specs.Recovered.{IfUnsound, is_read_failure, ReadsFor};
ghost use Rattle.scan_recovery.specs.Scans.{IsScanOf, WasScanned};

use crate::RecoverError;
use crate::opening::open_tables;
use crate::scan::{Scanned, scan};
use crate::twins::first_contradiction;
use die_alloc::Blocks;
use flash_model::{Flash, Seen};
use record_list::CommitRule;
use sorted_records::{SortedRecords, SortedWithList};
use std::alloc::Global;
use tx_types::Config;
use version_index::Index;

/// Opens a device from its flash alone: the tables of a sound image, with the block that becomes
/// the spare, or the first of laws 1 to 9 that the image breaks.
///
/// Each slot is read once, the lowest first. Where law 1 holds, law 2 is tried record by record,
/// the lowest slot first: where another slot is the lowest that holds the record's name, and the
/// two records are equal, these two slots are read again, the lowest first, to compare their bytes.
/// Nothing is read after a slot that breaks law 2.
///
/// `Fault` comes at the first read that fails, and nothing is read after it. `Unsound` comes where
/// no read failed and the image is not sound: law 1 names the lowest slot that does not read or has
/// a page that does not exist, laws 2 to 7 and 9 the lowest slot whose record breaks them, law 8 slot 0.
/// All memory of the tables is taken here. The calls of `CommitRule` are the plain programs of the definitions: an
/// opening asks its tables in place of them, and tests compare the two.
pub fn recover<F: Flash, R: CommitRule>(
    alloc: Global,
    flash: &mut F,
    config: Config,
) -> Result<(Index<R>, Blocks), RecoverError>
    requires check { checked config ≡ Ok (F.state flash.old).shape }
    requires rule { config.protocol ≡ R.protocol }
    // The tables of a sound image.
    ensures sound { let old = F.state flash.old in
        OnOk result (IsSoundImage R.protocol config.logical old.shape old.image) }
    ensures tables { IfOk result (λ opened.
        IsOpened config (F.state flash.old).image opened.0 opened.1) }
    // Else the first law that is broken, and its slot.
    ensures unsound { let old = F.state flash.old in
        IfErr result (λ e. IfUnsound e
        (IsLeastImageBreach R.protocol config.logical old.shape old.image)) }
    // So it is only where no read failed.
    ensures faultless { let faults = (F.state flash.old).faults in
        IfErr result (λ e. IfUnsound e (λ _. (F.state flash.new).faults ≡ faults)) }

    // Nothing changes, and this many slots are read.
    ensures moment { moment_of (F.state flash.new) ≡ moment_of (F.state flash.old) }
    ensures started { (F.state flash.new).started ≡ (F.state flash.old).started }
    ensures carries { Carries (F.state flash.old) (F.state flash.new) (is_read_failure result) }
    ensures reads { ReadsFor config.protocol (F.state flash.old) (F.state flash.new) result }
{
    let (seen, charted) = sound_scan(alloc, flash, config)?;
    open_tables(alloc, config, flash.shape(), seen, charted)
}

/// Scans the flash, puts the records in order of their names, and tries laws 1 and 2. It returns how the slots read,
/// the sorted records, and the list of records where it is not in order.
fn sound_scan<F: Flash>(
    alloc: Global,
    flash: &mut F,
    config: Config,
) -> Result<(Vec<Seen>, SortedWithList), RecoverError>
    ensures scan { let image = (F.state flash.old).image in
        IfOk result (λ s. IsScanOf config.protocol config.logical image
        s.0.items (list_of s.1.list s.1.chart)) }
    ensures sorts { IfOk result (λ s. Sorts (list_of s.1.list s.1.chart) s.1.chart) }
    ensures copies { let list = written_in config.protocol (F.state flash.old).image in
        OnOk result (All (KeepsWritten config.protocol list config.logical Copies) list) }
    ensures unsound { let old = F.state flash.old in
        IfErr result (λ e. IfUnsound e
        (IsLeastImageBreach config.protocol config.logical old.shape old.image)) }
    ensures reads { ReadsFor config.protocol (F.state flash.old) (F.state flash.new) result }
{
    let size = flash.shape().page_bytes as usize;
    let mut one = vec![in alloc; 0; size]?;
    let mut two = vec![in alloc; 0; size]?;
    sound_scan_by(alloc, flash, config, &mut one, &mut two)
}

/// Scans the flash, sorts the records and tries laws 1 and 2, with two pages of memory to read into.
fn sound_scan_by<F: Flash>(
    alloc: Global,
    flash: &mut F,
    config: Config,
    one: &mut [u8],
    two: &mut [u8],
) -> Result<(Vec<Seen>, SortedWithList), RecoverError>
    requires whole { IsFlash (F.state flash.old) }
    requires one { length one.old ≡ (F.state flash.old).shape.page_bytes }
    requires two { length two.old ≡ (F.state flash.old).shape.page_bytes }
    ensures scan { let image = (F.state flash.old).image in
        IfOk result (λ s. IsScanOf config.protocol config.logical image
        s.0.items (list_of s.1.list s.1.chart)) }
    ensures sorts { IfOk result (λ s. Sorts (list_of s.1.list s.1.chart) s.1.chart) }
    ensures copies { let list = written_in config.protocol (F.state flash.old).image in
        OnOk result (All (KeepsWritten config.protocol list config.logical Copies) list) }
    ensures unsound { let old = F.state flash.old in
        IfErr result (λ e. IfUnsound e
        (IsLeastImageBreach config.protocol config.logical old.shape old.image)) }
    ensures reads { ReadsFor config.protocol (F.state flash.old) (F.state flash.new) result }
{
    let scanned = scan(alloc, flash, config, one)?;
    let Scanned { seen, list, counts } = scanned;
    let charted = SortedRecords::of_own(alloc, list, counts, config.protocol)?;
    match try_law_two(flash, &charted, one, two) {
        Ok(()) => Ok((seen, charted)),
        Err(error) => {
            drop(charted);
            Err(error)
        }
    }
}

/// Tries law 2 of records that were scanned and sorted.
fn try_law_two<F: Flash>(
    flash: &mut F,
    charted: &SortedWithList,
    one: &mut [u8],
    two: &mut [u8],
) -> Result<(), RecoverError>
    requires sorts { Sorts (list_of charted.now.list charted.now.chart) charted.now.chart }
    requires exist { All (λ f. f.slot.0 < slots_of (F.state flash.old).shape)
        (list_of charted.now.list charted.now.chart) }
    requires one { length one.old ≡ (F.state flash.old).shape.page_bytes }
    requires two { length two.old ≡ (F.state flash.old).shape.page_bytes }
    ensures copies { (protocol : Protocol) (logical : ℕ) (before : FlashState) →
        WasScanned protocol logical before (F.state flash.old) (list_of charted.now.list charted.now.chart) →
        let list = written_in protocol before.image in
        OnOk result (All (KeepsWritten protocol list logical Copies) list) }
    ensures unsound { (protocol : Protocol) (logical : ℕ) (before : FlashState) →
        WasScanned protocol logical before (F.state flash.old) (list_of charted.now.list charted.now.chart) →
        IfErr result (λ e. IfUnsound e (IsLeastImageBreach protocol logical before.shape before.image)) }
    ensures reads { (protocol : Protocol) (logical : ℕ) (before : FlashState) →
        WasScanned protocol logical before (F.state flash.old) (list_of charted.now.list charted.now.chart) →
        ReadsFor protocol before (F.state flash.new) result }
{
    let chart = &charted.chart;
    let by_slot = chart.list_of(&charted.list);
    match first_contradiction(flash, by_slot, chart, one, two)? {
        None => Ok(()),
        Some(at) => Err(RecoverError::Unsound {
            law: 2,
            slot: by_slot[at].slot,
        }),
    }
}

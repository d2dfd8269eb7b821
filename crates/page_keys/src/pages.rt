ghost use Rattle.std.specs.Prelude.{◌≡◌, ◌<◌, ◌≤◌, ◌+◌, ◌⊎◌, ℕ, [], false, length, replicate, OnOk, OnErr, IfErr};
ghost use Rattle.std.specs.Result.{is_err};
ghost use Rattle.array_machine.specs.ArrayState.{page_at};
ghost use Rattle.page_keys.specs.Buckets.{encodes, AreBuckets};
ghost use Rattle.page_keys.specs.Stores.{OnlyReads, OpensNot, is_opening_fault};

use crate::answers::KeyError;
use crate::reading;
use flash_model::Flash;
use record_list::CommitRule;
use std::alloc::Global;
use tx_engine::{Device, Fault, ReadAnswer, device_facts};

/// Reads a page as a store of keys does, with zeros where it is blank.
pub(crate) fn read_page<F: Flash, R: CommitRule>(
    device: &mut Device<F, R>,
    room: &mut [u8],
    page: u32,
) -> Result<(), Fault>
    requires kept { device.old.dropped ≡ false }
    requires room { length room.old ≡ device.old.config.page_bytes }
    requires exists { page < device.old.config.logical }
    ensures shown { OnOk result (room.new
        ≡ encodes device.old.config.page_bytes (page_at device.old.machine.pages page)) }
    ensures reads { OnlyReads F.state device.old device.new (is_err result) }
    ensures once { (F.state device.new.flash).reads ≤ (F.state device.old.flash).reads + 1 }
{
    match device.read(page, room) {
        Ok(ReadAnswer::Page) => Ok(()),
        Ok(ReadAnswer::Blank) => {
            clear(room);
            Ok(())
        }
        Err(_) => Err(Fault),
    }
}

/// Sets all bytes to zero.
fn clear(room: &mut [u8])
    ensures { room.new ≡ replicate (length room.old) 0 }
{
    for i in 0..room.len() {
        room[i] = 0;
    }
}

/// Reads each page, in ascending order, up to the first one that is no bucket.
pub(crate) fn check_all<F: Flash, R: CommitRule>(
    alloc: Global,
    device: &mut Device<F, R>,
    room: &mut [u8],
) -> Result<(), KeyError>
    requires kept { device.old.dropped ≡ false }
    requires room { length room.old ≡ device.old.config.page_bytes }
    ensures ok { OnOk result (AreBuckets device.old.config device.old.machine.pages) }
    ensures read { OnOk result (OnlyReads F.state device.old device.new false) }
    ensures err { IfErr result (OpensNot device.old) }
    ensures stopped { IfErr result (λ e. OnlyReads F.state device.old device.new (is_opening_fault e)) }
{
    let logical = device_facts(device).logical;
    let mut entries = Vec::new(alloc);
    for page in 0..logical {
        read_page(device, room, page)?;
        entries.clear();
        if !reading::read(room, logical, page, &mut entries)? {
            return Err(KeyError::Bucket(page));
        }
    }
    Ok(())
}

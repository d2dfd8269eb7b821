ghost use Rattle.std.specs.Prelude.{◌≡◌, ◌<◌, true, false, Some, length, IfOk, OnErr};
ghost use Rattle.array_machine.specs.ArrayState.{page_at};
ghost use Rattle.array_machine.specs.Read.{ReadsPage};
ghost use Rattle.array_runs.specs.Run.{read_reply};
ghost use Rattle.flash_model.specs.Calls.{Carries};
ghost use Rattle.flash_model.specs.Operations.{moment_of};
ghost use Rattle.tx_engine.specs.Always.{HoldsAlways};
ghost use Rattle.tx_engine.specs.Read.{is_read_fault};
ghost use Rattle.mounted_session.specs.Mounting.{StaysQuiet};
ghost use Rattle.cut_replay.specs.Mounted.{IsCached, ServesHere, ReadsThrough, is_cached, brought_forward, KeepsPage, CachesRead, CachesPage, ReadsPageOnce};

use flash_model::Flash;
use host_protocol::{Command, Reply};
use page_cache::PageCache;
use record_list::CommitRule;
use std::alloc::Global;
use tx_engine::{Device, ReadAnswer, ReadError, device_facts};
use tx_types::{Bytes, Memory};

/// Reads a page, from the cache where that holds it at its current version.
pub fn read<F: Flash, R: CommitRule>(
    alloc: Global,
    device: &mut Device<F, R>,
    cache: &mut PageCache,
    room: &mut [u8],
    page: u32,
) -> Result<Reply, Memory>
    requires room { length room.old ≡ device.old.config.page_bytes }
    requires size { cache.old.page_bytes ≡ device.old.config.page_bytes }
    requires cached { IsCached device.old cache.old.entries }
    requires always { HoldsAlways F.state R.protocol device.old }
    ensures ok { IfOk result (ServesHere F.state (Command.Read page) device.old device.new) }
    ensures err { OnErr result (StaysQuiet (F.state device.old.flash) (F.state device.new.flash)) }
    ensures once { ReadsPageOnce F.state device.old device.new cache.old.entries page }
    ensures keeps { CachesPage device.old cache.old cache.new page }
    ensures size { cache.new.page_bytes ≡ cache.old.page_bytes }
    ensures cached { IsCached device.new cache.new.entries }
    ensures always { HoldsAlways F.state R.protocol device.new }
{
    let (answer, _) = read_through(device, cache, room, page);
    device_facts(device);
    read_reply(alloc, page, room, answer)
}

/// The reply of a read.
fn read_reply(
    alloc: Global,
    page: u32,
    room: &[u8],
    answer: Result<ReadAnswer, ReadError>,
) -> Result<Reply, Memory>
    ensures reply { IfOk result (λ r. r ≡ read_reply page room.now answer) }
    ensures whole { OnErr result (is_read_fault answer ≡ false) }
{
    match answer {
        Ok(ReadAnswer::Blank) => Ok(Reply::Blank(page)),
        Ok(ReadAnswer::Page) => {
            let mut bytes = Bytes::new(alloc);
            bytes.extend(room)?;
            Ok(Reply::Page(page, bytes))
        }
        Err(ReadError::Range) => Ok(Reply::RefusedRange(page)),
        Err(ReadError::Fault) => Ok(Reply::Fault),
    }
}

/// Reads a page into room for one. A page that is read from the device is kept under its current
/// version, where there is memory; the second answer says whether there was.
fn read_through<F: Flash, R: CommitRule>(
    device: &mut Device<F, R>,
    cache: &mut PageCache,
    room: &mut [u8],
    page: u32,
) -> (Result<ReadAnswer, ReadError>, Result<(), Memory>)
    requires kept { device.old.dropped ≡ false }
    requires room { length room.old ≡ device.old.config.page_bytes }
    requires size { cache.old.page_bytes ≡ device.old.config.page_bytes }
    requires cached { IsCached device.old cache.old.entries }
    ensures reads { let s = device.old in
        ReadsPage s.config.logical s.machine.pages page room.new result.0 }
    // A page that is held takes no read of the flash, and any other written page takes one.
    ensures through { ReadsThrough F.state device.old device.new cache.old.entries page
        room.old room.new result.0 }
    ensures moment { moment_of (F.state device.new.flash) ≡ moment_of (F.state device.old.flash) }
    ensures carries { Carries (F.state device.old.flash) (F.state device.new.flash)
        (is_read_fault result.0) }
    ensures stays { device.new ≡ record device.old { flash = device.new.flash } }
    ensures keeps { CachesRead device.old cache.old cache.new page room.new result.0 result.1 }
    ensures cached { IsCached device.new cache.new.entries }
{
    if find(device, cache, room, page) {
        return (Ok(ReadAnswer::Page), Ok(()));
    }
    match device.read(page, room) {
        Ok(ReadAnswer::Page) => {
            let kept = keep(device, cache, room, page);
            (Ok(ReadAnswer::Page), kept)
        }
        other => (other, Ok(())),
    }
}

/// Whether a page is held at its current version. Its bytes are then copied, and it comes to the
/// front of the cache.
fn find<F: Flash, R: CommitRule>(
    device: &Device<F, R>,
    cache: &mut PageCache,
    room: &mut [u8],
    page: u32,
) -> bool
    requires kept { device.now.dropped ≡ false }
    requires room { length room.old ≡ device.now.config.page_bytes }
    requires size { cache.old.page_bytes ≡ device.now.config.page_bytes }
    requires cached { IsCached device.now cache.old.entries }
    ensures held { result ≡ is_cached device.now cache.old.entries page }
    ensures exists { result ≡ true → page < device.now.config.logical }
    ensures bytes { result ≡ true → page_at device.now.machine.pages page ≡ Some room.new }
    ensures missed { result ≡ false → room.new ≡ room.old }
    ensures front { result ≡ true → cache.new ≡ brought_forward device.now page cache.old }
    ensures stays { result ≡ false → cache.new ≡ cache.old }
    ensures cached { IsCached device.now cache.new.entries }
{
    if page >= device.config().logical {
        return false;
    }
    let version = device.version(page);
    cache.find(page, version, room)
}

/// Keeps the bytes of a page under its current version, where there is memory.
fn keep<F: Flash, R: CommitRule>(
    device: &Device<F, R>,
    cache: &mut PageCache,
    room: &[u8],
    page: u32,
) -> Result<(), Memory>
    requires kept { device.now.dropped ≡ false }
    requires room { length room.now ≡ device.now.config.page_bytes }
    requires size { cache.old.page_bytes ≡ device.now.config.page_bytes }
    requires cached { IsCached device.now cache.old.entries }
    requires exists { page < device.now.config.logical }
    requires bytes { page_at device.now.machine.pages page ≡ Some room.now }
    ensures keeps { KeepsPage device.now cache.old cache.new page room.now result }
    ensures cached { IsCached device.now cache.new.entries }
{
    let version = device.version(page);
    cache.keep(page, version, room)
}

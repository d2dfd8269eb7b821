ghost use Rattle.std.specs.Prelude.{◌≡◌, ◌⊎◌, ◌<◌, ℕ, List, true, false, nat_eq, All, Ok, IfSome, OnOk};
ghost use Rattle.std.specs.List.{starts_with};
ghost use Rattle.tx_types.specs.Config.{checked, shape_of};
ghost use Rattle.mem_flash.specs.MemFlashState.{loaded};
ghost use Rattle.image_file.specs.InUse.{IsInUse};
ghost use Rattle.image_file.specs.Spelling.{CanBeSpelled};
ghost use Rattle.file_flash.specs.Files.{ReadsFile};
ghost use Rattle.live_file.specs.Spelling.{IsLive, live_spelling, third_magic};
ghost use Rattle.live_session.specs.Endings.{ending_of};
ghost use Rattle.live_session.specs.LineDesk.{Replaces};
ghost use Rattle.live_session.specs.Opening.{OpensFlash, OpensHeld, PutsLiveFile};
ghost use Rattle.live_session.specs.Opening.{ending_of_claim, ending_of_opening, ending_of_put};

use crate::ending::Ending;
use crate::{CallError, ClaimError, LineDesk};
use file_flash::Store;
use image_file::{ImageError, take_image_in_use};
use live_file::{LiveError, take_live, write_live};
use live_flash::LiveFlash;
use mem_flash::MemFlash;
use program_base::ImageRefusal;
use std::alloc::Global;
use tx_types::{Config, Memory};

/// What a live file begins with.
const LIVE_MAGIC: [u8; 8] = *b"TXFLASH3";

/// The flash of the image file of this name, which is held, and is a live file from now on.
pub fn open_flash<'a, S: Store + Drop, D: LineDesk<S, LiveFlash<S>>>(
    alloc: Global,
    name: &'a str,
    desk: &mut D,
) -> Result<LiveFlash<S>, Ending<'a>>
    ensures { OpensFlash name.now (D.state desk.old) (D.state desk.new) result }
{
    match desk.claim(name) {
        Ok(file) => open_file(alloc, desk, file),
        Err(error) => Err(not_claimed(name, error)),
    }
}

/// The flash of a file that is held.
fn open_file<S: Store + Drop, D: LineDesk<S, LiveFlash<S>>>(
    alloc: Global,
    desk: &mut D,
    file: S,
) -> Result<LiveFlash<S>, Ending<'static>>
    ensures { OpensHeld (S.told file) (D.state desk.old) (D.state desk.new) result }
{
    let mut file = file;
    match file.read_all(alloc) {
        Ok(bytes) => open_bytes(alloc, desk, file, bytes),
        Err(_) => {
            drop(file);
            Err(Ending::Fault)
        }
    }
}

/// The flash of a file with these bytes: a live one, which a session left that was cut off, or an image file.
fn open_bytes<S: Store + Drop, D: LineDesk<S, LiveFlash<S>>>(
    alloc: Global,
    desk: &mut D,
    file: S,
    bytes: Vec<u8>,
) -> Result<LiveFlash<S>, Ending<'static>>
    requires { IfSome (S.told file) (ReadsFile bytes.items) }
    ensures { OpensHeld (S.told file) (D.state desk.old) (D.state desk.new) result }
{
    if bytes.starts_with(&LIVE_MAGIC) {
        open_live(alloc, desk, file, bytes)
    } else {
        open_image(alloc, desk, file, bytes)
    }
}

/// The flash of a live file.
fn open_live<S: Store + Drop, D: LineDesk<S, LiveFlash<S>>>(
    alloc: Global,
    desk: &mut D,
    file: S,
    bytes: Vec<u8>,
) -> Result<LiveFlash<S>, Ending<'static>>
    requires reads { IfSome (S.told file) (ReadsFile bytes.items) }
    requires begins { starts_with nat_eq bytes.items third_magic ≡ true }
    ensures { OpensHeld (S.told file) (D.state desk.old) (D.state desk.new) result }
{
    match take_live(alloc, &bytes) {
        Ok((config, memory)) => {
            drop(bytes);
            begin(alloc, desk, file, config, memory)
        }
        Err(rule) => {
            drop(bytes);
            drop(file);
            Err(not_opened(rule))
        }
    }
}

/// The flash of an image file.
fn open_image<S: Store + Drop, D: LineDesk<S, LiveFlash<S>>>(
    alloc: Global,
    desk: &mut D,
    file: S,
    bytes: Vec<u8>,
) -> Result<LiveFlash<S>, Ending<'static>>
    requires reads { IfSome (S.told file) (ReadsFile bytes.items) }
    requires begins { starts_with nat_eq bytes.items third_magic ≡ false }
    ensures { OpensHeld (S.told file) (D.state desk.old) (D.state desk.new) result }
{
    match take_image_in_use(alloc, bytes) {
        Ok((config, memory)) => begin(alloc, desk, file, config, memory),
        Err(rule) => {
            drop(file);
            Err(not_opened(LiveError::Image(rule)))
        }
    }
}

/// A session on the flash that the bytes of a file say: its live file takes the place of that file, also where it is a
/// live one. So all bytes are written anew, those of torn slots too, and what was put at the name before is durable.
fn begin<S: Store + Drop, D: LineDesk<S, LiveFlash<S>>>(
    alloc: Global,
    desk: &mut D,
    file: S,
    config: Config,
    memory: MemFlash,
) -> Result<LiveFlash<S>, Ending<'static>>
    requires can { CanBeSpelled config memory.image memory.extras }
    requires memory { memory ≡ loaded (shape_of config) memory.image memory.extras }
    ensures { (bytes : List ℕ) → IfSome (S.told file) (ReadsFile bytes) →
        IsInUse bytes config memory.image memory.extras ⊎ IsLive bytes config memory.image memory.extras →
        OpensHeld (S.told file) (D.state desk.old) (D.state desk.new) result }
{
    let mut file = file;
    match put_live_file(alloc, desk, &mut file, &config, &memory) {
        Ok(()) => match LiveFlash::hold(alloc, config, memory, file) {
            Ok(flash) => Ok(flash),
            Err(_) => Err(Ending::Memory),
        },
        Err(why) => {
            drop(memory);
            drop(file);
            Err(not_put(why))
        }
    }
}

/// Puts the live file of a flash in the place of a file.
fn put_live_file<S: Store + Drop, D: LineDesk<S, LiveFlash<S>>>(
    alloc: Global,
    desk: &mut D,
    file: &mut S,
    config: &Config,
    memory: &MemFlash,
) -> Result<(), CallError>
    requires { checked config.now ≡ Ok memory.now.shape }
    ensures turns { PutsLiveFile (S.told file.old) (S.told file.new) (D.state desk.old) (D.state desk.new)
        (live_spelling config.now memory.now.image memory.now.extras) result }
    ensures fresh { OnOk result (S.faults file.new ≡ 0) }
    ensures bytes { OnOk result (All (λ b. b < 256) (live_spelling config.now memory.now.image memory.now.extras)) }
{
    match write_live(alloc, config, memory) {
        Ok(bytes) => {
            let replaced = replace(desk, file, &bytes);
            drop(bytes);
            replaced
        }
        Err(Memory) => Err(CallError::Memory),
    }
}

/// Puts a file with these bytes in the place of another one.
fn replace<S: Store + Drop, D: LineDesk<S, LiveFlash<S>>>(
    desk: &mut D,
    file: &mut S,
    bytes: &[u8],
) -> Result<(), CallError>
    ensures replaces { Replaces (S.told file.old) (S.told file.new) (D.state desk.old) (D.state desk.new)
        bytes.now result }
    ensures fresh { OnOk result (S.faults file.new ≡ 0) }
    ensures bytes { All (λ b. b < 256) bytes.now }
{
    desk.replace(file, bytes)
}

/// How a call ends whose file was not replaced.
fn not_put(why: CallError) -> Ending<'static>
    ensures { ending_of result ≡ ending_of_put why }
{
    match why {
        CallError::Failed => Ending::Fault,
        CallError::Memory => Ending::Memory,
    }
}

/// How a call ends whose file was not opened.
fn not_claimed(name: &str, error: ClaimError) -> Ending<'_>
    ensures { ending_of result ≡ ending_of_claim name.now error }
{
    match error {
        ClaimError::Missing => Ending::Refused(ImageRefusal::Missing(name)),
        ClaimError::TooLong => Ending::Refused(ImageRefusal::TooLong(name)),
        ClaimError::InUse => Ending::InUse,
        ClaimError::Failed => Ending::Fault,
        ClaimError::Memory => Ending::Memory,
    }
}

/// How a call ends whose file has no flash.
fn not_opened(error: LiveError) -> Ending<'static>
    ensures { ending_of result ≡ ending_of_opening error }
{
    match error {
        LiveError::Image(ImageError::Memory) => Ending::Memory,
        LiveError::Image(rule) => Ending::Refused(ImageRefusal::BadImage(rule)),
        LiveError::Count(at) => Ending::BadCount(at),
    }
}

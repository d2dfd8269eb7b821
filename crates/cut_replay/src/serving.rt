ghost use Rattle.std.specs.Prelude.{◌≡◌, Ok, true, false, [], length, OnOk, All};
ghost use Rattle.tx_types.specs.Config.{checked};
ghost use Rattle.host_protocol.specs.Commands.{Suits};
ghost use Rattle.array_runs.specs.Run.{is_arm};
ghost use Rattle.flash_model.specs.Flash.{FlashState, IsSteady};
ghost use Rattle.flash_model.specs.Operations.{moment_of};
ghost use Rattle.cut_replay.specs.Bounds.{CountsBreaks};
ghost use Rattle.cut_replay.specs.FlashCalls.{BeginsFlash};
ghost use Rattle.cut_replay.specs.Served.{ServesSound, ServesUnsound, RefusesUnsound};
ghost use Rattle.cut_replay.specs.ServerRuns.{IsServed};
ghost use Rattle.mounted_session.specs.Sessions.{is_mounted};
ghost use Rattle.cut_replay.specs.Sessions.{flash_in, serve_error, Fits, Serves, IsSoundFlash, IsSoundOrSame};

use crate::arms::{arm_bad_read, arm_cut, arm_fault};
use crate::executing::execute;
use crate::mounting::{mount_again, remount, remount_if_cut};
use crate::{Server, Watch};
use flash_model::{Arms, Power, Wide};
use host_protocol::{Command, Reply};
use mounted_session::{Refusal, Session};
use page_cache::PageCache;
use record_list::CommitRule;
use std::alloc::Global;
use tx_engine::{Device, Fault, Moved, device_facts};
use tx_types::{Config, Slot};

/// Why the commands were not all served.
#[derive(Clone, Copy, PartialEq, Eq)]
pub enum ServeError {
    /// The image that was handed in is not sound: the first law that it breaks, and the slot that
    /// the law names.
    Unsound { law: u8, slot: Slot },
    /// There was no memory. The last command may have been done and its reply not told: the flash
    /// is as that command left it.
    Memory,
}

impl From<Refusal> for ServeError {
    ghost from_gives = { λ why e. e ≡ serve_error why };

    fn from(why: Refusal) -> Self {
        match why {
            Refusal::Unsound { law, slot } => ServeError::Unsound { law, slot },
            Refusal::Memory => ServeError::Memory,
        }
    }
}

/// Goes on with several transactions at once on a mounted device. Where that meets a fault, none is
/// open any more, and the device is mounted again.
fn serve_step_all<F: Power + Wide, R: CommitRule>(
    alloc: Global,
    config: Config,
    session: &mut Session<F, Device<F, R>>,
    cache: &mut PageCache,
) -> Result<Reply, ServeError>
    requires mounted { is_mounted session.old ≡ true }
    requires rule { config.protocol ≡ R.protocol }
    requires fits { Fits F.state config cache.old.entries session.old }
    ensures { Serves F.state config Command.StepAll session.old result session.new cache.old cache.new }
{
    let Session::Mounted(device) = session else {
        unreachable!();
    };
    device.config();
    match device.step_all() {
        Ok(Moved { moved, finished }) => {
            device_facts(device);
            Ok(Reply::Moved(moved, finished))
        }
        Err(Fault) => remount(alloc, config, session, cache),
    }
}

/// Serves a command that is no arm on a mounted device.
fn serve_mounted<F: Power + Wide, R: CommitRule>(
    alloc: Global,
    config: Config,
    session: &mut Session<F, Device<F, R>>,
    cache: &mut PageCache,
    room: &mut [u8],
    command: &Command,
) -> Result<Reply, ServeError>
    requires mounted { is_mounted session.old ≡ true }
    requires rule { config.protocol ≡ R.protocol }
    requires fits { Fits F.state config cache.old.entries session.old }
    requires no_arm { is_arm command.now ≡ false }
    requires suits { Suits config.page_bytes command.now }
    requires room { length room.old ≡ config.page_bytes }
    requires size { cache.old.page_bytes ≡ config.page_bytes }
    ensures { Serves F.state config command.now session.old result session.new cache.old cache.new }
{
    if matches!(command, Command::StepAll) {
        return serve_step_all(alloc, config, session, cache);
    }
    let Session::Mounted(device) = session else {
        unreachable!();
    };
    let Ok(reply) = execute(alloc, device, cache, room, command) else {
        return Err(ServeError::Memory);
    };
    remount_if_cut(alloc, config, session, cache, reply)
}

/// Serves a command that is no arm where the device is to be mounted first.
fn serve_unmounted<F: Power + Wide, R: CommitRule>(
    alloc: Global,
    config: Config,
    session: &mut Session<F, Device<F, R>>,
    cache: &mut PageCache,
    room: &mut [u8],
    command: &Command,
) -> Result<Reply, ServeError>
    requires unmounted { is_mounted session.old ≡ false }
    requires rule { config.protocol ≡ R.protocol }
    requires fits { Fits F.state config cache.old.entries session.old }
    requires no_arm { is_arm command.now ≡ false }
    requires suits { Suits config.page_bytes command.now }
    requires room { length room.old ≡ config.page_bytes }
    requires size { cache.old.page_bytes ≡ config.page_bytes }
    ensures { Serves F.state config command.now session.old result session.new cache.old cache.new }
{
    mount_again(alloc, config, session, cache)?;
    if session.is_mounted() {
        serve_mounted(alloc, config, session, cache, room, command)
    } else if session.live() {
        Ok(Reply::Fault)
    } else {
        Ok(Reply::Cut)
    }
}

/// Serves a command. The session is changed in place: only a mount takes its device apart.
pub fn serve_one<F: Power + Arms + Wide, R: CommitRule>(
    alloc: Global,
    config: Config,
    session: &mut Session<F, Device<F, R>>,
    cache: &mut PageCache,
    room: &mut [u8],
    command: &Command,
) -> Result<Reply, ServeError>
    requires rule { config.protocol ≡ R.protocol }
    requires fits { Fits F.state config cache.old.entries session.old }
    requires suits { Suits config.page_bytes command.now }
    requires room { length room.old ≡ config.page_bytes }
    requires size { cache.old.page_bytes ≡ config.page_bytes }
    ensures { Serves F.state config command.now session.old result session.new cache.old cache.new }
{
    match command {
        Command::Cut { count, outcome } => {
            arm_cut(session, *count, *outcome);
            Ok(Reply::Armed)
        }
        Command::Fault { count, outcome } => {
            arm_fault(session, *count, *outcome);
            Ok(Reply::Armed)
        }
        Command::BadRead { count } => {
            arm_bad_read(session, *count);
            Ok(Reply::Armed)
        }
        _ if session.is_mounted() => serve_mounted(alloc, config, session, cache, room, command),
        _ => serve_unmounted(alloc, config, session, cache, room, command),
    }
}

/// Serves the commands in order, and tells each reply at the end of its command.
fn serve_all<F: Power + Arms + Wide, R: CommitRule, W: Watch<F>>(
    alloc: Global,
    server: &mut Server<F, R>,
    list: &[Command],
    out: &mut W,
) -> Result<(), ServeError>
    requires { All (Suits server.old.config.page_bytes) list.now }
    ensures serves { (init : FlashState) →
        IsServed F.state server.old.config init [] [] [] server.old.session →
        ServesSound server.old.config list.now init (F.state (flash_in server.new.session))
        (record { text = W.text out.old; kept = W.kept out.old; flashes = W.flashes out.old })
        (record { text = W.text out.new; kept = W.kept out.new; flashes = W.flashes out.new }) result }
    ensures refuses { (init : FlashState) →
        IsSoundOrSame server.old.config init (F.state (flash_in server.old.session)) →
        RefusesUnsound server.old.config init (F.state (flash_in server.new.session)) result }
    ensures unsound { (init : FlashState) → (IsSoundFlash server.old.config init → ⊥) →
        BeginsFlash server.old.config init false (F.state (flash_in server.old.session)) →
        moment_of (F.state (flash_in server.old.session)) ≡ moment_of init →
        CountsBreaks [] init (F.state (flash_in server.old.session)) →
        ServesUnsound server.old.config list.now init (F.state (flash_in server.new.session))
        (record { text = W.text out.old; kept = W.kept out.old; flashes = W.flashes out.old })
        (record { text = W.text out.new; kept = W.kept out.new; flashes = W.flashes out.new }) result }
    ensures config { server.new.config ≡ server.old.config }
    ensures extras { (F.state (flash_in server.new.session)).extras
        ≡ (F.state (flash_in server.old.session)).extras }
{
    for command in list {
        match server.answer_next(alloc, command) {
            Ok(reply) => {
                if out.tell(server.flash(), &reply).is_err() {
                    return Err(ServeError::Memory);
                }
            }
            Err(why) => return Err(why),
        }
    }
    Ok(())
}

/// Serves the commands in order on the device of a flash, and tells each reply at the end of its
/// command. A flash with power is mounted first.
///
/// The check of the configuration gives the shape of the flash, and its protocol is that of `R`.
/// Each batch that is written has pages of `page_bytes`, and each arm counts from 1.
///
/// - Cuts: the reply of a command is `Cut` exactly where power goes off in its calls. Before this is
///   told power is turned on and the device is mounted again. A fault in that mount leaves the
///   flash unmounted. All open transactions are gone.
/// - Faults: where a call of a command meets a fault and power stays on, its reply is `Fault`, and
///   the device goes on. Where this is a command by which several transactions go on at once, its
///   reply is `Dropped`, all open transactions are gone, and the device is mounted again as after a
///   cut. No other reply comes of calls that meet a fault. Of those of mounts, one before the first
///   command and one after `Cut` or `Dropped` are not told.
/// - Mounts: a flash that is live and tells that no break is to come is mounted before the first
///   command. Where a mount meets a fault, the flash stays unmounted. Each command after that, other
///   than an arm, turns power on and mounts first. Where that mount meets a fault, the command is
///   not done, and its reply is `Fault`, or `Cut` where power is off.
/// - Cache (said by the calls inside, and by no clause here): a page that was read is kept, unless
///   memory ran out, and is read again without the flash while it is held and current. Each mount
///   begins with an empty cache.
/// - `Unsound` comes only from a mount before the first one that succeeded. The flash then comes
///   back with its image and its counts of programs and erases. Nothing was told before but `Armed`,
///   `Fault` and `Cut`.
/// - `Memory` ends the run before a command, in it, or where its reply is to be told. The replies
///   before it were told.
/// - Flushes: there are none. Where programs wait (`Cached`), a reply is told before they are durable:
///   such a flash is served by a `Server`.
pub fn serve<F: Power + Arms + Wide, R: CommitRule, W: Watch<F>>(
    alloc: Global,
    flash: F,
    config: Config,
    list: &[Command],
    out: &mut W,
) -> (F, Result<(), ServeError>)
    requires check { checked config ≡ Ok (F.state flash).shape }
    requires rule { config.protocol ≡ R.protocol }
    requires suits { All (Suits config.page_bytes) list.now }
    ensures steady { IsSteady (F.state flash) →
        OnOk result.1 (IsSoundFlash config (F.state flash)) }
    ensures serves { IsSoundFlash config (F.state flash) →
        ServesSound config list.now (F.state flash) (F.state result.0)
        (record { text = W.text out.old; kept = W.kept out.old; flashes = W.flashes out.old })
        (record { text = W.text out.new; kept = W.kept out.new; flashes = W.flashes out.new }) result.1 }
    ensures refuses { RefusesUnsound config (F.state flash) (F.state result.0) result.1 }
    ensures unsound { (IsSoundFlash config (F.state flash) → ⊥) →
        ServesUnsound config list.now (F.state flash) (F.state result.0)
        (record { text = W.text out.old; kept = W.kept out.old; flashes = W.flashes out.old })
        (record { text = W.text out.new; kept = W.kept out.new; flashes = W.flashes out.new }) result.1 }
    ensures shape { (F.state result.0).shape ≡ (F.state flash).shape }
    ensures extras { (F.state result.0).extras ≡ (F.state flash).extras }
{
    match Server::<F, R>::open(alloc, flash, config) {
        Ok(mut server) => {
            let outcome = serve_all::<F, R, W>(alloc, &mut server, list, out);
            (server.close(), outcome)
        }
        Err((flash, why)) => (flash, Err(why)),
    }
}

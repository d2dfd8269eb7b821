ghost use Rattle.std.specs.Prelude.{◌≡◌, ◌↔◌, IsTrue, Ok, IfOk, IfErr};
ghost use Rattle.image_file.specs.Spelling.{Spells};
ghost use Rattle.live_session.specs.Closing.{ClosesFlash, IsStoppedBy, PutsImage};
ghost use Rattle.live_session.specs.Endings.{ending_of};
ghost use Rattle.live_session.specs.Faults.{FaultsClosing, FaultsSession, WhereFailed};
ghost use Rattle.live_session.specs.Hearing.{HearsAndCloses, StopsAndCloses, WhereClosed, WhereStopped};
ghost use Rattle.live_session.specs.LineDesk.{BothTell};
ghost use Rattle.live_session.specs.Saying.{IsClosed, IsLeft, SaidDurably, SpellsWhereClosed};
ghost use Rattle.live_session.specs.Sessions.{ending_after, ending_unmounted};
ghost use Rattle.live_session.specs.Talks.{IsSession, IsStoppedOrNone, IsUnsound};

use crate::LineDesk;
use crate::answering::{Rooms, Stop, answer_lines};
use crate::ending::Ending;
use bpcc_commit::Bpcc;
use cut_replay::{ServeError, Server};
use file_flash::Store;
use flash_model::{Cached, NotDurable};
use live_flash::LiveFlash;
use program_base::ImageRefusal;
use record_list::{Breach, CommitRule};
use scc_commit::Scc;
use std::alloc::Global;
use tx_types::{Config, Protocol};

/// Serves the lines of the input on a flash, and closes its file.
pub fn serve_flash<S: Store + Drop, D: LineDesk<S, LiveFlash<S>>>(
    alloc: Global,
    desk: &mut D,
    flash: LiveFlash<S>,
) -> Ending<'static>
    ensures durable { SaidDurably (D.state desk.old) → SaidDurably (D.state desk.new) }
    ensures closed { SpellsWhereClosed (ending_of result) (D.state desk.new) }
    ensures session { WhereClosed
        (λ good. BothTell (IsSession flash good) (D.state desk.old).told (D.state desk.new).told)
        (ending_of result) }
    ensures stops { WhereStopped
        (λ breach. BothTell (IsUnsound flash breach) (D.state desk.old).told (D.state desk.new).told)
        (BothTell (IsStoppedOrNone IsClosed flash) (D.state desk.old).told (D.state desk.new).told)
        (BothTell (IsStoppedOrNone IsLeft flash) (D.state desk.old).told (D.state desk.new).told)
        (ending_of result) }
    ensures fault { WhereFailed (FaultsSession flash (D.state desk.old) (D.state desk.new))
        ((D.state desk.new).faults ≡ (D.state desk.old).faults) (ending_of result) }
{
    match flash.config().protocol {
        Protocol::Scc => serve_by::<S, D, Scc>(alloc, desk, flash),
        Protocol::Bpcc => serve_by::<S, D, Bpcc>(alloc, desk, flash),
    }
}

/// The same, under a rule.
fn serve_by<S: Store + Drop, D: LineDesk<S, LiveFlash<S>>, R: CommitRule>(
    alloc: Global,
    desk: &mut D,
    flash: LiveFlash<S>,
) -> Ending<'static>
    requires rule { flash.config.protocol ≡ R.protocol }
    ensures durable { SaidDurably (D.state desk.old) → SaidDurably (D.state desk.new) }
    ensures closed { SpellsWhereClosed (ending_of result) (D.state desk.new) }
    ensures session { WhereClosed
        (λ good. BothTell (IsSession flash good) (D.state desk.old).told (D.state desk.new).told)
        (ending_of result) }
    ensures stops { WhereStopped
        (λ breach. BothTell (IsUnsound flash breach) (D.state desk.old).told (D.state desk.new).told)
        (BothTell (IsStoppedOrNone IsClosed flash) (D.state desk.old).told (D.state desk.new).told)
        (BothTell (IsStoppedOrNone IsLeft flash) (D.state desk.old).told (D.state desk.new).told)
        (ending_of result) }
    ensures fault { WhereFailed (FaultsSession flash (D.state desk.old) (D.state desk.new))
        ((D.state desk.new).faults ≡ (D.state desk.old).faults) (ending_of result) }
{
    let config = flash.config();
    match Server::<LiveFlash<S>, R>::open(alloc, flash, config) {
        Ok(server) => serve_lines(alloc, desk, server),
        Err((flash, why)) => {
            let (closed, _) = close_flash(alloc, desk, flash);
            not_mounted(why, closed)
        }
    }
}

/// Answers the lines of the input, and closes the file, whatever ends them.
fn serve_lines<S: Store + Drop, D: LineDesk<S, LiveFlash<S>>, R: CommitRule>(
    alloc: Global,
    desk: &mut D,
    server: Server<LiveFlash<S>, R>,
) -> Ending<'static>
    ensures durable { SaidDurably (D.state desk.old) → SaidDurably (D.state desk.new) }
    ensures closed { SpellsWhereClosed (ending_of result) (D.state desk.new) }
    ensures session { WhereClosed
        (λ good. BothTell (HearsAndCloses server.config good server.session)
        (D.state desk.old).told (D.state desk.new).told)
        (ending_of result) }
    ensures stops { WhereStopped (λ breach. ⊥)
        (BothTell (StopsAndCloses IsClosed server.config server.session)
        (D.state desk.old).told (D.state desk.new).told)
        (BothTell (StopsAndCloses IsLeft server.config server.session)
        (D.state desk.old).told (D.state desk.new).told)
        (ending_of result) }
    ensures fault { WhereFailed
        (FaultsClosing server.config (D.state desk.old) (D.state desk.new) server.session)
        ((D.state desk.new).faults ≡ (D.state desk.old).faults) (ending_of result) }
{
    let mut server = server;
    let config = server.config();
    let mut rooms = Rooms::new(alloc);
    let answered = answer_lines(alloc, desk, &mut server, &mut rooms);
    drop(rooms);
    let flash = server.close();
    let (closed, left) = close_flash(alloc, desk, flash);
    ending_of(answered, closed, is_same(left, config))
}

/// Makes a flash durable, puts its image file in the place of its live file, and closes that; and the configuration
/// with which it is left. A session comes to this whatever ends it, also where nobody listens any more: so a client
/// that dies leaves an image file. A live file is left by a session that is killed, whose file fails, or that has no
/// memory for the image file.
fn close_flash<S: Store + Drop, D: LineDesk<S, LiveFlash<S>>>(
    alloc: Global,
    desk: &mut D,
    flash: LiveFlash<S>,
) -> (Result<(), Stop>, Config)
    ensures { ClosesFlash flash (D.state desk.old) (D.state desk.new) result.0 result.1 }
{
    let mut flash = flash;
    let flushed = flash.flush();
    let config = flash.config();
    // It tells what a loss leaves of the file, which is left so where there is no memory for the other one.
    let _ = flash.has_failed();
    match image_of(alloc, &flash, flushed) {
        Ok(bytes) => (put_image(desk, flash, bytes), config),
        Err(why) => {
            desk.release(flash);
            (Err(why), config)
        }
    }
}

/// The image file of a flash that was flushed.
fn image_of<S: Store + Drop>(
    alloc: Global,
    flash: &LiveFlash<S>,
    flushed: Result<(), NotDurable>,
) -> Result<Vec<u8>, Stop>
    ensures spells { IfOk result (λ bytes.
        Spells bytes.items flash.now.config flash.now.memory.image flash.now.memory.extras) }
    ensures flushed { IfOk result (λ _. flushed ≡ Ok tt) }
    ensures stops { IfErr result (IsStoppedBy flushed) }
{
    flushed?;
    Ok(flash.image_file(alloc)?)
}

/// Puts an image file in the place of the live file of a flash, and closes it.
fn put_image<S: Store + Drop, D: LineDesk<S, LiveFlash<S>>>(
    desk: &mut D,
    flash: LiveFlash<S>,
    bytes: Vec<u8>,
) -> Result<(), Stop>
    ensures { PutsImage flash bytes.items (D.state desk.old) (D.state desk.new) result }
{
    let closed = desk.close(flash, &bytes);
    drop(bytes);
    Ok(closed?)
}

/// Whether these configurations are the same.
fn is_same(left: Config, config: Config) -> bool
    ensures { IsTrue result ↔ (left ≡ config) }
{
    left == config
}

/// How a session ends: want of memory decides, and else a fault.
fn ending_of(
    answered: Result<bool, Stop>,
    closed: Result<(), Stop>,
    is_same: bool,
) -> Ending<'static>
    ensures { ending_of result ≡ ending_after answered closed is_same }
{
    match (answered, closed) {
        (Err(Stop::Memory), _) | (_, Err(Stop::Memory)) => Ending::Memory,
        (Err(Stop::Fault), _) => Ending::Fault,
        (Ok(_), Err(Stop::Fault)) => Ending::Fault,
        // No session comes to another configuration.
        (Ok(_), Ok(())) if !is_same => Ending::Fault,
        (Ok(true), Ok(())) => Ending::Closed,
        (Ok(false), Ok(())) => Ending::BadLine,
    }
}

/// How a session ends whose flash was not mounted, and was closed.
fn not_mounted(why: ServeError, closed: Result<(), Stop>) -> Ending<'static>
    ensures { ending_of result ≡ ending_unmounted why closed }
{
    match (why, closed) {
        (ServeError::Memory, _) | (_, Err(Stop::Memory)) => Ending::Memory,
        (ServeError::Unsound { law, slot }, _) => Ending::Refused(ImageRefusal::Unsound(Breach {
            law,
            slot,
        })),
    }
}

//! Sessions of a device on a flash that is a file, each command of which is made durable before its reply is said.
ghost use Rattle.std.specs.Prelude.{◌≡◌, IsTrue, Ok};
ghost use Rattle.tx_types.specs.Config.{checked};
ghost use Rattle.host_protocol.specs.Commands.{Suits};

use crate::sessions::ledger::{Array, Ledger};
use cut_replay::Server;
use flash_model::Flash;
use host_protocol::{Command, Reply, parse, reply_text};
use live_flash::LiveFlash;
use lossy_store::LossyStore;
use record_list::CommitRule;
use std::alloc::Global;
use tx_types::Config;

/// Whether a flash has the shape of a configuration, whose protocol is that of the rule.
pub fn is_fit<F: Flash, R: CommitRule>(flash: &F, config: Config) -> bool
    ensures check { IsTrue result → checked config ≡ Ok (F.state flash.now).shape }
    ensures rule { IsTrue result → config.protocol ≡ R.protocol }
{
    config.check() == Ok(flash.shape()) && config.protocol == R::protocol()
}

/// The reply to a command, once all that was done is durable.
fn answer<R: CommitRule>(
    alloc: Global,
    server: &mut Server<LiveFlash<LossyStore>, R>,
    command: &Command,
) -> Option<Reply>
    requires { Suits server.old.config.page_bytes command.now }
{
    match server.serve_next(alloc, command) {
        Ok(unflushed) => server.flush(unflushed).ok(),
        Err(_) => None,
    }
}

/// The reply to the command of a line, if it may be said.
fn answer_line<R: CommitRule>(
    alloc: Global,
    server: &mut Server<LiveFlash<LossyStore>, R>,
    line: &str,
) -> Option<Reply> {
    let page_bytes = server.config().page_bytes;
    if line.len() > 1000 {
        return None;
    }
    match parse(alloc, line.as_bytes(), page_bytes) {
        Ok(commands) => match commands.first() {
            Some(command) => answer(alloc, server, command),
            None => None,
        },
        Err(_) => None,
    }
}

/// Whether a reply is said so.
fn is_said(alloc: Global, reply: &Reply, wanted: &str) -> bool {
    let mut text = Vec::new(alloc);
    reply_text(alloc, reply, &mut text).is_ok()
        && text.as_slice().strip_suffix(b"\n") == Some(wanted.as_bytes())
}

/// Whether the command of a line is answered so; none where no reply may be said.
fn is_answered<R: CommitRule>(
    alloc: Global,
    server: &mut Server<LiveFlash<LossyStore>, R>,
    line: &str,
    wanted: &str,
) -> Option<bool> {
    match answer_line(alloc, server, line) {
        Some(reply) => {
            let is_right = is_said(alloc, &reply, wanted);
            drop(reply);
            Some(is_right)
        }
        None => None,
    }
}

/// What a page begins with by the reply to its read, if nothing but zeros stands behind it, and 0 where it is blank.
fn byte_in(reply: &Reply) -> Option<u8> {
    match reply {
        Reply::Blank(_) => Some(0),
        Reply::Page(_, bytes) => first_of(bytes.as_slice()),
        _ => None,
    }
}

/// What a page begins with, if nothing but zeros stands behind it.
fn first_of(bytes: &[u8]) -> Option<u8> {
    let (first, rest) = bytes.split_first()?;
    if rest == [0; 15].as_slice() {
        Some(*first)
    } else {
        None
    }
}

/// What a page begins with.
fn read_page<R: CommitRule>(
    alloc: Global,
    server: &mut Server<LiveFlash<LossyStore>, R>,
    line: &str,
) -> Option<u8> {
    match answer_line(alloc, server, line) {
        Some(reply) => {
            let byte = byte_in(&reply);
            drop(reply);
            byte
        }
        None => None,
    }
}

/// The array of a device.
pub fn read_array<R: CommitRule>(
    alloc: Global,
    server: &mut Server<LiveFlash<LossyStore>, R>,
) -> Option<Array> {
    let first = read_page(alloc, server, "read 0")?;
    let second = read_page(alloc, server, "read 1")?;
    let third = read_page(alloc, server, "read 2")?;
    Some(Array {
        bytes: [first, second, third],
    })
}

/// Whether the file has failed, and nothing is said any more.
fn is_over<R: CommitRule>(alloc: Global, server: &mut Server<LiveFlash<LossyStore>, R>) -> bool {
    server.flash().has_failed() && read_array(alloc, server).is_none()
}

/// Serves a session, each line of which has a command and its reply, up to a command that is not answered.
pub fn serve<R: CommitRule>(
    alloc: Global,
    server: &mut Server<LiveFlash<LossyStore>, R>,
    ledger: &mut Ledger,
    session: &str,
) -> bool {
    for line in session.split("; ") {
        let (command, reply) = line.split_once(" > ").unwrap_or((line, ""));
        match is_answered(alloc, server, command, reply) {
            Some(is_right) => {
                if !is_right || !ledger.note(command, reply) {
                    return false;
                }
            }
            None => return ledger.break_off(command) && is_over(alloc, server),
        }
    }
    true
}

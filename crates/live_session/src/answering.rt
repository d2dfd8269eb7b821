ghost use Rattle.std.specs.Prelude.{◌≡◌, ◌≢◌, ◌≤◌, length, string_bytes, IfOk, IfErr, OnOk, OnErr};
ghost use Rattle.desk_io.specs.Desk.{counted};
ghost use Rattle.host_protocol.specs.Commands.{Suits};
ghost use Rattle.host_protocol.specs.Lines.{HasNoFeed};
ghost use Rattle.live_session.specs.Faults.{FaultsCommand, FaultsLines, WhereFault};
ghost use Rattle.live_session.specs.Hearing.{AnswersCommand, AnswersLine, AnswersPiece, HearsAll, HearsPartOrNone};
ghost use Rattle.live_session.specs.Hearing.{StopsCommand, StopsLine, StopsPiece, StopsSaying};
ghost use Rattle.live_session.specs.LineDesk.{BothTell, after, with_saying};
ghost use Rattle.live_session.specs.Saying.{SaidDurably, HasNoInput};
ghost use Rattle.live_session.specs.Sessions.{stop_of_call, stop_of_serving};
ghost use Rattle.live_session.specs.Talks.{bad_line, plain};
ghost use Rattle.live_session.specs.declared.answering.Stop.TheVariants as stop;
ghost use Rattle.live_session.specs.declared.desk.Next.TheVariants as next;
ghost use Rattle.live_session.specs.declared.lines.TheConstants.{MAX_LINE_BYTES};

use crate::{CallError, LineDesk, Next};
use cut_replay::{NextError, ServeError, Server};
use file_flash::Store;
use flash_model::NotDurable;
use host_protocol::{Command, TextError, parse_line, reply_text};
use live_flash::LiveFlash;
use record_list::CommitRule;
use std::alloc::{AllocError, Global};
use tx_types::Memory;

/// Why a session stops before the end of its input.
#[derive(Clone, Copy)]
pub enum Stop {
    /// A call of the desk or of the file failed.
    Fault,
    /// There was no memory.
    Memory,
}

impl From<CallError> for Stop {
    ghost from_gives = { λ why e. e ≡ stop_of_call why };

    fn from(error: CallError) -> Self {
        match error {
            CallError::Failed => Stop::Fault,
            CallError::Memory => Stop::Memory,
        }
    }
}

impl From<NextError> for Stop {
    ghost from_gives = { λ why e. e ≡ stop_of_serving why };

    fn from(error: NextError) -> Self {
        match error {
            NextError::NotDurable => Stop::Fault,
            // A flash that was mounted is sound, so no session comes to this.
            NextError::Ended(ServeError::Unsound { .. }) => Stop::Fault,
            NextError::Ended(ServeError::Memory) => Stop::Memory,
        }
    }
}

impl From<NotDurable> for Stop {
    ghost from_gives = { λ _ e. e ≡ stop.Fault };

    fn from(_: NotDurable) -> Self {
        Stop::Fault
    }
}

impl From<Memory> for Stop {
    ghost from_gives = { λ _ e. e ≡ stop.Memory };

    fn from(_: Memory) -> Self {
        Stop::Memory
    }
}

impl From<AllocError> for Stop {
    ghost from_gives = { λ _ e. e ≡ stop.Memory };

    fn from(_: AllocError) -> Self {
        Stop::Memory
    }
}

/// Room that a session keeps from line to line.
#[derive(Drop)]
pub struct Rooms {
    /// For the bytes of a page.
    page: Vec<u8>,
    /// For the text of a reply.
    reply: Vec<u8>,
}

impl Rooms {
    /// Without any memory.
    pub fn new(alloc: Global) -> Rooms {
        Rooms {
            page: Vec::new(alloc),
            reply: Vec::new(alloc),
        }
    }
}

/// Says that the session begins, and answers the lines of the input to its end. The answer is whether none was bad.
pub fn answer_lines<S: Store + Drop, D: LineDesk<S, LiveFlash<S>>, R: CommitRule>(
    alloc: Global,
    desk: &mut D,
    server: &mut Server<LiveFlash<S>, R>,
    rooms: &mut Rooms,
) -> Result<bool, Stop>
    ensures durable { SaidDurably (D.state desk.old) → SaidDurably (D.state desk.new) }
    ensures ended { OnOk result (HasNoInput (D.state desk.new)) }
    ensures hears { IfOk result (λ good. BothTell
        (HearsAll server.old.config good server.old.session server.new.session)
        (D.state desk.old).told (D.state desk.new).told) }
    ensures stops { OnErr result (BothTell (HearsPartOrNone server.old.config server.old.session server.new.session)
        (D.state desk.old).told (D.state desk.new).told) }
    ensures fault { IfErr result (WhereFault (FaultsLines server.old.config
        (D.state desk.old) (D.state desk.new) server.old.session server.new.session)) }
{
    if !server.is_mounted() {
        return Err(Stop::Fault);
    }
    desk.say(b"serving\n")?;
    let mut line = Vec::new(alloc);
    let mut are_good = true;
    for number in 1..u64::MAX {
        let next = desk.next_line(&mut line)?;
        if next == Next::End {
            return Ok(are_good);
        }
        let is_good = answer_piece(alloc, desk, server, rooms, next, &line, number)?;
        are_good = is_good && are_good;
    }
    // No machine comes to this line.
    Err(Stop::Memory)
}

/// Answers what came next of the input, or says that the line of this number is bad. The answer is whether it is good.
fn answer_piece<S: Store + Drop, D: LineDesk<S, LiveFlash<S>>, R: CommitRule>(
    alloc: Global,
    desk: &mut D,
    server: &mut Server<LiveFlash<S>, R>,
    rooms: &mut Rooms,
    next: Next,
    line: &[u8],
    number: u64,
) -> Result<bool, Stop>
    requires { HasNoFeed line.now }
    ensures durable { SaidDurably (D.state desk.old) → SaidDurably (D.state desk.new) }
    ensures config { OnOk result (server.new.config ≡ server.old.config) }
    ensures answers { IfOk result (λ good. AnswersPiece server.old.config next line.now number good
        (D.state desk.old).told server.old.session (D.state desk.new).told server.new.session) }
    ensures stops { OnErr result (StopsPiece server.old.config next line.now number
        (D.state desk.old).told server.old.session (D.state desk.new).told server.new.session) }
    ensures calm { OnOk result ((D.state desk.new).faults ≡ (D.state desk.old).faults) }
    ensures fault { IfErr result (WhereFault (FaultsCommand server.old.config
        (D.state desk.old) (D.state desk.new) server.old.session server.new.session)) }
{
    if next == Next::Line && answer_line(alloc, desk, server, rooms, line)? {
        return Ok(true);
    }
    say_bad_line(alloc, desk, number)?;
    Ok(false)
}

/// Does what a line asks for, and answers it, if it asks for anything. The answer is whether the line is good.
fn answer_line<S: Store + Drop, D: LineDesk<S, LiveFlash<S>>, R: CommitRule>(
    alloc: Global,
    desk: &mut D,
    server: &mut Server<LiveFlash<S>, R>,
    rooms: &mut Rooms,
    line: &[u8],
) -> Result<bool, Stop>
    requires { HasNoFeed line.now }
    ensures durable { SaidDurably (D.state desk.old) → SaidDurably (D.state desk.new) }
    ensures config { OnOk result (server.new.config ≡ server.old.config) }
    ensures answers { IfOk result (λ good. AnswersLine server.old.config line.now good
        (D.state desk.old).told server.old.session (D.state desk.new).told server.new.session) }
    ensures stops { OnErr result (StopsLine server.old.config line.now
        (D.state desk.old).told server.old.session (D.state desk.new).told server.new.session) }
    ensures calm { OnOk result ((D.state desk.new).faults ≡ (D.state desk.old).faults) }
    ensures fault { IfErr result (WhereFault (FaultsCommand server.old.config
        (D.state desk.old) (D.state desk.new) server.old.session server.new.session)) }
{
    let page_bytes = server.config().page_bytes;
    match parse_line(alloc, line, page_bytes, &mut rooms.page) {
        Ok(None) => Ok(true),
        Ok(Some(command)) => {
            let answered = answer_command(alloc, desk, server, &mut rooms.reply, &command);
            drop(command);
            answered?;
            Ok(true)
        }
        Err(TextError::Line(_)) => Ok(false),
        Err(TextError::Memory) => Err(Stop::Memory),
    }
}

/// Does a command, makes durable what was done, and says its reply, for whose text there is room.
fn answer_command<S: Store + Drop, D: LineDesk<S, LiveFlash<S>>, R: CommitRule>(
    alloc: Global,
    desk: &mut D,
    server: &mut Server<LiveFlash<S>, R>,
    text: &mut Vec<u8>,
    command: &Command,
) -> Result<(), Stop>
    requires { Suits server.old.config.page_bytes command.now }
    ensures durable { SaidDurably (D.state desk.old) → SaidDurably (D.state desk.new) }
    ensures config { OnOk result (server.new.config ≡ server.old.config) }
    ensures answers { OnOk result (AnswersCommand server.old.config command.now
        (D.state desk.old).told server.old.session (D.state desk.new).told server.new.session) }
    ensures stops { OnErr result (StopsCommand server.old.config command.now
        (D.state desk.old).told server.old.session (D.state desk.new).told server.new.session) }
    ensures calm { OnOk result ((D.state desk.new).faults ≡ (D.state desk.old).faults) }
    ensures fault { IfErr result (WhereFault (FaultsCommand server.old.config
        (D.state desk.old) (D.state desk.new) server.old.session server.new.session)) }
{
    let unflushed = server.serve_next(alloc, command)?;
    let reply = server.flush(unflushed)?;
    text.clear();
    reply_text(alloc, &reply, text)?;
    let flash = server.flash();
    // It tells what a loss leaves of the file, which the desk may rest on.
    let _ = flash.has_failed();
    desk.answer(flash, text)?;
    Ok(())
}

/// Says that the line of this number is bad.
fn say_bad_line<S: Store + Drop, D: LineDesk<S, LiveFlash<S>>>(
    alloc: Global,
    desk: &mut D,
    number: u64,
) -> Result<(), Stop>
    ensures durable { SaidDurably (D.state desk.old) → SaidDurably (D.state desk.new) }
    ensures says { OnOk result (D.state desk.new ≡ after (with_saying (plain (bad_line number))) (D.state desk.old)) }
    ensures stops { OnErr result (StopsSaying (plain (bad_line number))
        (D.state desk.old).told (D.state desk.new).told) }
    ensures fault { IfErr result (WhereFault
        ((D.state desk.new).faults ≡ counted (D.state desk.old).faults)) }
{
    let line = bad_line(alloc, number)?;
    desk.say(line.as_bytes())?;
    Ok(())
}

/// What is said of a bad line with this number.
fn bad_line(alloc: Global, number: u64) -> Result<String, AllocError>
    ensures { IfOk result (λ line. string_bytes line ≡ bad_line number) }
{
    format!(in alloc; "bad line {number}\n")
}

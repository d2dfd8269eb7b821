ghost use Rattle.std.specs.Prelude.{◌≡◌, ◌<◌, ◌++◌, ◌∷◌, [], ℕ, List, Ok, Err, All, true, false, length, IfOk, IfErr, OnOk};
ghost use Rattle.tx_types.specs.Config.{IsConfig, checked, shape_of};
ghost use Rattle.mem_flash.specs.MemFlashState.{MemFlashState, loaded, state_of};
ghost use Rattle.host_protocol.specs.Commands.{Suits};
ghost use Rattle.host_protocol.specs.declared.command.Command.{Command};
ghost use Rattle.cut_replay.specs.Served.{RefusesUnsound};
ghost use Rattle.cut_replay.specs.Sessions.{IsSoundOrSame, flash_in};
ghost use Rattle.cut_replay.specs.declared.serving.ServeError.TheVariants as unserved;
ghost use Rattle.drive_gen.specs.Counting.{HasCounted};
ghost use Rattle.drive_gen.specs.Parts.{left_of, parts_left};
ghost use Rattle.drive_gen.specs.Summary.{summary_line};
ghost use Rattle.drive_gen.specs.Work.{generated};
ghost use Rattle.desk_tasks.specs.Driving.{HasRunCounted, IsSummaryOfRun};
ghost use Rattle.desk_tasks.specs.FileServing.{HasRun};
ghost use Rattle.desk_tasks.specs.Runs.{blank_image, default_config};
ghost use Rattle.desk_tasks.specs.Stops.{RefusesDevice, StopsBy};

use crate::devices::{blank_flash, default_config};
use crate::output::Failure;
use bpcc_commit::Bpcc;
use cut_replay::{ServeError, Server};
use drive_gen::{RunningTally, Work};
use host_protocol::Command;
use mem_flash::MemFlash;
use record_list::CommitRule;
use scc_commit::Scc;
use std::alloc::Global;
use tx_types::{Config, Memory, Protocol};

/// Serves the commands that a number gives on a fresh device, each part before the next one is drawn, and answers the
/// line that sums up the replies.
pub fn drive_fresh(
    alloc: Global,
    start: u64,
    count: u32,
    protocol: Protocol,
) -> Result<Vec<u8>, Failure<'static>>
    ensures ok { let its = default_config protocol in
        IfOk result (λ line. IsSummaryOfRun its (blank_image its) start count line.items) }
    ensures err { IfErr result (λ e. e ≡ Failure.Memory) }
{
    let config = default_config(protocol);
    let blank = blank_flash(alloc, config)?;
    drive_flash(alloc, start, count, config, blank)
}

/// The same on the device of a flash.
fn drive_flash(
    alloc: Global,
    start: u64,
    count: u32,
    config: Config,
    flash: MemFlash,
) -> Result<Vec<u8>, Failure<'static>>
    requires check { checked config ≡ Ok (shape_of config) }
    requires ready { flash ≡ loaded (shape_of config) flash.image flash.extras }
    ensures ok { IfOk result (λ line. IsSummaryOfRun config flash.image start count line.items) }
    ensures err { IfErr result (StopsBy (RefusesDevice config flash.image)) }
{
    match config.protocol {
        Protocol::Scc => drive_by::<Scc>(alloc, start, count, config, flash),
        Protocol::Bpcc => drive_by::<Bpcc>(alloc, start, count, config, flash),
    }
}

/// The same under a rule.
fn drive_by<R: CommitRule>(
    alloc: Global,
    start: u64,
    count: u32,
    config: Config,
    flash: MemFlash,
) -> Result<Vec<u8>, Failure<'static>>
    requires check { checked config ≡ Ok (shape_of config) }
    requires rule { config.protocol ≡ R.protocol }
    requires ready { flash ≡ loaded (shape_of config) flash.image flash.extras }
    ensures ok { IfOk result (λ line. IsSummaryOfRun config flash.image start count line.items) }
    ensures err { IfErr result (StopsBy (RefusesDevice config flash.image)) }
{
    match Server::<MemFlash, R>::open(alloc, flash, config) {
        Ok(mut server) => {
            let driven = drive_server::<R>(alloc, start, count, config, &mut server);
            drop(server);
            match driven {
                Ok(line) => Ok(line),
                Err(why) => Err(Failure::from(why)),
            }
        }
        Err((flash, why)) => {
            drop(flash);
            Err(Failure::from(why))
        }
    }
}

/// Serves the commands on a server, and answers the line.
fn drive_server<R: CommitRule>(
    alloc: Global,
    start: u64,
    count: u32,
    config: Config,
    server: &mut Server<MemFlash, R>,
) -> Result<Vec<u8>, ServeError>
    requires check { checked config ≡ Ok (shape_of config) }
    requires config { server.old.config ≡ config }
    ensures runs { (flash : MemFlashState) → HasRun config flash [] server.old.session [] →
        IfOk result (λ line. (text : List ℕ)
        × HasRun config flash (generated start count config) server.new.session text
        × (line.items
        ≡ summary_line start count config.protocol (length (generated start count config)) text)) }
    ensures refuses { (flash : MemFlashState) →
        IsSoundOrSame config (state_of flash) (state_of (flash_in server.old.session)) →
        IfErr result (λ why. RefusesUnsound config (state_of flash)
        (state_of (flash_in server.new.session)) (Err why)) }
{
    let mut work = Work::new(start, count, config);
    let mut part = Vec::new(alloc);
    let mut tally = RunningTally::new(alloc);
    let line = drive_line::<R>(
        alloc, start, count, server, &mut work, &mut part, &mut tally,
    );
    drop(work);
    drop(part);
    drop(tally);
    line
}

/// Serves all commands that are left to work, and answers the line.
fn drive_line<R: CommitRule>(
    alloc: Global,
    start: u64,
    count: u32,
    server: &mut Server<MemFlash, R>,
    work: &mut Work,
    part: &mut Vec<Command>,
    tally: &mut RunningTally,
) -> Result<Vec<u8>, ServeError>
    requires check { IsConfig work.old.config }
    requires suits { All (Suits server.old.config.page_bytes) (left_of work.old) }
    ensures runs { (flash : MemFlashState) →
        HasRunCounted server.old.config flash [] server.old.session tally.old →
        IfOk result (λ line. (text : List ℕ)
        × HasRun server.old.config flash (left_of work.old) server.new.session text
        × (line.items ≡ summary_line start count server.old.config.protocol
        (length (left_of work.old)) text)) }
    ensures refuses { (flash : MemFlashState) →
        IsSoundOrSame server.old.config (state_of flash) (state_of (flash_in server.old.session)) →
        IfErr result (λ why. RefusesUnsound server.old.config (state_of flash)
        (state_of (flash_in server.new.session)) (Err why)) }
{
    let protocol = server.config().protocol;
    drive_all::<R>(alloc, server, work, part, tally)?;
    sum_up(alloc, start, count, protocol, tally)
}

/// The line that sums up what was counted.
fn sum_up(
    alloc: Global,
    start: u64,
    count: u32,
    protocol: Protocol,
    tally: &mut RunningTally,
) -> Result<Vec<u8>, ServeError>
    ensures ok { (text : List ℕ) → HasCounted text tally.old →
        IfOk result (λ line. line.items ≡ summary_line start count protocol tally.old.replies text) }
    ensures err { IfErr result (λ why. why ≡ unserved.Memory) }
{
    let mut line = Vec::new(alloc);
    match tally.add_summary(start, count, protocol, &mut line) {
        Ok(()) => Ok(line),
        Err(_) => Err(ServeError::Memory),
    }
}

/// Draws and serves all commands that are left, and counts the replies.
fn drive_all<R: CommitRule>(
    alloc: Global,
    server: &mut Server<MemFlash, R>,
    work: &mut Work,
    part: &mut Vec<Command>,
    tally: &mut RunningTally,
) -> Result<(), ServeError>
    requires check { IsConfig work.old.config }
    requires suits { All (Suits server.old.config.page_bytes) (left_of work.old) }
    ensures config { server.new.config ≡ server.old.config }
    ensures runs { (flash : MemFlashState) → (commands : List Command) →
        HasRunCounted server.old.config flash commands server.old.session tally.old →
        OnOk result (HasRunCounted server.old.config flash (commands ++ left_of work.old)
        server.new.session tally.new) }
    ensures refuses { (flash : MemFlashState) →
        IsSoundOrSame server.old.config (state_of flash) (state_of (flash_in server.old.session)) →
        RefusesUnsound server.old.config (state_of flash) (state_of (flash_in server.new.session)) result }
{
    while draw_part(alloc, work, part)? {
        serve_part::<R>(alloc, server, part.as_slice(), tally)?;
    }
    Ok(())
}

/// Draws the next part in the place of the one before, and answers whether there was one.
fn draw_part(alloc: Global, work: &mut Work, part: &mut Vec<Command>) -> Result<bool, ServeError>
    requires { IsConfig work.old.config }
    ensures gives { OnOk result (part.new.items ++ left_of work.new ≡ left_of work.old) }
    ensures last { IfOk result (λ more. more ≡ false → left_of work.old ≡ []) }
    ensures fewer { IfOk result (λ more. more ≡ true → parts_left work.new < parts_left work.old) }
    ensures config { work.new.config ≡ work.old.config }
    ensures err { IfErr result (λ why. why ≡ unserved.Memory) }
{
    part.clear();
    match work.add_next(alloc, part) {
        Ok(more) => Ok(more),
        Err(Memory) => Err(ServeError::Memory),
    }
}

/// Serves the commands of a part, and counts each reply.
fn serve_part<R: CommitRule>(
    alloc: Global,
    server: &mut Server<MemFlash, R>,
    part: &[Command],
    tally: &mut RunningTally,
) -> Result<(), ServeError>
    requires { All (Suits server.old.config.page_bytes) part.now }
    ensures config { server.new.config ≡ server.old.config }
    ensures runs { (flash : MemFlashState) → (commands : List Command) →
        HasRunCounted server.old.config flash commands server.old.session tally.old →
        OnOk result (HasRunCounted server.old.config flash (commands ++ part.now) server.new.session tally.new) }
    ensures refuses { (flash : MemFlashState) →
        IsSoundOrSame server.old.config (state_of flash) (state_of (flash_in server.old.session)) →
        RefusesUnsound server.old.config (state_of flash) (state_of (flash_in server.new.session)) result }
{
    for command in part {
        serve_counted::<R>(alloc, server, command, tally)?;
    }
    Ok(())
}

/// Serves a command, and counts its reply.
fn serve_counted<R: CommitRule>(
    alloc: Global,
    server: &mut Server<MemFlash, R>,
    command: &Command,
    tally: &mut RunningTally,
) -> Result<(), ServeError>
    requires { Suits server.old.config.page_bytes command.now }
    ensures config { server.new.config ≡ server.old.config }
    ensures runs { (flash : MemFlashState) → (commands : List Command) →
        HasRunCounted server.old.config flash commands server.old.session tally.old →
        OnOk result (HasRunCounted server.old.config flash (commands ++ command.now ∷ [])
        server.new.session tally.new) }
    ensures refuses { (flash : MemFlashState) →
        IsSoundOrSame server.old.config (state_of flash) (state_of (flash_in server.old.session)) →
        RefusesUnsound server.old.config (state_of flash) (state_of (flash_in server.new.session)) result }
{
    match server.answer_next(alloc, command) {
        Ok(reply) => {
            let counted = tally.count(&reply);
            drop(reply);
            match counted {
                Ok(()) => Ok(()),
                Err(_) => Err(ServeError::Memory),
            }
        }
        Err(why) => Err(why),
    }
}

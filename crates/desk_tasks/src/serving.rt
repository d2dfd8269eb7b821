ghost use Rattle.std.specs.Prelude.{◌≡◌, ◌≤◌, ◌++◌, ◌∷◌, [], ℕ, List, Ok, length, IfOk, IfErr, OnOk};
ghost use Rattle.tx_types.specs.Config.{checked, shape_of};
ghost use Rattle.tx_types.specs.declared.config.Config.{Config};
ghost use Rattle.mem_flash.specs.MemFlashState.{MemFlashState, loaded, state_of};
ghost use Rattle.host_protocol.specs.Commands.{Suits};
ghost use Rattle.host_protocol.specs.Files.{IsFile};
ghost use Rattle.host_protocol.specs.declared.command.Command.{Command};
ghost use Rattle.host_protocol.specs.declared.file.TheConstants.{MAX_FILE_BYTES};
ghost use Rattle.cut_replay.specs.Served.{RefusesUnsound};
ghost use Rattle.cut_replay.specs.Sessions.{IsSoundOrSame, flash_in};
ghost use Rattle.desk_tasks.specs.CommandReading.{length_of};
ghost use Rattle.desk_tasks.specs.FileServing.{HasRun, IsUnderway, RefusesFile, ServesFile};
ghost use Rattle.desk_tasks.specs.Runs.{IsRun};
ghost use Rattle.desk_tasks.specs.Stops.{StopsBy};

use crate::devices::ServedFlash;
use crate::output::Failure;
use crate::reading::CommandReader;
use bpcc_commit::Bpcc;
use cut_replay::{Lines, ServeError, Server, Watch};
use host_protocol::Command;
use mem_flash::MemFlash;
use record_list::CommitRule;
use scc_commit::Scc;
use std::alloc::Global;
use tx_types::{Config, Protocol};

/// Serves the commands of a file on the device of a flash, each before the next one is read.
pub fn serve_lines(
    alloc: Global,
    flash: MemFlash,
    config: Config,
    lines: &[u8],
) -> Result<ServedFlash, Failure<'static>>
    requires check { checked config ≡ Ok (shape_of config) }
    requires ready { flash ≡ loaded (shape_of config) flash.image flash.extras }
    requires length { length lines.now ≤ MAX_FILE_BYTES }
    ensures run { IfOk result (λ s. (commands : List Command) × IsFile config.page_bytes lines.now commands
        × IsRun config flash.image commands s.flash.image s.replies) }
    ensures shape { IfOk result (λ s. s.flash.shape ≡ shape_of config) }
    ensures extras { IfOk result (λ s. s.flash.extras ≡ flash.extras) }
    ensures err { IfErr result (StopsBy (RefusesFile config flash lines.now)) }
{
    match config.protocol {
        Protocol::Scc => serve_lines_by::<Scc>(alloc, flash, config, lines),
        Protocol::Bpcc => serve_lines_by::<Bpcc>(alloc, flash, config, lines),
    }
}

/// The same under a rule.
fn serve_lines_by<R: CommitRule>(
    alloc: Global,
    flash: MemFlash,
    config: Config,
    lines: &[u8],
) -> Result<ServedFlash, Failure<'static>>
    requires check { checked config ≡ Ok (shape_of config) }
    requires rule { config.protocol ≡ R.protocol }
    requires ready { flash ≡ loaded (shape_of config) flash.image flash.extras }
    requires length { length lines.now ≤ MAX_FILE_BYTES }
    ensures run { IfOk result (λ s. (commands : List Command) × IsFile config.page_bytes lines.now commands
        × IsRun config flash.image commands s.flash.image s.replies) }
    ensures shape { IfOk result (λ s. s.flash.shape ≡ shape_of config) }
    ensures extras { IfOk result (λ s. s.flash.extras ≡ flash.extras) }
    ensures err { IfErr result (StopsBy (RefusesFile config flash lines.now)) }
{
    match Server::<MemFlash, R>::open(alloc, flash, config) {
        Ok(mut server) => {
            let mut replies = Lines::new(alloc);
            let mut reader = CommandReader::new(alloc, lines, config.page_bytes);
            let outcome = serve_all::<R>(alloc, &mut server, &mut reader, &mut replies);
            drop(reader);
            let flash = server.close();
            let left = ServedFlash { flash, replies };
            match outcome {
                Ok(()) => Ok(left),
                Err(stop) => {
                    drop(left);
                    Err(stop)
                }
            }
        }
        Err((flash, why)) => {
            drop(flash);
            Err(Failure::from(why))
        }
    }
}

/// Serves the commands that are left to a reader.
fn serve_all<R: CommitRule>(
    alloc: Global,
    server: &mut Server<MemFlash, R>,
    reader: &mut CommandReader<'_>,
    replies: &mut Lines,
) -> Result<(), Failure<'static>>
    requires size { reader.old.page_bytes ≡ server.old.config.page_bytes }
    requires length { length_of reader.old ≤ MAX_FILE_BYTES }
    ensures serves { (its : Config) → (flash : MemFlashState) → (bytes : List ℕ) → (commands : List Command) →
        IsUnderway its flash bytes commands server.old reader.old replies.old →
        ServesFile its flash bytes server.new replies.new result }
    ensures config { server.new.config ≡ server.old.config }
{
    while let Some(command) = reader.next(alloc)? {
        let served = serve_command(alloc, server, &command, replies);
        drop(command);
        served?;
    }
    Ok(())
}

/// Serves a command, and tells the reply at its end.
fn serve_command<R: CommitRule>(
    alloc: Global,
    server: &mut Server<MemFlash, R>,
    command: &Command,
    replies: &mut Lines,
) -> Result<(), ServeError>
    requires { Suits server.old.config.page_bytes command.now }
    ensures config { server.new.config ≡ server.old.config }
    ensures runs { (flash : MemFlashState) → (commands : List Command) →
        HasRun server.old.config flash commands server.old.session replies.old →
        OnOk result (HasRun server.old.config flash (commands ++ command.now ∷ []) server.new.session replies.new) }
    ensures refuses { (flash : MemFlashState) →
        IsSoundOrSame server.old.config (state_of flash) (state_of (flash_in server.old.session)) →
        RefusesUnsound server.old.config (state_of flash) (state_of (flash_in server.new.session)) result }
    ensures extras { (state_of (flash_in server.new.session)).extras
        ≡ (state_of (flash_in server.old.session)).extras }
{
    match server.answer_next(alloc, command) {
        Ok(reply) => {
            let told = replies.tell(server.flash(), &reply);
            drop(reply);
            match told {
                Ok(()) => Ok(()),
                Err(_) => Err(ServeError::Memory),
            }
        }
        Err(why) => Err(why),
    }
}

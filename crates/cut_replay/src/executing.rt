ghost use Rattle.std.specs.Prelude.{◌≡◌, false, length, IfOk, OnErr};
ghost use Rattle.host_protocol.specs.Commands.{Suits};
ghost use Rattle.tx_engine.specs.Always.{HoldsAlways};
ghost use Rattle.mounted_session.specs.Mounting.{StaysQuiet};
ghost use Rattle.cut_replay.specs.Mounted.{IsCached, ServesHere};
ghost use Rattle.cut_replay.specs.Mounted.{CachesCommand, is_step_all};
ghost use Rattle.array_runs.specs.Run.{is_arm};

use crate::calls::{abort, collect, report, stats, step, write};
use crate::finishing::finish;
use crate::reading::read;
use flash_model::Flash;
use host_protocol::{Command, Reply};
use page_cache::PageCache;
use record_list::CommitRule;
use std::alloc::Global;
use tx_engine::Device;
use tx_types::Memory;

/// Does a command on a device, other than an arm and than going on with several transactions at once. Where power was
/// cut the reply is to be `Cut` in place of this one. After a fault in the latter the device may not be used, while
/// what is said here of the device holds after every other command.
pub fn execute<F: Flash, R: CommitRule>(
    alloc: Global,
    device: &mut Device<F, R>,
    cache: &mut PageCache,
    room: &mut [u8],
    command: &Command,
) -> Result<Reply, Memory>
    requires no_arm { is_arm command.now ≡ false }
    requires one { is_step_all command.now ≡ false }
    requires suits { Suits device.old.config.page_bytes command.now }
    requires room { length room.old ≡ device.old.config.page_bytes }
    requires size { cache.old.page_bytes ≡ device.old.config.page_bytes }
    requires cached { IsCached device.old cache.old.entries }
    requires always { HoldsAlways F.state R.protocol device.old }
    ensures ok { IfOk result (λ r. ServesHere F.state command.now device.old device.new r) }
    ensures err { OnErr result (StaysQuiet (F.state device.old.flash) (F.state device.new.flash)) }
    ensures caches { CachesCommand F.state command.now device.old device.new cache.old cache.new }
    ensures size { cache.new.page_bytes ≡ cache.old.page_bytes }
    ensures cached { IsCached device.new cache.new.entries }
    ensures always { HoldsAlways F.state R.protocol device.new }
{
    match command {
        Command::Read { page } => read(alloc, device, cache, room, *page),
        Command::Write { tag, batch } => Ok(write(device, *tag, batch)),
        Command::Step { tag } => Ok(step(device, *tag)),
        Command::Finish { tag } => Ok(finish(device, *tag)),
        Command::Abort { tag } => Ok(abort(device, *tag)),
        Command::Collect => Ok(collect(device)),
        Command::Stats => Ok(stats(device)),
        Command::Explain => report(alloc, device),
        Command::StepAll | Command::Cut { .. } | Command::Fault { .. } | Command::BadRead { .. } =>
            unreachable!(),
    }
}

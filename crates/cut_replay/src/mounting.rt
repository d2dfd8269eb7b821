ghost use Rattle.std.specs.Prelude.{◌≡◌, Ok, IfErr, OnOk, []};
ghost use Rattle.tx_types.specs.Config.{checked};
ghost use Rattle.cut_replay.specs.Sessions.{flash_in, left, Mounted, Unmounted, Follows, FollowsLoss};

use crate::ServeError;
use flash_model::Power;
use host_protocol::Reply;
use mounted_session::Session;
use page_cache::PageCache;
use record_list::CommitRule;
use std::alloc::Global;
use tx_engine::Device;
use tx_types::Config;

/// Mounts the flash of a session anew. The cache is empty then.
pub fn mount_again<F: Power, R: CommitRule>(
    alloc: Global,
    config: Config,
    session: &mut Session<F, Device<F, R>>,
    cache: &mut PageCache,
) -> Result<(), ServeError>
    requires check { checked config ≡ Ok (F.state (flash_in session.old)).shape }
    requires rule { config.protocol ≡ R.protocol }
    ensures mounted { OnOk result (Mounted F.state config (flash_in session.old) session.new) }
    ensures failed { IfErr result (Unmounted F.state config (flash_in session.old) (flash_in session.new)) }
    ensures cache { cache.new ≡ record cache.old { entries = [] } }
{
    cache.clear();
    session.mount_again(alloc, config)?;
    Ok(())
}

/// What follows a call of a device. Where power was cut in it the device is mounted again at once,
/// and the reply is `Cut`.
pub fn remount_if_cut<F: Power, R: CommitRule>(
    alloc: Global,
    config: Config,
    session: &mut Session<F, Device<F, R>>,
    cache: &mut PageCache,
    reply: Reply,
) -> Result<Reply, ServeError>
    requires check { checked config ≡ Ok (F.state (flash_in session.old)).shape }
    requires rule { config.protocol ≡ R.protocol }
    ensures { Follows F.state config session.old reply (left session.new result) cache.old cache.new }
{
    if session.live() {
        return Ok(reply);
    }
    remount(alloc, config, session, cache)
}

/// What follows a call after which no transaction is open: power was cut in it, or the device dropped
/// them. The device is mounted again at once, and the reply is `Cut` or `Dropped`.
pub fn remount<F: Power, R: CommitRule>(
    alloc: Global,
    config: Config,
    session: &mut Session<F, Device<F, R>>,
    cache: &mut PageCache,
) -> Result<Reply, ServeError>
    requires check { checked config ≡ Ok (F.state (flash_in session.old)).shape }
    requires rule { config.protocol ≡ R.protocol }
    ensures { FollowsLoss F.state config session.old (left session.new result) cache.old cache.new }
{
    let reply = if session.live() {
        Reply::Dropped
    } else {
        Reply::Cut
    };
    mount_again(alloc, config, session, cache)?;
    Ok(reply)
}

ghost use Rattle.cut_replay.specs.ServerCalls.{FlushesSession};
ghost use Rattle.cut_replay.specs.Sessions.{flash_in};

use flash_model::{Cached, NotDurable};
use mounted_session::Session;
use record_list::CommitRule;
use tx_engine::Device;

/// Makes durable all that was done on the flash of a session. Its device stays mounted, also where this fails.
pub fn flush<F: Cached, R: CommitRule>(
    session: &mut Session<F, Device<F, R>>,
) -> Result<(), NotDurable>
    ensures stays { FlushesSession F.state session.old session.new }
    ensures flushes { F.flushes (flash_in session.old) (flash_in session.new) result }
{
    match session {
        Session::Mounted(device) => device.flush(),
        Session::Unmounted(flash) => flash.flush(),
    }
}

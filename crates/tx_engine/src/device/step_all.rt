ghost use Rattle.std.specs.Prelude.{◌≡◌, ◌<◌, false};
ghost use Rattle.tx_engine.specs.Batches.{StepsAllDevice};

use crate::Device;
use crate::batches::step_together;
use crate::settling::settle;
use crate::theorems::{crash_states, device_invariant};
use array_machine::{Fault, Moved};
use flash_model::Wide;
use record_list::CommitRule;

impl<F: Wide, R: CommitRule> Device<F, R> {
    /// Open transactions go on together, the first ones in the order of their opening. First it becomes known what a
    /// broken operation left. As many as are ready, and as there are dies with room, are written at once, each in a die
    /// of its own. Where the first one is not ready, it takes a step by itself. After a fault only its flash may be
    /// used.
    pub fn step_all(&mut self) -> Result<Moved, Fault>
        requires kept { self.old.dropped ≡ false }
        ensures { StepsAllDevice F.state self.old self.new result }
    {
        device_invariant::<F, R>();
        crash_states::<F, R>();
        let Ok(()) = settle(&mut self.store, &mut self.transactions) else {
            self.dropped = true;
            return Err(Fault);
        };
        let Ok(moved) = step_together(&mut self.store, &mut self.transactions, &mut self.room.jobs)
        else {
            self.dropped = true;
            return Err(Fault);
        };
        Ok(moved)
    }
}

ghost use Rattle.std.specs.Prelude.{◌≡◌, ◌<◌, ◌↔◌, true, false, IsNone};
ghost use Rattle.die_alloc.specs.BlocksState.{IsFull, IsFullIn};
ghost use Rattle.die_alloc.specs.NextSlot.{next_slot_in};
ghost use Rattle.tx_engine.specs.StoreState.{IsStoreState};

use crate::store::Store;
use flash_model::Flash;
use record_list::CommitRule;
use tx_types::Slot;

impl<F: Flash, R: CommitRule> Store<F, R> {
    /// The number of dies.
    pub(crate) fn dies(&self) -> u32
        ensures { result ≡ (F.state self.now.flash).shape.dies }
    {
        self.flash.shape().dies
    }

    /// The slot of a die that is programmed next, if the die has room.
    pub(crate) fn slot_in(&mut self, die: u32) -> Option<Slot>
        requires { die < self.old.table.shape.dies }
        ensures slot { result ≡ next_slot_in self.old.table die }
        ensures stays { self.new ≡ self.old }
        ensures full { IsNone result ↔ IsFullIn self.old.table die }
    {
        self.blocks.next_slot_in(die)
    }

    /// Whether a block has room.
    pub(crate) fn has_room(&mut self) -> bool
        requires stored { IsStoreState F.state R.protocol self.old }
        ensures room { result ≡ true → IsFull self.old.table → ⊥ }
        ensures full { result ≡ false → IsFull self.old.table }
        ensures stays { self.new ≡ self.old }
    {
        for die in 0..self.dies() {
            if self.slot_in(die).is_some() {
                return true;
            }
        }
        false
    }
}

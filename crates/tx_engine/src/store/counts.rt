ghost use Rattle.std.specs.List.{range_with_len};
ghost use Rattle.std.specs.Prelude.{◌≡◌, ◌<◌, Ok, IfOk, sum_by, count_by, is_some};
ghost use Rattle.tx_types.specs.Config.{shape_of, blocks_of};
ghost use Rattle.judged_records.specs.IndexState.{current_of};
ghost use Rattle.judged_records.specs.Notes.{found_in};
ghost use Rattle.collector.specs.Known.{array_known};
ghost use Rattle.collector.specs.Victim.{garbage_in};
ghost use Rattle.tx_engine.specs.StoreState.{IsStoreState};

use crate::store::Store;
use collector::theorems;
use flash_model::Flash;
use record_list::{CommitRule, Found};
use tx_types::{Memory, Slot};

impl<F: Flash, R: CommitRule> Store<F, R> {
    /// The current version of a page, 0 for none.
    pub fn version(&self, page: u32) -> u64
        requires { page < self.now.noted.config.logical }
        ensures { result ≡ current_of self.now.noted page }
    {
        self.index.current(page)
    }

    /// The number of garbage slots outside the spare. No block is looked at.
    pub fn garbage(&self) -> u32
        requires stored { IsStoreState F.state R.protocol self.now }
        ensures { result ≡ sum_by (garbage_in self.now.noted self.now.table)
            (range_with_len 0 (blocks_of (shape_of self.now.noted.config))) }
    {
        self.index.all_garbage()
    }

    /// The noted records, in the order of their slots.
    pub fn noted_records(&self) -> Result<Vec<Found>, Memory>
        requires stored { IsStoreState F.state R.protocol self.now }
        ensures { IfOk result (λ list. list.items ≡ found_in self.now.noted.notes) }
    {
        let slots = self.flash.shape().slots();
        let mut list = Vec::with_capacity(self.alloc, slots as usize)?;
        for at in 0..slots {
            let at = Slot(at);
            if let Some(rec) = self.index.rec(at) {
                list.push_reserved(Found { slot: at, rec });
            }
        }
        Ok(list)
    }

    /// The number of pages that are not blank.
    pub(crate) fn count_written(&self) -> u32
        requires stored { IsStoreState F.state R.protocol self.now }
        ensures { result
            ≡ count_by is_some (array_known self.now.noted (F.state self.now.flash).image) }
    {
        collector::theorems::known_image_is_sound::<R>();
        self.index.count_written()
    }
}

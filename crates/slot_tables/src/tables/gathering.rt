ghost use Rattle.std.specs.Prelude.{◌≡◌, ◌+◌, ◌<◌, ◌≤◌, [], ◌++◌, length, map, vec_len, vec_capacity};
ghost use Rattle.tx_types.specs.Config.{slots_of};
ghost use Rattle.slot_tables.specs.Gathered.{block_at, blocks_of_copies, copies_below, AreGathered};
ghost use Rattle.slot_tables.specs.TablesState.{copies_of, WaitsBelow};

use crate::Tables;
use tx_types::Block;

impl Tables {
    /// Appends the block of each slot that holds the record of a number.
    pub fn put_blocks(&self, number: u32, into: &mut Vec<Block>)
        requires number { number < slots_of self.now.shape }
        requires room { vec_len into.old + length (copies_of self.now.slots number) ≤ vec_capacity into.old }
        ensures put { into.new.items ≡ into.old.items ++ blocks_of_copies self.now number }
        ensures len { vec_len into.new ≡ vec_len into.old + length (copies_of self.now.slots number) }
        ensures room { vec_capacity into.new ≡ vec_capacity into.old }
    {
        let size = self.base.shape.pages_per_block;
        self.base.slots.put_blocks(size, number, into);
    }

    /// Puts the block of each slot that holds a record which waits for a page at a version below this one
    /// into room where nothing is.
    pub fn put_waiting(&self, page: u32, below: u64, into: &mut Vec<Block>)
        requires page { page < length self.now.pages }
        requires empty { into.old.items ≡ [] }
        requires none { vec_len into.old ≡ 0 }
        requires room { slots_of self.now.shape ≤ vec_capacity into.old }
        ensures gathered { AreGathered self.now (WaitsBelow self.now page below) into.new.items }
        ensures len { vec_len into.new ≡ length into.new.items }
        ensures room { vec_capacity into.new ≡ vec_capacity into.old }
    {
        let waiting = self.base.waits.by_page();
        let mut next = waiting.first(page);
        while let Some(number) = next {
            self.put_below(number, below, into);
            next = waiting.next(number);
        }
    }

    /// Appends the block of each slot that holds the record of a number, where its link is below a version.
    fn put_below(&self, number: u32, below: u64, into: &mut Vec<Block>)
        requires number { number < slots_of self.now.shape }
        requires room { vec_len into.old + length (copies_below self.now below number) ≤ vec_capacity into.old }
        ensures put { into.new.items ≡ into.old.items
            ++ map (block_at self.now.shape.pages_per_block) (copies_below self.now below number) }
        ensures len { vec_len into.new ≡ vec_len into.old + length (copies_below self.now below number) }
        ensures room { vec_capacity into.new ≡ vec_capacity into.old }
    {
        if self.base.links_below(number, below) {
            self.put_blocks(number, into);
        }
    }
}

ghost use Rattle.std.specs.Prelude.{◌≡◌, ℕ, ◌<◌, ◌≤◌, length, replicate, slice_set, Bool, true, None, IfOk, IfSome};
ghost use Rattle.slot_tables.specs.TablesState.{number_at};
ghost use Rattle.slot_tables.specs.WaitListState.{AreWaiting};

use crate::option_table::OptionTable;
use dense_tables::LinkedLists;
use std::alloc::{AllocError, Global};
use std::marker::Model;

/// The page that each record waits for, by its number, and of each page the records that wait for it, in
/// any order.
#[derive(Drop)]
pub struct WaitList {
    waits: OptionTable<u32>,
    waiting: LinkedLists,
    /// How many records wait.
    count: usize,
}

impl Model for WaitList {
    ghost use Rattle.slot_tables.specs.WaitListState.{WaitListState};

    ghost Value = { WaitListState };

    ghost use Rattle.slot_tables.specs.WaitList.{waiting_of, WaitListInvariant};

    ghost view = { waiting_of };

    ghost invariant = { WaitListInvariant };
}

impl WaitList {
    /// No record waits.
    pub fn new(alloc: Global, pages: u32, count: u32) -> Result<WaitList, AllocError>
        requires pages { pages ≤ 65536 }
        requires count { count ≤ 65536 }
        ensures { IfOk result (λ w. w ≡ record { pages = pages; waits = replicate count None }) }
    {
        Ok(WaitList {
            waits: OptionTable::new(alloc, count)?,
            waiting: LinkedLists::new(alloc, pages, count)?,
            count: 0,
        })
    }

    /// The page that a record waits for.
    pub fn get(&self, number: u32) -> Option<u32>
        requires { number < length self.now.waits }
        ensures { result ≡ number_at self.now.waits number }
    {
        if self.count == 0 {
            return None;
        }
        self.waits.get(number)
    }

    /// Whether no record waits.
    #[inline]
    pub fn is_idle(&self) -> bool
        ensures { result ≡ true → (number : ℕ) → number_at self.now.waits number ≡ None }
    {
        self.count == 0
    }

    /// Of each page the records that wait for it.
    pub fn by_page(&self) -> &LinkedLists
        ensures { AreWaiting self.now result.now }
    {
        &self.waiting
    }

    /// Sets for which page a record waits.
    #[inline(always)]
    pub fn set(&mut self, number: u32, to: Option<u32>)
        requires number { number < length self.old.waits }
        requires page { IfSome to (λ page. page < self.old.pages) }
        ensures { self.new ≡ record self.old { waits = slice_set self.old.waits number to } }
    {
        self.forget(number);
        if let Some(page) = to {
            self.waiting.push(page, number);
            self.waits.set(number, to);
            self.count += 1;
        }
    }

    /// Makes a record wait for no page.
    #[inline(always)]
    fn forget(&mut self, number: u32)
        requires { number < length self.old.waits }
        ensures { self.new ≡ record self.old { waits = slice_set self.old.waits number None } }
    {
        if let Some(page) = self.get(number) {
            self.waiting.remove(page, number);
            self.waits.set(number, None);
            self.count -= 1;
        }
    }
}

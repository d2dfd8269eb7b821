ghost use Rattle.std.specs.Prelude.{◌≡◌, ◌<◌, ◌≤◌, length, replicate, slice_set, count_by, None, IfOk};
ghost use Rattle.slot_tables.specs.TablesState.{number_at, is_some_number};

use std::alloc::{AllocError, Global};
use std::marker::Model;

/// The current record of each page, by its number, and how many pages have one.
#[derive(Drop)]
pub struct Current {
    numbers: Vec<Option<u32>>,
    written: usize,
}

impl Model for Current {
    ghost use Rattle.std.specs.Prelude.{ℕ, List, Option};

    ghost Value = { List (Option ℕ) };

    ghost use Rattle.slot_tables.specs.Current.{current_of, CurrentInvariant};

    ghost view = { current_of };

    ghost invariant = { CurrentInvariant };
}

impl Current {
    /// No page has a current record.
    pub fn new(alloc: Global, pages: u32) -> Result<Current, AllocError>
        ensures { IfOk result (λ c. c ≡ replicate pages None) }
    {
        Ok(Current {
            numbers: vec![in alloc; None; pages as usize]?,
            written: 0,
        })
    }

    /// The current record of a page.
    pub fn get(&self, page: u32) -> Option<u32>
        requires { page < length self.now }
        ensures { result ≡ number_at self.now page }
    {
        self.numbers[page as usize]
    }

    /// How many pages have a current record.
    pub fn count_written(&self) -> usize
        ensures { result ≡ count_by is_some_number self.now }
    {
        self.written
    }

    /// Sets which record of a page is current.
    pub fn set(&mut self, page: u32, to: Option<u32>)
        requires { page < length self.old }
        ensures { self.new ≡ slice_set self.old page to }
    {
        if self.numbers[page as usize].is_some() {
            self.written -= 1;
        }
        self.numbers[page as usize] = to;
        if to.is_some() {
            self.written += 1;
        }
    }
}

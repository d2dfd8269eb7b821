ghost use Rattle.std.specs.Prelude.{◌≡◌, ℕ, ◌<◌, ◌≤◌, length, replicate, slice_set, None, IfOk, IfSome};
ghost use Rattle.slot_tables.specs.TablesState.{number_at, is_answerer};

use crate::lazy_table::LazyTable;
use crate::option_table::OptionTable;
use std::alloc::{AllocError, Global};
use std::marker::Model;

/// Which record answers for each one, by their numbers, and for how many each answers. Where none ever answered,
/// as under Simple Cyclic Commit, no room is touched.
#[derive(Drop)]
pub struct Responsibilities {
    answerers: OptionTable<u32>,
    counts: LazyTable<u32>,
}

impl Model for Responsibilities {
    ghost use Rattle.std.specs.Prelude.{ℕ, List, Option};

    ghost Value = { List (Option ℕ) };

    ghost use Rattle.slot_tables.specs.Responsibilities.{answerers_of, ResponsibilitiesInvariant};

    ghost view = { answerers_of };

    ghost invariant = { ResponsibilitiesInvariant };
}

impl Responsibilities {
    /// No record has an answerer.
    pub fn new(alloc: Global, count: u32) -> Result<Responsibilities, AllocError>
        requires { count ≤ 65536 }
        ensures { IfOk result (λ a. a ≡ replicate count None) }
    {
        Ok(Responsibilities {
            answerers: OptionTable::new(alloc, count)?,
            counts: LazyTable::new(alloc, count, 0)?,
        })
    }

    /// The answerer of a record.
    pub fn get(&self, number: u32) -> Option<u32>
        requires { number < length self.now }
        ensures answerer { result ≡ number_at self.now number }
        ensures within { IfSome result (λ other. other < length self.now) }
    {
        self.answerers.get(number)
    }

    /// Whether a record answers for another one.
    pub fn has(&self, number: u32) -> bool
        requires { number < length self.now }
        ensures { result ≡ is_answerer self.now number }
    {
        self.counts.get(number) > 0
    }

    /// Sets which record answers for a record.
    #[inline(always)]
    pub fn set(&mut self, number: u32, to: Option<u32>)
        requires number { number < length self.old }
        requires answerer { IfSome to (λ other. other < length self.old) }
        ensures { self.new ≡ slice_set self.old number to }
    {
        self.forget(number);
        if let Some(other) = to {
            let count = self.counts.get(other) + 1;
            self.counts.set(other, count);
            self.answerers.set(number, to);
        }
    }

    /// Takes the answerer of a record away, if it has one.
    #[inline(always)]
    fn forget(&mut self, number: u32)
        requires { number < length self.old }
        ensures { self.new ≡ slice_set self.old number None }
    {
        if let Some(other) = self.answerers.get(number) {
            let count = self.counts.get(other) - 1;
            self.counts.set(other, count);
            self.answerers.set(number, None);
        }
    }
}

ghost use Rattle.std.specs.Prelude.{◌≡◌, ◌<◌, ◌≤◌, length, replicate, slice_index_or, slice_set, Option, None, IfOk};

use crate::lazy_table::reach;
use std::alloc::{AllocError, Global};
use std::marker::Model;

/// A value for each number, or none. What is kept ends with the greatest number that was ever set, as in a `LazyTable`:
/// behind it there is none, which is known without a look.
#[derive(Drop)]
pub struct OptionTable<T> {
    first: Vec<Option<T>>,
    count: u32,
}

impl<T> Model for OptionTable<T> {
    ghost use Rattle.std.specs.Prelude.{List, Option};

    ghost Value = { List (Option T) };

    ghost use Rattle.slot_tables.specs.OptionTable.{options_of, OptionTableInvariant};

    ghost view = { options_of };

    ghost invariant = { OptionTableInvariant };
}

impl<T: Copy> OptionTable<T> {
    /// No number has a value.
    pub fn new(alloc: Global, count: u32) -> Result<OptionTable<T>, AllocError>
        requires { count ≤ 65536 }
        ensures { IfOk result (λ t. t ≡ replicate count None) }
    {
        Ok(OptionTable {
            first: Vec::with_capacity(alloc, count as usize)?,
            count,
        })
    }

    /// The value of a number.
    #[inline]
    pub fn get(&self, number: u32) -> Option<T>
        requires { number < length self.now }
        ensures { (other : Option T) → slice_index_or self.now number other ≡ result }
    {
        if (number as usize) < self.first.len() {
            self.first[number as usize]
        } else {
            None
        }
    }

    /// Gives a number this value, or none.
    pub fn set(&mut self, number: u32, to: Option<T>)
        requires { number < length self.old }
        ensures { self.new ≡ slice_set self.old number to }
    {
        let place = number as usize;
        if place < self.first.len() {
            self.first[place] = to;
            return;
        }
        reach(&mut self.first, place, &None);
        self.first.push_reserved(to);
    }
}

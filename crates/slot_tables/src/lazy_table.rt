ghost use Rattle.std.specs.Prelude.{◌≡◌, ◌-◌, ◌<◌, ◌≤◌, ◌++◌, length, replicate, slice_index_or, slice_set, vec_capacity, IfOk};

use std::alloc::{AllocError, Global};
use std::marker::Model;

/// A value for each number. What is kept ends with the greatest number that was ever set, so that room for the
/// others, which have the value of the beginning, is not touched.
#[derive(Drop)]
pub struct LazyTable<T> {
    first: Vec<T>,
    count: u32,
    rest: T,
}

impl<T> Model for LazyTable<T> {
    ghost use Rattle.std.specs.Prelude.{List};

    ghost Value = { List T };

    ghost use Rattle.slot_tables.specs.LazyTable.{values_of, LazyTableInvariant};

    ghost view = { values_of };

    ghost invariant = { LazyTableInvariant };
}

impl<T: Copy> LazyTable<T> {
    /// Each number has this value.
    pub fn new(alloc: Global, count: u32, rest: T) -> Result<LazyTable<T>, AllocError>
        requires { count ≤ 65536 }
        ensures { IfOk result (λ t. t ≡ replicate count rest) }
    {
        Ok(LazyTable {
            first: Vec::with_capacity(alloc, count as usize)?,
            count,
            rest,
        })
    }

    /// The value of a number.
    #[inline]
    pub fn get(&self, number: u32) -> T
        requires { number < length self.now }
        ensures { (other : T) → slice_index_or self.now number other ≡ result }
    {
        if (number as usize) < self.first.len() {
            self.first[number as usize]
        } else {
            self.rest
        }
    }

    /// Gives a number this value.
    pub fn set(&mut self, number: u32, to: T)
        requires { number < length self.old }
        ensures { self.new ≡ slice_set self.old number to }
    {
        let place = number as usize;
        if place < self.first.len() {
            self.first[place] = to;
            return;
        }
        reach(&mut self.first, place, &self.rest);
        self.first.push_reserved(to);
    }
}

/// Adds values of this kind up to this many.
pub fn reach<T: Copy>(first: &mut Vec<T>, end: usize, rest: &T)
    requires { end ≤ vec_capacity first.old }
    ensures items { first.new.items
        ≡ first.old.items ++ replicate (end - length first.old.items) rest.now }
    ensures room { vec_capacity first.new ≡ vec_capacity first.old }
{
    while first.len() < end {
        first.push_reserved(*rest);
    }
}

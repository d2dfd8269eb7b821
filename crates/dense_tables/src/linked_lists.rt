ghost use Rattle.std.specs.Prelude.{◌≡◌, ℕ, ◌+◌, ◌<◌, ◌≤◌, ◌^◌, ◌∷◌, Some, None, nat_lt, cond, length, slice_index, slice_set, vec_len, IfOk, IfSome};
ghost use Rattle.std.specs.List.{Contains, slice_get};
ghost use Rattle.dense_tables.specs.LinkedLists.{AreDisjoint, IsListed, list_of, next_in, rest_from, empty_lists, with_first, with_behind, without};

use std::alloc::{AllocError, Global};
use std::marker::Model;

/// Disjoint lists of places, one for each key.
///
/// Keys and places are numbers from 0 on. A place stands in one list or in none. Each call but `new` takes
/// the same time however many keys and places there are, and no memory.
#[derive(Drop)]
pub struct LinkedLists {
    /// Of each place the one behind it in its list, and then of each key the first of its list. Where
    /// there is none, the number of places.
    next: Vec<u32>,
    /// Of each place in a list the one before it. The first of a list has there the number at which
    /// `next` has it: the number of places plus the key.
    before: Vec<u32>,
}

impl Model for LinkedLists {
    ghost use Rattle.dense_tables.specs.LinkedLists.{LinkedListsState};

    ghost Value = { LinkedListsState };

    ghost use Rattle.dense_tables.specs.Links.{linked_lists_of, LinkedListsInvariant};

    ghost view = { linked_lists_of };

    ghost invariant = { LinkedListsInvariant };
}

impl LinkedLists {
    /// No place is in a list. This takes all the memory: four bytes a key and eight a place.
    pub fn new(alloc: Global, keys: u32, places: u32) -> Result<LinkedLists, AllocError>
        requires { keys + places < 2 ^ 32 }
        ensures { IfOk result (λ c. c ≡ empty_lists keys places) }
    {
        Ok(LinkedLists {
            next: vec![in alloc; places; (places + keys) as usize]?,
            before: vec![in alloc; 0; places as usize]?,
        })
    }

    /// The first place in the list of a key.
    pub fn first(&self, key: u32) -> Option<u32>
        requires { key < length self.now.lists }
        ensures first { result ≡ slice_get (list_of self.now key) 0 }
        ensures listed { IfSome result (Contains (list_of self.now key)) }
        ensures order { rest_from (list_of self.now key) result ≡ list_of self.now key }
        ensures lists { AreDisjoint self.now }
    {
        let root = self.before.len() + key as usize;
        place(self.next[root], self.before.len())
    }

    /// The place that follows another one in its list. From the `first` of a key on this goes through its
    /// list in order.
    pub fn next(&self, at: u32) -> Option<u32>
        requires { IsListed self.now at }
        ensures next { (key : ℕ) → Contains (list_of self.now key) at → result ≡ next_in (list_of self.now key) at }
        ensures listed { (key : ℕ) → Contains (list_of self.now key) at →
            IfSome result (Contains (list_of self.now key)) }
        ensures order { (key : ℕ) → Contains (list_of self.now key) at →
            rest_from (list_of self.now key) (Some at) ≡ at ∷ rest_from (list_of self.now key) result }
        ensures lists { AreDisjoint self.now }
    {
        place(self.next[at as usize], self.before.len())
    }

    /// Puts a place that is in no list in front of the list of a key.
    pub fn push(&mut self, key: u32, at: u32)
        requires key { key < length self.old.lists }
        requires place { at < self.old.places }
        requires free { IsListed self.old at → ⊥ }
        ensures first { self.new ≡ with_first self.old key at }
        ensures lists { AreDisjoint self.new }
    {
        let root = self.before.len() as u32 + key;
        link(&mut self.next, &mut self.before, root, at);
    }

    /// Puts a place that is in no list behind a place in the list of a key. The links find that list: the
    /// key is there for the contract.
    pub fn insert_after(&mut self, key: u32, prev: u32, at: u32)
        requires prev { Contains (list_of self.old key) prev }
        requires place { at < self.old.places }
        requires free { IsListed self.old at → ⊥ }
        ensures behind { self.new ≡ with_behind self.old key prev at }
        ensures lists { AreDisjoint self.new }
    {
        link(&mut self.next, &mut self.before, prev, at);
    }

    /// Takes a place out of the list of a key, which is there for the contract, as in `insert_after`.
    pub fn remove(&mut self, key: u32, at: u32)
        requires { Contains (list_of self.old key) at }
        ensures without { self.new ≡ without self.old key at }
        ensures free { IsListed self.new at → ⊥ }
        ensures lists { AreDisjoint self.new }
    {
        unlink(&mut self.next, &mut self.before, at);
    }
}

/// The place of this number, of this many places.
fn place(number: u32, places: usize) -> Option<u32>
    ensures { result ≡ cond (nat_lt number places) (Some number) None }
{
    if (number as usize) < places {
        Some(number)
    } else {
        None
    }
}

/// Puts a place that is in no list behind another one, or behind the root of a list.
fn link(next: &mut Vec<u32>, before: &mut Vec<u32>, behind: u32, at: u32)
    requires behind { behind < vec_len next.old }
    requires place { at < vec_len before.old }
    requires roots { vec_len before.old ≤ vec_len next.old }
    ensures next { next.new.items ≡
        slice_set (slice_set next.old.items at (slice_index next.old.items behind)) behind at }
    ensures before { before.new.items ≡
        slice_set (slice_set before.old.items (slice_index next.old.items behind) at) at behind }
{
    let after = next[behind as usize];
    next[at as usize] = after;
    next[behind as usize] = at;
    if (after as usize) < before.len() {
        before[after as usize] = at;
    }
    before[at as usize] = behind;
}

/// Takes a place out of its list.
fn unlink(next: &mut Vec<u32>, before: &mut Vec<u32>, at: u32)
    requires place { at < vec_len before.old }
    requires roots { vec_len before.old ≤ vec_len next.old }
    requires root { slice_index before.old.items at < vec_len next.old }
    ensures next { next.new.items ≡
        slice_set next.old.items (slice_index before.old.items at) (slice_index next.old.items at) }
    ensures before { before.new.items ≡
        slice_set before.old.items (slice_index next.old.items at) (slice_index before.old.items at) }
{
    let after = next[at as usize];
    let behind = before[at as usize];
    next[behind as usize] = after;
    if (after as usize) < before.len() {
        before[after as usize] = behind;
    }
}

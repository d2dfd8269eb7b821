ghost use Rattle.std.specs.Prelude.{◌≡◌, ℕ, ◌+◌, ◌<◌, ◌≤◌, ◌↔◌, ◌∷◌, [], length, replicate, slice_set, Some, None, IfOk, IfSome, IsSomeAnd};
ghost use Rattle.std.specs.List.{remove, slice_get};
ghost use Rattle.tx_types.specs.declared.record.Rec.{Rec};
ghost use Rattle.dense_tables.specs.LinkedLists.{index_in, next_in};
ghost use Rattle.slot_tables.specs.TablesState.{record_at, numbers_at, AreVersions, IsNewest};
ghost use Rattle.slot_tables.specs.Versions.{Names, HasFree, IsTaken};

use crate::option_table::OptionTable;
use dense_tables::LinkedLists;
use std::alloc::{AllocError, Global};
use std::marker::Model;
use tx_types::Rec;

/// The record of each number, and of each page the numbers of its records, newest first. Only numbers that lost their
/// record are listed, so that new tables need no list of all of them.
#[derive(Drop)]
pub struct Records {
    records: OptionTable<Rec>,
    /// Behind the pages a list of the numbers that lost their record.
    lists: LinkedLists,
    /// How many pages there are.
    pages: u32,
    /// The first of the numbers that never had a record.
    unused: u32,
}

impl Model for Records {
    ghost use Rattle.slot_tables.specs.Versions.{RecordsState};

    ghost Value = { RecordsState };

    ghost use Rattle.slot_tables.specs.Records.{numbered_of, RecordsInvariant};

    ghost view = { numbered_of };

    ghost invariant = { RecordsInvariant };
}

impl Records {
    /// No number has a record.
    pub fn new(alloc: Global, pages: u32, count: u32) -> Result<Records, AllocError>
        requires pages { pages ≤ 65536 }
        requires count { count ≤ 65536 }
        ensures { IfOk result (λ r.
            r ≡ record { records = replicate count None; pages = replicate pages [] }) }
    {
        Ok(Records {
            records: OptionTable::new(alloc, count)?,
            lists: LinkedLists::new(alloc, pages + 1, count)?,
            pages,
            unused: 0,
        })
    }

    /// The record of a number.
    pub fn get(&self, number: u32) -> Option<Rec>
        requires { number < length self.now.records }
        ensures record { result ≡ record_at self.now.records number }
        ensures versions { AreVersions self.now.records self.now.pages }
    {
        self.records.get(number)
    }

    /// The first of the numbers that never had a record.
    pub fn end(&self) -> u32
        ensures within { result ≤ length self.now.records }
        ensures fresh { (number : ℕ) → result ≤ number → record_at self.now.records number ≡ None }
    {
        self.unused
    }

    /// The number of the newest record of a page.
    pub fn newest(&self, page: u32) -> Option<u32>
        requires { page < length self.now.pages }
        ensures newest { result ≡ slice_get (numbers_at self.now.pages page) 0 }
        ensures versions { AreVersions self.now.records self.now.pages }
    {
        self.lists.first(page)
    }

    /// The number of the next older record of the page of this one.
    pub fn older(&self, number: u32) -> Option<u32>
        requires number { number < length self.now.records }
        ensures next { IfSome (record_at self.now.records number) (λ r.
            result ≡ next_in (numbers_at self.now.pages r.page) number) }
        ensures none { record_at self.now.records number ≡ None → result ≡ None }
    {
        match self.records.get(number) {
            None => None,
            Some(_) => self.lists.next(number),
        }
    }

    /// The number of the record of a page with this version. This goes through the records of the page
    /// that are above it.
    pub fn number_of(&self, page: u32, version: u64) -> Option<u32>
        requires { page < length self.now.pages }
        ensures found { IfSome result (λ number.
            IsSomeAnd (record_at self.now.records number) (Names page version)) }
        ensures names { (number : ℕ) (r : Rec) → record_at self.now.records number ≡ Some r →
            Names page version r ↔ (result ≡ Some number) }
    {
        let mut next = self.lists.first(page);
        while let Some(number) = next {
            let Some(rec) = self.records.get(number) else {
                return None;
            };
            if rec.version <= version {
                return if rec.version == version { next } else { None };
            }
            next = self.lists.next(number);
        }
        None
    }

    /// Gives a record, newer than those of its page, a number.
    #[inline(always)]
    pub fn add(&mut self, rec: &Rec) -> u32
        requires page { rec.now.page < length self.old.pages }
        requires free { HasFree self.old.records }
        requires newest { IsNewest self.old.records rec.now }
        ensures free { record_at self.old.records result ≡ None }
        ensures within { result < length self.old.records }
        ensures added { self.new ≡ record {
          records = slice_set self.old.records result (Some rec.now);
          pages = slice_set self.old.pages rec.now.page (result ∷ numbers_at self.old.pages rec.now.page);
        } }
        ensures versions { AreVersions self.new.records self.new.pages }
    {
        let number = take_number(&mut self.lists, self.pages, &mut self.unused);
        self.lists.push(rec.page, number);
        self.records.set(number, Some(*rec));
        number
    }

    /// Takes the record of a number away.
    pub fn give_up(&mut self, page: u32, number: u32)
        requires record { IsSomeAnd (record_at self.old.records number) (λ r. r.page ≡ page) }
        requires within { number < length self.old.records }
        ensures given_up { let numbers = numbers_at self.old.pages page in
            self.new ≡ record {
              records = slice_set self.old.records number None;
              pages = slice_set self.old.pages page (remove numbers (index_in numbers number));
            } }
        ensures versions { AreVersions self.new.records self.new.pages }
    {
        self.lists.remove(page, number);
        self.lists.push(self.pages, number);
        self.records.set(number, None);
    }
}

/// Takes a number out of the list of a key, or the first unused one where the list is empty.
#[inline(always)]
fn take_number(lists: &mut LinkedLists, key: u32, unused: &mut u32) -> u32
    requires key { key < length lists.old.lists }
    requires few { unused.old ≤ 65536 }
    ensures { IsTaken lists.old lists.new key unused.old unused.new result }
{
    match lists.first(key) {
        Some(number) => {
            lists.remove(key, number);
            number
        }
        None => {
            let number = *unused;
            *unused += 1;
            number
        }
    }
}

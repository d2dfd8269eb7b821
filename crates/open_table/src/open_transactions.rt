ghost use Rattle.std.specs.Prelude.{◌≡◌, ◌+◌, ◌<◌, ◌∷◌, ◌++◌, [], length, remove, position, AllPairs, is_none, IfOk};
ghost use Rattle.tx_types.specs.Batch.{bytes_in};
ghost use Rattle.tx_types.specs.Config.{IsConfig};
ghost use Rattle.record_list.specs.Transaction.{ShareNoPage};
ghost use Rattle.array_machine.specs.ArrayState.{pending_pages, has_tag, is_doubted};
ghost use Rattle.open_table.specs.OpenTransactionsState.{name_at, write_at, CanOpen, HasPlace, IsOpenTransactionsState, transaction_at, entries_of, namings_of, begun, with_transaction, with_done, with_mark, with_noted_count};
ghost use Rattle.array_machine.specs.Submit.{first_refusals};

use crate::pending_writes::{
    PendingWrite, Transaction, buffers_and_lists, first_in_doubt, free_pages, place_of_tag,
    set_owner, store_pages,
};
use crate::refusals::{batch_refusal, first_overlap, is_tag_used, too_many};
use array_machine::{Mark, SubmitError};
use record_list::CommitRule;
use std::alloc::Global;
use std::marker::Model;
use tx_types::{Batch, Config, Link, Memory};
use version_index::Index;

/// What a device keeps of its open transactions, in the order of their opening. All its memory is taken when it is
/// made. Each open transaction has a list of pages of its own, which goes back when it ends. A table has for each page
/// the transaction that writes it, so a batch is compared with the open ones by one look-up a page. A tag is sought
/// among them, of which there are 256 at most.
#[derive(Drop)]
pub struct OpenTransactions {
    page_bytes: u32,
    pending: u32,
    all: Vec<Transaction>,
    /// The tag of the open transaction that writes a page, for each page.
    owners: Vec<Option<u32>>,
    /// Room for the pages that may be pending beside theirs.
    rooms: Vec<Vec<u8>>,
    /// Room for the transactions that may be open beside them.
    lists: Vec<Vec<PendingWrite>>,
}

impl Model for OpenTransactions {
    ghost use Rattle.open_table.specs.OpenTransactionsState.{OpenTransactionsState};

    ghost Value = { OpenTransactionsState };

    ghost use Rattle.open_table.specs.OpenTransactions.{table_of, OpenTransactionsInvariant};

    ghost view = { table_of };

    ghost invariant = { OpenTransactionsInvariant };
}

impl OpenTransactions {
    /// With no transaction open.
    pub fn new(alloc: Global, config: Config) -> Result<OpenTransactions, Memory>
        requires { IsConfig config }
        ensures { IfOk result (λ o. o ≡ record {
          page_bytes = config.page_bytes;
          logical = config.logical;
          pending = config.pending;
          all = [];
        }) }
    {
        let all = Vec::with_capacity(alloc, config.pending as usize)?;
        let owners = vec![in alloc; None; config.logical as usize]?;
        let (rooms, lists) = buffers_and_lists(alloc, config)?;
        Ok(OpenTransactions {
            page_bytes: config.page_bytes,
            pending: config.pending,
            all,
            owners,
            rooms,
            lists,
        })
    }

    /// The number of open transactions, and what holds of all that is kept.
    pub fn count(&self) -> u32
        ensures count { result ≡ length self.now.all }
        ensures kept { IsOpenTransactionsState self.now }
    {
        self.all.len() as u32
    }

    /// The number of the pages of all open transactions.
    pub fn pending(&self) -> u32
        ensures { result ≡ pending_pages (entries_of self.now) }
    {
        self.pending - self.rooms.len() as u32
    }

    /// The first refusal of a batch for which what is kept of open transactions and the number of logical pages are
    /// enough: any but that of a page which has no version left, which is tried last.
    pub fn refusal(&self, tag: u32, batch: &Batch) -> Option<SubmitError>
        ensures { result ≡ first_refusals
            (record { logical = self.now.logical; pending = self.now.pending })
            (entries_of self.now) tag batch.now.entries }
    {
        if let Some(refusal) = batch_refusal(batch, self.owners.len()) {
            return Some(refusal);
        }
        if is_tag_used(&self.all, tag) {
            return Some(SubmitError::Tag);
        }
        if let Some(refusal) = first_overlap(batch, &self.owners) {
            return Some(refusal);
        }
        too_many(batch, self.rooms.len() as u32)
    }

    /// Opens a transaction, with no page written. Each page is named one version above its greatest mention.
    pub fn open<R: CommitRule>(&mut self, tag: u32, batch: &Batch, index: &Index<R>)
        requires { CanOpen self.old index.now batch.now }
        ensures { self.new ≡ record self.old {
          all = self.old.all ++ begun index.now tag batch.now.entries ∷ [];
        } }
    {
        let mut pages = self.lists.pop().unwrap();
        store_pages(&mut pages, &mut self.rooms, batch, index);
        set_owner(&mut self.owners, &pages, Some(tag));
        self.all.push_reserved(Transaction {
            tag,
            done: 0,
            noted_count: 0,
            mark: Mark::Plain,
            pages,
        });
    }

    /// Where the open transaction with this tag stands.
    pub fn position(&self, tag: u32) -> Option<usize>
        ensures { result ≡ position (λ o. has_tag tag o.entry) self.now.all }
    {
        place_of_tag(&self.all, tag)
    }

    /// Where the transaction in doubt stands.
    pub fn in_doubt(&self) -> Option<usize>
        ensures { result ≡ position (λ o. is_doubted o.entry.mark) self.now.all }
    {
        first_in_doubt(&self.all)
    }

    /// How many pages the transaction at an index writes.
    pub fn pages(&self, at: usize) -> u32
        requires { at < length self.now.all }
        ensures { result ≡ length (transaction_at self.now at).entry.writes }
    {
        self.all[at].pages.len() as u32
    }

    /// How many of them are written.
    pub fn done_count(&self, at: usize) -> u32
        requires { at < length self.now.all }
        ensures { result ≡ (transaction_at self.now at).entry.done }
    {
        self.all[at].done
    }

    /// How many of its records are noted.
    pub fn noted_count(&self, at: usize) -> u32
        requires { at < length self.now.all }
        ensures { result ≡ (transaction_at self.now at).naming.noted_count }
    {
        self.all[at].noted_count
    }

    /// What is known of its last page.
    pub fn mark(&self, at: usize) -> Mark
        requires { at < length self.now.all }
        ensures { result ≡ (transaction_at self.now at).entry.mark }
    {
        self.all[at].mark
    }

    /// The name that it writes at this place, from 0.
    pub fn name(&self, at: usize, place: u32) -> Link
        requires { HasPlace self.now at place }
        ensures { result ≡ name_at (transaction_at self.now at).naming place }
    {
        self.all[at].pages[place as usize].name
    }

    /// Whether it discards the page there.
    pub fn discards(&self, at: usize, place: u32) -> bool
        requires { HasPlace self.now at place }
        ensures { result ≡ is_none (write_at (transaction_at self.now at).entry place).value }
    {
        self.all[at].pages[place as usize].discard
    }

    /// The bytes that it writes there: zeros where it discards the page.
    pub fn bytes(&self, at: usize, place: u32) -> &[u8]
        requires { HasPlace self.now at place }
        ensures { result.now
            ≡ bytes_in self.now.page_bytes (write_at (transaction_at self.now at).entry place) }
    {
        &self.all[at].pages[place as usize].bytes
    }

    /// Sets how many of its pages are written.
    pub fn set_done_count(&mut self, at: usize, done: u32)
        requires { at < length self.old.all }
        ensures { self.new ≡ with_transaction self.old at (with_done (transaction_at self.old at) done) }
    {
        self.all[at].done = done;
    }

    /// Sets how many of its records are noted.
    pub fn set_noted_count(&mut self, at: usize, count: u32)
        requires { at < length self.old.all }
        ensures { self.new ≡ with_transaction self.old at (with_noted_count (transaction_at self.old at) count) }
    {
        self.all[at].noted_count = count;
    }

    /// Sets what is known of its last page.
    pub fn set_mark(&mut self, at: usize, mark: Mark)
        requires { at < length self.old.all }
        ensures { self.new ≡ with_transaction self.old at (with_mark (transaction_at self.old at) mark) }
    {
        self.all[at].mark = mark;
    }

    /// Takes a transaction away.
    pub fn remove(&mut self, at: usize)
        requires at { at < length self.old.all }
        requires apart { AllPairs (λ a b. ShareNoPage a.names b.names) (namings_of self.old) }
        ensures { self.new ≡ record self.old { all = remove self.old.all at } }
    {
        let Transaction { mut pages, .. } = self.all.remove(at);
        set_owner(&mut self.owners, &pages, None);
        free_pages(&mut pages, &mut self.rooms);
        self.lists.push_reserved(pages);
    }
}

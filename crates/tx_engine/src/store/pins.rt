ghost use Rattle.std.specs.Prelude.{◌≡◌, ◌<◌, All};
ghost use Rattle.judged_records.specs.IndexState.{pinned, unpinned};
ghost use Rattle.tx_engine.specs.Calls.{CanPin};
ghost use Rattle.tx_engine.specs.Naming.{is_spent, with_pins};
ghost use Rattle.open_table.specs.OpenTransactionsState.{transaction_at};
ghost use Rattle.tx_engine.specs.StoreState.{IsStoreState};
ghost use Rattle.array_machine.specs.Submit.{spent_page};

use crate::store::Store;
use array_machine::SubmitError;
use flash_model::Flash;
use open_table::OpenTransactions;
use record_list::CommitRule;
use tx_types::{Batch, MAX_VERSION};

impl<F: Flash, R: CommitRule> Store<F, R> {
    /// Pins a page at a version.
    pub fn pin(&mut self, page: u32, version: u64)
        requires { page < self.old.noted.config.logical }
        ensures { self.new ≡ record self.old { noted = pinned self.old.noted page version } }
    {
        self.index.pin(page, version);
    }

    /// Takes the pin of a page away.
    pub fn unpin(&mut self, page: u32)
        requires { page < self.old.noted.config.logical }
        ensures { self.new ≡ record self.old { noted = unpinned self.old.noted page } }
    {
        self.index.unpin(page);
    }

    /// The refusal of the first page of a batch that has no version left.
    pub(crate) fn spent_refusal(&self, batch: &Batch) -> Option<SubmitError>
        requires { All (λ w. w.page < self.now.noted.config.logical) batch.now.entries }
        ensures { result ≡ spent_page (is_spent self.now.noted.mentions) batch.now.entries }
    {
        let index = self.index();
        for at in 0..batch.len() {
            let page = batch.page(at);
            if MAX_VERSION <= index.mention(page) {
                return Some(SubmitError::Spent(page));
            }
        }
        None
    }

    /// Pins the pages of the transaction at an index, each at the version that the transaction names.
    pub(crate) fn pin_all(&mut self, transactions: &OpenTransactions, at: usize)
        requires stored { IsStoreState F.state R.protocol self.old }
        requires pages { CanPin self.old.noted transactions.now at }
        ensures pinned { self.new ≡ record self.old {
          noted = record self.old.noted {
            pins = with_pins self.old.noted.pins (transaction_at transactions.now at).naming.names;
          };
        } }
        ensures stored { IsStoreState F.state R.protocol self.new }
    {
        for place in 0..transactions.pages(at) {
            let name = transactions.name(at, place);
            self.pin(name.page, name.version);
        }
    }
}

ghost use Rattle.std.specs.Prelude.{◌≡◌, false, [], Ok, IfOk, length, ◌<◌};
ghost use Rattle.tx_types.specs.Config.{checked, IsConfig};
ghost use Rattle.judged_records.specs.IndexState.{current_of};
ghost use Rattle.judged_records.specs.Notes.{found_in};
ghost use Rattle.tx_engine.specs.DeviceCalls.{MountsDevice, ReadsDevice, SubmitsDevice, StepsDevice, AbortsDevice, CollectsDevice, TellsDevice};
ghost use Rattle.tx_engine.specs.DeviceState.{Stands};

mod arms;
mod flush;
mod make_ready;
mod retire;
mod step_all;

use crate::advancing::advance;
use crate::closing::close;
use crate::collecting::collect_settled;
use crate::jobs::JobBuffer;
use crate::settling::settle;
use crate::store::Store;
use array_machine::{
    Aborted, Collected, Fault, Mark, Progress, ReadAnswer, ReadError, StepError, SubmitError,
};
use flash_model::Flash;
use open_table::OpenTransactions;
use record_list::{CommitRule, Found};
pub use retire::RetireError;
use std::alloc::Global;
use std::marker::Model;
use tx_types::{Batch, Config, Memory, Slot, Stats};

/// Why a device was not mounted.
#[derive(Clone, Copy, PartialEq, Eq)]
pub enum MountError {
    /// The flash met a fault.
    Fault,
    /// The image of the flash is not sound: the first law that it breaks, and the slot that the law names.
    Unsound { law: u8, slot: Slot },
    /// There was no memory.
    Memory,
}

/// A device over a flash: an array of logical pages, in which a transaction changes all its pages at once, whatever
/// breaks. After a fault that drops the device only its flash is of use.
#[derive(Drop)]
pub struct Device<F: Flash, R: CommitRule> {
    pub(crate) store: Store<F, R>,
    pub(crate) transactions: OpenTransactions,
    /// Room for the programs that are done together.
    pub(crate) room: JobBuffer,
    /// Whether it met a fault that left more of its flash unknown than its tables can say.
    pub(crate) dropped: bool,
}

impl<F: Flash, R: CommitRule> Model for Device<F, R> {
    ghost use Rattle.tx_engine.specs.DeviceState.{DeviceState};

    ghost Value = { DeviceState F };

    ghost use Rattle.tx_engine.specs.Tables.{device_of, DeviceInvariant};

    ghost view = { device_of F.state };

    ghost invariant = { DeviceInvariant F.state R.protocol };
}

impl<F: Flash, R: CommitRule> Device<F, R> {
    /// Opens a device from its flash alone: it stands for the array of the image, with nothing open. All memory is
    /// taken here. A flash that is not mounted comes back with its image.
    pub fn mount(alloc: Global, flash: F, config: Config) -> Result<Device<F, R>, (F, MountError)>
        requires check { checked config ≡ Ok (F.state flash).shape }
        requires rule { config.protocol ≡ R.protocol }
        ensures { MountsDevice F.state flash config result }
    {
        collector::theorems::image_is_sound::<R>();
        let store = Store::<F, R>::open(alloc, flash, config)?;
        match device_buffers(alloc, store.config()) {
            Ok((transactions, room)) => Ok(Device {
                store,
                transactions,
                room,
                dropped: false,
            }),
            Err(_) => Err((store.close(), MountError::Memory)),
        }
    }

    /// The configuration that the device was mounted with, and what holds of it where it is not dropped.
    pub fn config(&self) -> Config
        requires kept { self.now.dropped ≡ false }
        ensures config { result ≡ self.now.config }
        ensures stands { Stands F.state self.now }
        ensures rule { self.now.config.protocol ≡ R.protocol }
    {
        self.store.config()
    }

    /// The flash, as it stands.
    pub fn flash(&self) -> &F
        ensures { result.now ≡ self.now.flash }
    {
        &self.store.flash
    }

    /// Whether power is on.
    pub fn live(&self) -> bool
        ensures { result ≡ (F.state self.now.flash).live }
    {
        self.store.flash.live()
    }

    /// Reads a logical page into room for a page of bytes, as the array has it. A page that is blank is
    /// answered without the flash, and leaves the room as it was. Any other one takes one read, of the
    /// home of its current record; while it is not known whether a collected block was erased, of that
    /// record's lowest slot outside the block. After a fault the room holds any bytes.
    pub fn read(&mut self, page: u32, into: &mut [u8]) -> Result<ReadAnswer, ReadError>
        requires kept { self.old.dropped ≡ false }
        requires room { length into.old ≡ self.old.config.page_bytes }
        ensures { ReadsDevice F.state self.old self.new page into.old into.new result }
    {
        if page >= self.store.config().logical {
            return Err(ReadError::Range);
        }
        match self.store.read(page, into) {
            Ok(false) => Ok(ReadAnswer::Blank),
            Ok(true) => Ok(ReadAnswer::Page),
            Err(_) => Err(ReadError::Fault),
        }
    }

    /// Opens a transaction, with no page written. Each page is named one version above its greatest mention. The flash
    /// is not touched.
    pub fn submit(&mut self, tag: u32, batch: &Batch) -> Result<(), SubmitError>
        requires kept { self.old.dropped ≡ false }
        requires pages { batch.now.page_bytes ≡ self.old.config.page_bytes }
        ensures { SubmitsDevice self.old self.new tag batch.now.entries result }
    {
        if let Some(refusal) = self.transactions.refusal(tag, batch) {
            return Err(refusal);
        }
        if let Some(spent) = self.store.spent_refusal(batch) {
            return Err(spent);
        }
        self.transactions.open(tag, batch, self.store.index());
        let last = self.transactions.count() as usize - 1;
        self.store.pin_all(&self.transactions, last);
        Ok(())
    }

    /// Writes the next page of the transaction with this tag, if there is one. First it becomes known
    /// what a broken operation left. A page that turns out to be written takes no flash operation more.
    /// Before a page is written, records that must go are cleared away, and where no block has room one
    /// is collected. After a fault the transaction has as many pages written as before.
    pub fn step(&mut self, tag: u32) -> Result<Progress, StepError>
        requires kept { self.old.dropped ≡ false }
        ensures { StepsDevice F.state self.old self.new tag result }
    {
        let Some(at) = self.transactions.position(tag) else {
            return Err(StepError::Unknown);
        };
        let Ok(()) = settle(&mut self.store, &mut self.transactions) else {
            return Err(StepError::Fault);
        };
        let Ok(progress) = advance(&mut self.store, &mut self.transactions, at) else {
            return Err(StepError::Fault);
        };
        Ok(progress)
    }

    /// Gives up the transaction with this tag, if there is one. First it becomes known what a broken
    /// operation left: it is too late where the transaction turns out to be whole. The flash is only
    /// read: as many slots as were not known. After a fault all is as before but the flash, whose
    /// slots stay.
    pub fn abort(&mut self, tag: u32) -> Result<Aborted, StepError>
        requires kept { self.old.dropped ≡ false }
        ensures { AbortsDevice F.state self.old self.new tag result }
    {
        let Some(at) = self.transactions.position(tag) else {
            return Err(StepError::Unknown);
        };
        let Ok(()) = settle(&mut self.store, &mut self.transactions) else {
            return Err(StepError::Fault);
        };
        let aborted = match self.transactions.mark(at) {
            Mark::Whole => Aborted::Late,
            Mark::Plain | Mark::Doubt => Aborted::Gone,
        };
        close(&mut self.store, &mut self.transactions, at);
        Ok(aborted)
    }

    /// Collects the block with the most garbage, if there is any. First it becomes known what a broken
    /// operation left, and the spare is made blank. After a fault it is not known what a broken
    /// operation left, as before, or that is known and the blocks are kept as they were then.
    pub fn collect(&mut self) -> Result<Collected, Fault>
        requires kept { self.old.dropped ≡ false }
        ensures { CollectsDevice F.state self.old self.new result }
    {
        let Ok(()) = settle(&mut self.store, &mut self.transactions) else {
            return Err(Fault);
        };
        let Ok(collected) = collect_settled(&mut self.store, &self.transactions) else {
            return Err(Fault);
        };
        Ok(collected)
    }

    /// The current version of a page, 0 for none. It rises whenever the array takes the page.
    pub fn version(&self, page: u32) -> u64
        requires kept { self.now.dropped ≡ false }
        requires page { page < self.now.config.logical }
        ensures { result ≡ current_of self.now.noted page }
    {
        self.store.version(page)
    }

    /// The numbers of the device.
    pub fn stats(&self) -> Stats
        requires kept { self.now.dropped ≡ false }
        ensures { TellsDevice F.state self.now result }
    {
        Stats {
            written: self.store.count_written(),
            tags: self.transactions.count(),
            pending: self.transactions.pending(),
            programs: self.store.flash.programs(),
            erases: self.store.flash.erases(),
            garbage: self.store.garbage(),
        }
    }

    /// The records that are noted, in the order of their slots.
    pub fn noted_records(&self) -> Result<Vec<Found>, Memory>
        requires kept { self.now.dropped ≡ false }
        ensures { IfOk result (λ list. list.items ≡ found_in self.now.noted.notes) }
    {
        self.store.noted_records()
    }

    /// Ends the device, and gives its flash as it stands.
    pub fn close(self) -> F
        ensures { result ≡ self.flash }
    {
        self.store.close()
    }
}

/// What a device keeps beside its store, with no transaction open.
fn device_buffers(alloc: Global, config: Config) -> Result<(OpenTransactions, JobBuffer), Memory>
    requires { IsConfig config }
    ensures { IfOk result (λ rooms. rooms.0 ≡ record {
      page_bytes = config.page_bytes;
      logical = config.logical;
      pending = config.pending;
      all = [];
    }) }
{
    let room = JobBuffer::new(alloc)?;
    let transactions = OpenTransactions::new(alloc, config)?;
    Ok((transactions, room))
}

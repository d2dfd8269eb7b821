ghost use Rattle.std.specs.Prelude.{◌≡◌, ◌<◌, Ok, length, IfErr, IfOk, OnOk};
ghost use Rattle.tx_types.specs.Config.{checked};
ghost use Rattle.flash_model.specs.Operations.{moment_of};
ghost use Rattle.judged_records.specs.Images.{IsSoundImage};
ghost use Rattle.collector.specs.Calls.{CollectsVictim};
ghost use Rattle.collector.specs.Matches.{CanTake};
ghost use Rattle.collector.specs.StoreParts.{IsSure};
ghost use Rattle.scan_recovery.specs.Opening.{IsOpened};
ghost use Rattle.scan_recovery.specs.Reading.{ReadsAll};
ghost use Rattle.tx_engine.specs.Opens.{mount_reads, FailsToMount, ReadsUnmounted};
ghost use Rattle.tx_engine.specs.Read.{ReadsKnown};
ghost use Rattle.tx_engine.specs.StoreCalls.{CanClear, CanFind, ClearsStored, FindsStored, OpensStore, PlacesPage, SettlesStored};
ghost use Rattle.tx_engine.specs.StoreState.{CanWrite, IsStoreState, WritesOwn, store_in};

mod arms;
mod counts;
mod flush;
mod pins;
mod registers;
mod retire;
mod room;

use crate::MountError;
use crate::programming::write_record;
use collector::{BlockBuffer, Settled, Unsure, collect_victim, theorems};
use die_alloc::Blocks;
use flash_model::{Broken, Flash};
use record_list::CommitRule;
use scan_recovery::{RecoverError, recover};
use std::alloc::Global;
use std::marker::Model;
use std::mem::drop;
use tx_types::{Config, Memory, Rec, Shape, Slot};
use version_index::Index;

/// A flash with its tables. Where they match it they do so still after each call here, whatever breaks.
#[derive(Drop)]
pub struct Store<F: Flash, R: CommitRule> {
    alloc: Global,
    pub(crate) flash: F,
    pub(crate) index: Index<R>,
    pub(crate) blocks: Blocks,
    pub(crate) unsure: Unsure,
    /// Room for one page.
    pub(crate) room: Vec<u8>,
    /// Room for the blocks that are cleared.
    pub(crate) going: BlockBuffer,
}

impl<F: Flash, R: CommitRule> Model for Store<F, R> {
    ghost use Rattle.tx_engine.specs.StoreState.{StoreState};

    ghost Value = { StoreState F };

    ghost use Rattle.tx_engine.specs.StoreTables.{stored_of, StoreInvariant};

    ghost view = { stored_of };

    ghost invariant = { StoreInvariant };
}

impl<F: Flash, R: CommitRule> Store<F, R> {
    /// Opens a flash: the tables of its image. The flash comes back where it can't be opened.
    pub fn open(alloc: Global, mut flash: F, config: Config) -> Result<Store<F, R>, (F, MountError)>
        requires check { checked config ≡ Ok (F.state flash).shape }
        requires rule { config.protocol ≡ R.protocol }
        ensures { OpensStore F.state R.protocol flash config result }
    {
        theorems::opened_tables_match();
        let Ok((room, going)) = buffers(alloc, flash.shape()) else {
            return Err((flash, MountError::Memory));
        };
        match recover_tables(alloc, &mut flash, config) {
            Ok((index, blocks)) => Ok(Store {
                alloc,
                flash,
                index,
                blocks,
                unsure: Unsure::Nothing,
                room,
                going,
            }),
            Err(error) => Err((flash, error)),
        }
    }

    /// The configuration.
    pub fn config(&self) -> Config
        ensures config { result ≡ self.now.noted.config }
    {
        self.index.config()
    }

    /// The tables.
    pub fn index(&self) -> &Index<R>
        ensures { result.now ≡ self.now.noted }
    {
        &self.index
    }

    /// The flash, as it stands.
    pub fn flash(&self) -> &F
        ensures { result.now ≡ self.now.flash }
    {
        &self.flash
    }

    /// The place whose contents are not known.
    pub fn unsure(&self) -> Unsure
        ensures { result ≡ self.now.unsure }
    {
        self.unsure
    }

    /// Reads a page that is not blank into room for a page of bytes: whether it is not. A blank one is
    /// answered without the flash. While the erase of a collected block is unsure, a
    /// page whose record stands there is read from its copy.
    pub fn read(&mut self, page: u32, into: &mut [u8]) -> Result<bool, Broken>
        requires stored { IsStoreState F.state R.protocol self.old }
        requires page { page < self.old.noted.config.logical }
        requires room { length into.old ≡ self.old.noted.config.page_bytes }
        ensures reads { ReadsKnown F.state self.old self.new page into.old into.new result }
        ensures stays { self.new ≡ record self.old { flash = self.new.flash } }
    {
        let Some(at) = self.place_of(page) else {
            return Ok(false);
        };
        let mut spare_area = [0; 64];
        self.flash.read(at, into, &mut spare_area)?;
        Ok(true)
    }

    /// The slot from which a page is read, if it is not blank. While the erase of a collected block
    /// is unsure it lies outside that block.
    fn place_of(&self, page: u32) -> Option<Slot>
        requires stored { IsStoreState F.state R.protocol self.now }
        requires page { page < self.now.noted.config.logical }
        ensures { PlacesPage F.state self.now page result }
    {
        theorems::known_image_is_sound::<R>();
        if self.index.discards(page) {
            return None;
        }
        match self.unsure {
            Unsure::VictimErase { block } => self.index.locate_off(page, block),
            Unsure::Nothing | Unsure::Own { .. } | Unsure::Copy { .. } | Unsure::SpareErase => {
                self.index.locate(page)
            }
        }
    }

    /// Finds out what a broken operation left, if there was one. The image stays. After a failed
    /// read all is as before.
    pub fn settle(&mut self) -> Result<Settled, Broken>
        requires stored { IsStoreState F.state R.protocol self.old }
        requires own { CanTake self.old.noted self.old.table self.old.unsure }
        ensures { SettlesStored F.state self.old self.new result }
    {
        if self.unsure == Unsure::Nothing {
            return Ok(Settled::Other);
        }
        collector::settle(
            &mut self.flash,
            &mut self.index,
            &mut self.blocks,
            &mut self.unsure,
            &mut self.room,
        )
    }

    /// Makes the spare blank and collects the block with the most garbage: whether there is any.
    pub fn collect(&mut self) -> Result<bool, Broken>
        requires { IsSure R.protocol (store_in F.state self.old) }
        ensures { CollectsVictim R.protocol (store_in F.state self.old) (store_in F.state self.new)
            result }
    {
        collect_victim(
            &mut self.flash,
            &mut self.index,
            &mut self.blocks,
            &mut self.unsure,
            &mut self.room,
        )
    }

    /// Evicts each block that holds a record which must go before the version `below` of a page is programmed.
    pub fn evict_blocks_to_go(&mut self, page: u32, below: u64) -> Result<(), Broken>
        requires { CanClear F.state R.protocol self.old
            (record { page = page; version = below }) }
        ensures { ClearsStored F.state R.protocol self.old self.new page below result }
    {
        collector::evict_blocks_to_go(
            &mut self.flash,
            &mut self.index,
            &mut self.blocks,
            &mut self.unsure,
            &mut self.room,
            &mut self.going,
            page,
            below,
        )
    }

    /// The slot that is programmed next. Where no block has room one is collected first.
    pub fn allocate_slot(&mut self) -> Result<Slot, Broken>
        requires { CanFind F.state R.protocol self.old }
        ensures { FindsStored F.state R.protocol self.old self.new result }
    {
        collector::allocate_slot(
            &mut self.flash,
            &mut self.index,
            &mut self.blocks,
            &mut self.unsure,
            &mut self.room,
        )
    }

    /// Programs a record with its page's bytes in the first free slot of a block, and notes it.
    /// After a broken program it is not known what the slot holds.
    pub fn write(&mut self, at: Slot, rec: Rec, bytes: &[u8]) -> Result<(), Broken>
        requires sure { IsSure R.protocol (store_in F.state self.old) }
        requires can { CanWrite (store_in F.state self.old) at rec bytes.now }
        ensures { WritesOwn (store_in F.state self.old) (store_in F.state self.new)
            at rec bytes.now result }
    {
        write_record(
            &mut self.flash,
            &mut self.index,
            &mut self.blocks,
            &mut self.unsure,
            at,
            rec,
            bytes,
        )
    }

    /// The flash, as it stands.
    pub fn close(self) -> F
        ensures { result ≡ self.flash }
    {
        drop(self.index);
        drop(self.blocks);
        self.flash
    }
}

/// Room for one page, and for the blocks that are cleared.
fn buffers(alloc: Global, shape: Shape) -> Result<(Vec<u8>, BlockBuffer), Memory>
    ensures { IfOk result (λ rooms. length rooms.0.items ≡ shape.page_bytes) }
{
    let room = vec![in alloc; 0; shape.page_bytes as usize]?;
    let going = BlockBuffer::new(alloc)?;
    Ok((room, going))
}

/// The tables of the image of a flash, or why it can't be opened.
fn recover_tables<F: Flash, R: CommitRule>(
    alloc: Global,
    flash: &mut F,
    config: Config,
) -> Result<(Index<R>, Blocks), MountError>
    requires check { checked config ≡ Ok (F.state flash.old).shape }
    requires rule { config.protocol ≡ R.protocol }
    ensures sound { let old = F.state flash.old in
        OnOk result (IsSoundImage R.protocol config.logical old.shape old.image) }
    ensures tables { IfOk result (λ opened.
        IsOpened config (F.state flash.old).image opened.0 opened.1) }
    ensures moment { moment_of (F.state flash.new) ≡ moment_of (F.state flash.old) }
    ensures reads { let old = F.state flash.old in
        OnOk result (ReadsAll old (F.state flash.new) (mount_reads config old)) }
    ensures started { (F.state flash.new).started ≡ (F.state flash.old).started }
    ensures failed { IfErr result (FailsToMount F.state flash.old config flash.new) }
    ensures reads_failed { IfErr result (ReadsUnmounted F.state flash.old config flash.new) }
{
    match recover(alloc, flash, config) {
        Ok(tables) => Ok(tables),
        Err(RecoverError::Fault) => Err(MountError::Fault),
        Err(RecoverError::Unsound { law, slot }) => Err(MountError::Unsound { law, slot }),
        Err(RecoverError::Memory) => Err(MountError::Memory),
    }
}

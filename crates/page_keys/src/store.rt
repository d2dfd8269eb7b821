ghost use Rattle.std.specs.FinMap.{get};
ghost use Rattle.std.specs.List.{AllByRecursion};
ghost use Rattle.std.specs.Prelude.{◌≡◌, ◌<◌, ◌≤◌, ◌+◌, ◌^◌, ◌⊎◌, [], Ok, Err, None, Some, false, true, length, All, IfOk, IfErr, IfSome, OnOk, OnErr};
ghost use Rattle.std.specs.Result.{is_err};
ghost use Rattle.array_machine.specs.ArrayState.{put};
ghost use Rattle.array_machine.specs.Submit.{first_refusals};
ghost use Rattle.flash_model.specs.Arms.{ArmsCut};
ghost use Rattle.tx_engine.specs.Always.{HoldsAlways};
ghost use Rattle.tx_engine.specs.DeviceState.{limits_of};
ghost use Rattle.page_keys.specs.Buckets.{EncodesMap, AreBuckets};
ghost use Rattle.page_keys.specs.Entries.{GivesValue};
ghost use Rattle.page_keys.specs.KeyMaps.{KeyMap};
ghost use Rattle.page_keys.specs.PutAnswers.{PutGives, ReadsFirst};
ghost use Rattle.page_keys.specs.Puts.{IsKeyChange};
ghost use Rattle.page_keys.specs.Putting.{is_put_fault};
ghost use Rattle.page_keys.specs.Stores.{HasKeys, OnlyReads, OpensNot, is_opening_fault};
ghost use Rattle.page_keys.specs.Writing.{Writes, WritesNot};

use crate::answers::{KeyError, PutError};
use crate::changes::Changes;
use crate::hashing::bucket;
use crate::pages::{check_all, read_page};
use crate::putting::{Scratch, rewrite_all};
use crate::reading::value_in;
use crate::refusals::check_changes;
use crate::short_bytes::MAX_SHORT;
use crate::writing;
use flash_model::{Arms, Flash, Outcome};
use record_list::CommitRule;
use std::alloc::Global;
use std::marker::Model;
use tx_engine::{Device, Fault, device_facts};
use tx_types::{Batch, Config};

/// A store of short keys over a device: a map, of which a put changes all its keys at once, whatever breaks.
#[derive(Drop)]
pub struct KeyStore<F: Flash, R: CommitRule> {
    pub(crate) alloc: Global,
    pub(crate) device: Device<F, R>,
    /// Room for a page.
    pub(crate) room: Vec<u8>,
    pub(crate) scratch: Scratch,
    /// Whether a call met a fault.
    pub(crate) broken: bool,
}

impl<F: Flash, R: CommitRule> Model for KeyStore<F, R> {
    ghost use Rattle.page_keys.specs.Stores.{KeyStoreState};

    ghost Value = { KeyStoreState F };

    ghost use Rattle.page_keys.specs.StoreParts.{keyed_in, KeyStoreInvariant};

    ghost view = { keyed_in };

    ghost invariant = { KeyStoreInvariant };
}

impl<F: Flash, R: CommitRule> KeyStore<F, R> {
    /// The store that a device shows on which nothing is open: each page is a bucket. A device that is not taken comes
    /// back, with the least page that is none.
    pub fn over(
        alloc: Global,
        device: Device<F, R>,
    ) -> Result<KeyStore<F, R>, (Device<F, R>, KeyError)>
        requires kept { device.dropped ≡ false }
        requires closed { device.machine.entries ≡ [] }
        ensures keys { IfOk result (λ s. HasKeys s.device × (s.broken ≡ false)) }
        ensures opened { IfOk result (λ s. OnlyReads F.state device s.device false) }
        ensures cause { IfErr result (λ e. OpensNot device e.1) }
        ensures back { IfErr result (λ e. OnlyReads F.state device e.0 (is_opening_fault e.1)) }
    {
        let mut device = device;
        let page_bytes = device_facts(&device).page_bytes;
        let Ok(mut room) = vec![in alloc; 0; page_bytes as usize] else {
            return Err((device, KeyError::Memory));
        };
        match check_all(alloc, &mut device, &mut room) {
            Ok(()) => Ok(KeyStore {
                alloc,
                device,
                room,
                scratch: Scratch::new(alloc),
                broken: false,
            }),
            Err(e) => Err((device, e)),
        }
    }

    /// The configuration of the device, and what holds of the store at every moment.
    pub fn config(&self) -> Config
        ensures config { result ≡ self.now.device.config }
        ensures always { HoldsAlways F.state R.protocol self.now.device }
        ensures keys { self.now.broken ≡ false → HasKeys self.now.device }
    {
        device_facts(&self.device)
    }

    /// The number of bytes of a key's value, which are copied to the front of the room; none where the key is absent.
    pub fn get(&mut self, key: &[u8], into: &mut [u8; 15]) -> Result<Option<usize>, Fault>
        requires { self.old.broken ≡ false }
        ensures gives { IfOk result (λ found. (m : KeyMap) →
            EncodesMap self.old.device.config self.old.device.machine.pages m →
            GivesValue (get m key.now) found into.old into.new) }
        ensures few { IfOk result (λ found. IfSome found (λ len. len ≤ MAX_SHORT)) }
        ensures reads { OnlyReads F.state self.old.device self.new.device (is_err result) }
        ensures usable { self.new.broken ≡ false }
        ensures once { (F.state self.new.device.flash).reads
            ≤ (F.state self.old.device.flash).reads + 1 }
    {
        let page = bucket(key, device_facts(&self.device).logical);
        read_page(&mut self.device, &mut self.room, page)?;
        Ok(value_in(&self.room, key, into))
    }

    /// Makes all changes at once, in their order. A put that is refused, or that finds no memory, changes nothing;
    /// where the flash met a fault, all changes are made or none is, and only `live` and `close` may follow.
    pub fn put(&mut self, changes: &Changes) -> Result<(), PutError>
        requires usable { self.old.broken ≡ false }
        requires keys { AllByRecursion IsKeyChange changes.now }
        requires few { length changes.now < 2 ^ 32 }
        ensures gives { (m : KeyMap) →
            EncodesMap self.old.device.config self.old.device.machine.pages m →
            PutGives F.state self.old self.new m changes.now result }
        ensures reads { ReadsFirst F.state self.old self.new changes.now result }
    {
        let config = device_facts(&self.device);
        let list = changes.as_slice();
        let pages = check_changes(self.alloc, config, list)?;
        match rewrite_all(
            self.alloc,
            &mut self.device,
            &mut self.room,
            &mut self.scratch,
            &pages,
            list,
        ) {
            Ok(batch) => self.write(&batch),
            Err(e) => {
                self.broken = e.is_fault();
                Err(e)
            }
        }
    }

    /// Writes the pages of a put.
    fn write(&mut self, batch: &Batch) -> Result<(), PutError>
        requires closed { self.old.device.machine.entries ≡ [] }
        requires size { batch.now.page_bytes ≡ self.old.device.config.page_bytes }
        requires fits { first_refusals (limits_of self.old.device.config) [] 0 batch.now.entries
            ≡ None }
        requires keys { AreBuckets self.old.device.config
            (put self.old.device.machine.pages batch.now.entries) }
        requires buckets { HasKeys self.old.device }
        ensures written { OnOk result
            (Writes F.state self.old.device self.new.device batch.now.entries) }
        ensures usable { OnOk result (self.new.broken ≡ false) }
        ensures not_written { IfErr result
            (WritesNot F.state self.old.device self.new.device batch.now.entries) }
        ensures broken { IfErr result (λ e. self.new.broken ≡ is_put_fault e) }
    {
        match writing::write(&mut self.device, batch) {
            Ok(()) => {
                self.broken = false;
                Ok(())
            }
            Err(e) => {
                self.broken = e.is_fault();
                Err(e)
            }
        }
    }

    /// Whether power is on.
    pub fn live(&self) -> bool
        ensures { result ≡ (F.state self.now.device.flash).live }
    {
        self.device.live()
    }

    /// The device, as it stands.
    pub fn close(self) -> Device<F, R>
        ensures { result ≡ self.device }
    {
        let KeyStore { device, .. } = self;
        device
    }
}

impl<F: Arms, R: CommitRule> KeyStore<F, R> {
    /// A program or an erase from now on, the one of this number from 1, will be cut with this outcome.
    pub fn arm_cut(&mut self, count: u32, outcome: Outcome)
        requires usable { self.old.broken ≡ false }
        requires count { 1 ≤ count }
        ensures arms { ArmsCut (F.state self.old.device.flash) (F.state self.new.device.flash)
            count outcome }
        ensures stays { self.new ≡ record self.old {
          device = record self.old.device { flash = self.new.device.flash };
        } }
    {
        self.device.arm_cut(count, outcome);
    }
}

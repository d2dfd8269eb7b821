ghost use Rattle.std.specs.Prelude.{◌≡◌, ◌<◌, ◌≤◌, [], length, replicate, slice_set, Some, None, false, IfOk, IfSome};
ghost use Rattle.std.specs.List.{slice_get};
ghost use Rattle.tx_types.specs.Config.{IsShape, slots_of};
ghost use Rattle.slot_tables.specs.BaseTables.{tables_state};
ghost use Rattle.slot_tables.specs.Copies.{NumbersBelow};
ghost use Rattle.slot_tables.specs.TablesState.{record_at, numbers_at, added, blank_tables, IsTablesState, IsNewest};
ghost use Rattle.slot_tables.specs.Versions.{HasFree};
ghost use Rattle.slot_tables.specs.declared.slots.SlotUse.TheVariants as slot;

use crate::Tables;
use crate::base_tables::BaseTables;
use crate::block_counts::BlockCounts;
use crate::current::Current;
use crate::records::Records;
use crate::responsibilities::Responsibilities;
use crate::slots::{SlotUse, Slots};
use crate::wait_list::WaitList;
use std::alloc::{AllocError, Global};
use std::marker::Model;
use tx_types::{Rec, Shape, Slot};

/// Tables that are being filled. Which slots are needed is not kept step by step, but found at the end.
#[derive(Drop)]
pub struct TablesBuilder {
    base: BaseTables,
    blanks: BlockCounts,
}

impl Model for TablesBuilder {
    ghost use Rattle.slot_tables.specs.TablesState.{TablesState};

    ghost Value = { TablesState };

    ghost use Rattle.slot_tables.specs.TablesBuilder.{builder_of, TablesBuilderInvariant};

    ghost view = { builder_of };

    ghost invariant = { TablesBuilderInvariant };
}

/// The tables of the current records, of what slots hold and of the records, while there is none.
fn record_tables(
    alloc: Global,
    logical: u32,
    slots: u32,
) -> Result<(Current, Slots, Records), AllocError>
    requires pages { logical ≤ 65536 }
    requires slots { slots ≤ 65536 }
    ensures current { IfOk result (λ t. t.0 ≡ replicate logical None) }
    ensures slots { IfOk result (λ t. t.1 ≡ replicate slots slot.Blank) }
    ensures records { IfOk result (λ t. t.2 ≡ record { records = replicate slots None; pages = replicate logical [] }) }
{
    Ok((
        Current::new(alloc, logical)?,
        Slots::new(alloc, slots)?,
        Records::new(alloc, logical, slots)?,
    ))
}

/// The tables of pins, of closed blocks, of answers and of waits, while there are none.
fn answer_tables(
    alloc: Global,
    logical: u32,
    blocks: u32,
    slots: u32,
) -> Result<(Vec<u64>, Vec<bool>, Responsibilities, WaitList), AllocError>
    requires pages { logical ≤ 65536 }
    requires slots { slots ≤ 65536 }
    ensures pins { IfOk result (λ t. t.0.items ≡ replicate logical 0) }
    ensures closed { IfOk result (λ t. t.1.items ≡ replicate blocks false) }
    ensures answers { IfOk result (λ t. t.2 ≡ replicate slots None) }
    ensures waits { IfOk result (λ t. t.3 ≡ record { pages = logical; waits = replicate slots None }) }
{
    Ok((
        vec![in alloc; 0; logical as usize]?,
        vec![in alloc; false; blocks as usize]?,
        Responsibilities::new(alloc, slots)?,
        WaitList::new(alloc, logical, slots)?,
    ))
}

/// What the tables are given of a flash with nothing but blank slots.
fn blank_base_tables(alloc: Global, shape: Shape, logical: u32) -> Result<BaseTables, AllocError>
    requires shape { IsShape shape }
    requires pages { logical ≤ slots_of shape }
    ensures kept { IfOk result (λ g. tables_state g ≡ blank_tables shape logical) }
    ensures waits { IfOk result (λ g. g.waits.pages ≡ logical) }
    ensures spare { IfOk result (λ g. g.spare ≡ None) }
{
    let count = shape.slots();
    let (pins, closed, answers, waits) = answer_tables(alloc, logical, shape.blocks(), count)?;
    match record_tables(alloc, logical, count) {
        Ok((current, slots, records)) => Ok(BaseTables {
            shape,
            slots,
            records,
            current,
            answers,
            waits,
            pins,
            spare: None,
            closed,
        }),
        Err(error) => {
            drop(answers);
            drop(waits);
            Err(error)
        }
    }
}

impl TablesBuilder {
    /// The tables of a flash with nothing but blank slots, for this many logical pages.
    pub fn new(alloc: Global, shape: Shape, logical: u32) -> Result<TablesBuilder, AllocError>
        requires shape { IsShape shape }
        requires pages { logical ≤ slots_of shape }
        ensures { IfOk result (λ t. t ≡ blank_tables shape logical) }
    {
        let blanks = BlockCounts::new(alloc, shape.blocks(), shape.pages_per_block, true)?;
        let base = blank_base_tables(alloc, shape, logical)?;
        Ok(TablesBuilder { base, blanks })
    }

    /// The shape of the flash.
    pub fn shape(&self) -> Shape
        ensures shape { result ≡ self.now.shape }
        ensures kept { IsTablesState self.now }
    {
        self.base.shape
    }

    /// The record of a number.
    pub fn record(&self, number: u32) -> Option<Rec>
        requires { number < slots_of self.now.shape }
        ensures { result ≡ record_at self.now.records number }
    {
        self.base.records.get(number)
    }

    /// The number of the newest record of a page.
    pub fn newest(&self, page: u32) -> Option<u32>
        requires { page < length self.now.pages }
        ensures newest { result ≡ slice_get (numbers_at self.now.pages page) 0 }
        ensures within { IfSome result (λ number. number < slots_of self.now.shape) }
    {
        self.base.records.newest(page)
    }

    /// Gives a record, newer than those of its page, a number that has none.
    pub fn add(&mut self, rec: &Rec) -> u32
        requires page { rec.now.page < length self.old.pages }
        requires free { HasFree self.old.records }
        requires newest { IsNewest self.old.records rec.now }
        ensures free { record_at self.old.records result ≡ None }
        ensures within { result < slots_of self.old.shape }
        ensures added { self.new ≡ added self.old result rec.now }
    {
        self.base.records.add(rec)
    }

    /// Sets what a slot holds. Where it is a record this goes through its copies below the slot.
    #[inline(always)]
    pub fn set_slot(&mut self, at: Slot, to: SlotUse)
        requires slot { at.0 < slots_of self.old.shape }
        requires number { NumbersBelow (slots_of self.old.shape) to }
        ensures { self.new ≡ record self.old { slots = slice_set self.old.slots at.0 to } }
    {
        if to.is_blank() && self.base.slots.get(at.0).is_blank() {
            return;
        }
        self.change_slot(at, to);
    }

    /// Sets what a slot holds, where it is not to stay blank.
    #[inline(always)]
    fn change_slot(&mut self, at: Slot, to: SlotUse)
        requires slot { at.0 < slots_of self.old.shape }
        requires number { NumbersBelow (slots_of self.old.shape) to }
        ensures { self.new ≡ record self.old { slots = slice_set self.old.slots at.0 to } }
    {
        self.base.slots.set(at.0, to);
        self.blanks.set(at.0, to.is_blank());
    }

    /// Sets which record of a page is current.
    pub fn set_current(&mut self, page: u32, to: Option<u32>)
        requires page { page < length self.old.pages }
        requires number { IfSome to (λ number. number < slots_of self.old.shape) }
        ensures { self.new ≡ record self.old { current = slice_set self.old.current page to } }
    {
        self.base.current.set(page, to);
    }

    /// Sets which record answers for a record.
    pub fn set_answerer(&mut self, number: u32, to: Option<u32>)
        requires number { number < slots_of self.old.shape }
        requires answerer { IfSome to (λ other. other < slots_of self.old.shape) }
        ensures { self.new
            ≡ record self.old { answerers = slice_set self.old.answerers number to } }
    {
        self.base.answers.set(number, to);
    }

    /// Sets for which page a record waits.
    pub fn set_waits(&mut self, number: u32, to: Option<u32>)
        requires number { number < slots_of self.old.shape }
        requires page { IfSome to (λ page. page < length self.old.pages) }
        ensures { self.new ≡ record self.old { waits = slice_set self.old.waits number to } }
    {
        self.base.waits.set(number, to);
    }

    /// The tables, once they are filled.
    pub fn finish(self, alloc: Global) -> Result<Tables, AllocError>
        ensures { IfOk result (λ t. t ≡ self) }
    {
        let TablesBuilder { base, blanks } = self;
        match base.find_needs(alloc, blanks) {
            Ok(live) => Ok(Tables { base, live }),
            Err(error) => {
                drop(base);
                Err(error)
            }
        }
    }
}

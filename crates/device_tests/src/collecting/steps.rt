//! What the steps of a line do.

ghost use Rattle.std.specs.Prelude.{◌≡◌, ◌<◌, IfSome, IsTrue, Ok};
ghost use Rattle.tx_types.specs.Config.{checked, shape_of, blocks_of};
ghost use Rattle.mem_flash.specs.MemFlashState.{state_of};
ghost use Rattle.judged_records.specs.IndexState.{IndexState};
ghost use Rattle.die_alloc.specs.BlocksState.{BlocksState};
ghost use Rattle.collector.specs.Collecting.{HasUnneeded};
ghost use Rattle.collector.specs.Matches.{Matches, CanTake};

use crate::building::{has_block, is_armed};
use crate::texts::{number, word};
use collector::{Settled, Unsure, clean_spare, collect, settle, theorems, victim};
use die_alloc::Blocks;
use flash_model::{Flash, Power};
use mem_flash::MemFlash;
use record_list::CommitRule;
use scan_recovery::recover;
use std::alloc::Global;
use tx_types::{Block, Config, Slot};
use version_index::Index;

/// A flash, and what is kept of it.
#[derive(Drop)]
pub struct Kept<R: CommitRule> {
    pub flash: MemFlash,
    pub index: Index<R>,
    pub blocks: Blocks,
    pub unsure: Unsure,
}

/// The tables of a flash, from what it holds.
pub fn opened<R: CommitRule>(alloc: Global, mut flash: MemFlash, config: Config) -> Option<Kept<R>>
    requires check { checked config ≡ Ok flash.shape }
    requires rule { config.protocol ≡ R.protocol }
    ensures matches { IfSome result (λ kept.
        Matches (state_of kept.flash) kept.index kept.blocks kept.unsure) }
    ensures config { IfSome result (λ kept. kept.index.config ≡ config) }
{
    theorems::opened_tables_match();
    // For the proof: the flash is whole.
    let _ = flash.shape();
    match recover::<MemFlash, R>(alloc, &mut flash, config) {
        Ok((index, blocks)) => Some(Kept {
            flash,
            index,
            blocks,
            unsure: Unsure::Nothing,
        }),
        Err(_) => {
            drop(flash);
            None
        }
    }
}

/// Whether the contents of each slot are known.
pub fn is_sure(unsure: Unsure) -> bool
    ensures { IsTrue result → unsure ≡ Unsure.Nothing }
{
    match unsure {
        Unsure::Nothing => true,
        Unsure::Own { .. } | Unsure::Copy { .. } => false,
        Unsure::SpareErase | Unsure::VictimErase { .. } => false,
    }
}

/// Whether it is not the program of a transaction's record that was broken.
fn is_collection(unsure: Unsure) -> bool
    ensures { IsTrue result → (n : IndexState) (t : BlocksState) → CanTake n t unsure }
{
    match unsure {
        Unsure::Own { .. } => false,
        Unsure::Nothing | Unsure::Copy { .. } => true,
        Unsure::SpareErase | Unsure::VictimErase { .. } => true,
    }
}

/// Whether this slot of a block is not needed.
fn has_unneeded<R: CommitRule>(index: &Index<R>, block: Block, at: u32) -> bool
    requires { block.0 < blocks_of (shape_of index.now.config) }
    ensures { IsTrue result → HasUnneeded index.now block.0 }
{
    let pages = index.config().pages_per_block;
    at < pages && !index.needed(Slot(block.0 * pages + at))
}

/// What is told of a step that can't be taken.
const IMPOSSIBLE: char = '?';

/// What is told of a call that was answered or broken.
fn told(answered: bool) -> char {
    if answered { '+' } else { '-' }
}

/// Makes the call that a step says: `clean` makes the spare blank, `collect 0 1` collects a block of which a slot is
/// not needed, `settle` finds out what a broken operation left, `choose` asks which block is to be collected, and
/// after `reopen` power is back and the tables are made from the flash alone.
fn answer<R: CommitRule>(alloc: Global, kept: &mut Kept<R>, step: &str) -> char
    requires matches { Matches (state_of kept.old.flash)
        kept.old.index kept.old.blocks kept.old.unsure }
    requires rule { kept.old.index.config.protocol ≡ R.protocol }
    requires page { kept.old.index.config.page_bytes ≡ 16 }
    ensures matches { Matches (state_of kept.new.flash)
        kept.new.index kept.new.blocks kept.new.unsure }
    ensures config { kept.new.index.config ≡ kept.old.index.config }
{
    match word(step, 0) {
        "clean" => clean(kept),
        "collect" => collect_block(kept, Block(number(step, 1)), number(step, 2)),
        "settle" => settle_it(kept),
        "choose" => choose(kept),
        "reopen" => reopen(alloc, kept),
        _ => IMPOSSIBLE,
    }
}

/// Takes one step. Says of a call whether it was answered (`+`) or broken (`-`), or what, and of one that can't be made
/// that it can't. Returns whether there was memory.
pub fn take<R: CommitRule>(alloc: Global, kept: &mut Kept<R>, step: &str, text: &mut String) -> bool
    requires matches { Matches (state_of kept.old.flash)
        kept.old.index kept.old.blocks kept.old.unsure }
    requires rule { kept.old.index.config.protocol ≡ R.protocol }
    requires page { kept.old.index.config.page_bytes ≡ 16 }
    ensures matches { Matches (state_of kept.new.flash)
        kept.new.index kept.new.blocks kept.new.unsure }
    ensures config { kept.new.index.config ≡ kept.old.index.config }
{
    is_armed(&mut kept.flash, step) || text.push(answer(alloc, kept, step)).is_ok()
}

/// Makes the spare blank.
fn clean<R: CommitRule>(kept: &mut Kept<R>) -> char
    requires matches { Matches (state_of kept.old.flash)
        kept.old.index kept.old.blocks kept.old.unsure }
    requires rule { kept.old.index.config.protocol ≡ R.protocol }
    ensures matches { Matches (state_of kept.new.flash)
        kept.new.index kept.new.blocks kept.new.unsure }
    ensures config { kept.new.index.config ≡ kept.old.index.config }
{
    if !is_sure(kept.unsure) {
        return IMPOSSIBLE;
    }
    let result = clean_spare(
        &mut kept.flash,
        &mut kept.index,
        &mut kept.blocks,
        &mut kept.unsure,
    );
    told(result.is_ok())
}

/// Collects a block, of which this slot is not needed.
fn collect_block<R: CommitRule>(kept: &mut Kept<R>, block: Block, at: u32) -> char
    requires matches { Matches (state_of kept.old.flash)
        kept.old.index kept.old.blocks kept.old.unsure }
    requires rule { kept.old.index.config.protocol ≡ R.protocol }
    requires page { kept.old.index.config.page_bytes ≡ 16 }
    ensures matches { Matches (state_of kept.new.flash)
        kept.new.index kept.new.blocks kept.new.unsure }
    ensures config { kept.new.index.config ≡ kept.old.index.config }
{
    if !is_sure(kept.unsure) || !has_block(&kept.index, block) {
        return IMPOSSIBLE;
    }
    if block.0 == kept.blocks.spare().0 || !has_unneeded(&kept.index, block, at) {
        return IMPOSSIBLE;
    }
    let mut room = [0; 16];
    let result = collect(
        &mut kept.flash,
        &mut kept.index,
        &mut kept.blocks,
        &mut kept.unsure,
        &mut room,
        block,
    );
    told(result.is_ok())
}

/// Finds out what a broken operation left.
fn settle_it<R: CommitRule>(kept: &mut Kept<R>) -> char
    requires matches { Matches (state_of kept.old.flash)
        kept.old.index kept.old.blocks kept.old.unsure }
    requires rule { kept.old.index.config.protocol ≡ R.protocol }
    requires page { kept.old.index.config.page_bytes ≡ 16 }
    ensures matches { Matches (state_of kept.new.flash)
        kept.new.index kept.new.blocks kept.new.unsure }
    ensures config { kept.new.index.config ≡ kept.old.index.config }
{
    if !is_collection(kept.unsure) {
        return IMPOSSIBLE;
    }
    let mut room = [0; 16];
    match settle(
        &mut kept.flash,
        &mut kept.index,
        &mut kept.blocks,
        &mut kept.unsure,
        &mut room,
    ) {
        Ok(found) => told(found == Settled::Other),
        Err(_) => told(false),
    }
}

/// The block that is to be collected.
fn choose<R: CommitRule>(kept: &Kept<R>) -> char
    requires { Matches (state_of kept.now.flash) kept.now.index kept.now.blocks kept.now.unsure }
{
    match victim(&kept.index, &kept.blocks) {
        Some(block) => char::from_digit(block.0, 36).unwrap_or(IMPOSSIBLE),
        None => 'n',
    }
}

/// Power comes back, and the tables are made from the flash alone.
fn reopen<R: CommitRule>(alloc: Global, kept: &mut Kept<R>) -> char
    requires matches { Matches (state_of kept.old.flash)
        kept.old.index kept.old.blocks kept.old.unsure }
    requires rule { kept.old.index.config.protocol ≡ R.protocol }
    ensures matches { Matches (state_of kept.new.flash)
        kept.new.index kept.new.blocks kept.new.unsure }
    ensures config { kept.new.index.config ≡ kept.old.index.config }
{
    theorems::opened_tables_match();
    kept.flash.power_on();
    let config = kept.index.config();
    let Ok((index, blocks)) = recover::<MemFlash, R>(alloc, &mut kept.flash, config) else {
        return IMPOSSIBLE;
    };
    kept.index = index;
    kept.blocks = blocks;
    kept.unsure = Unsure::Nothing;
    'o'
}

//! The tables of flashes that are sound.

ghost use Rattle.std.specs.Prelude.{◌≡◌};
ghost use Rattle.tx_types.specs.Config.{shape_of};

use crate::building::{BACK_POINTER, SIMPLE, written};
use crate::indexing::lines::is_right;
use crate::indexing::tables::are_right;
use crate::texts::{number, word};
use bpcc_commit::Bpcc;
use die_alloc::Blocks;
use flash_model::Flash;
use mem_flash::MemFlash;
use scan_recovery::recover;
use scc_commit::Scc;
use std::alloc::Global;
use tx_types::{Block, BlockState, Slot};
use version_index::Index;

/// A page at version 1 and its version 2, which is current; a loose version 3, whose transaction
/// did not go on; a page in two slots, and one in the last block. A slot is damaged.
const KEPT: &str = "0 0.1 0.1 0 1, 1 0.2 0.2 1 2, 4 1.1 1.1 0 3, 9 1.1 1.1 0 3, 10 0.3 2.1 2 4, \
    28 3.1 3.1 0 5, 11 damaged";

/// No slot is needed that holds a stale or a loose record, or one that stands in a lower slot too. Under Back Pointer
/// Cyclic Commit nothing must go. The spare is known to the tables: it has no garbage.
const TABLES: &str = "\
    page 0 2 3 1; page 1 1 1 4; page 2 0 1 -; page 3 1 1 28; page 4 0 0 -; \
    slot 0 holds 0.1 0.1 0; slot 1 holds 0.2 0.2 1; slot 2 blank; slot 4 holds 1.1 1.1 0; \
    slot 9 holds 1.1 1.1 0; slot 10 holds 0.3 2.1 2; slot 11 damaged; slot 28 holds 3.1 3.1 0; \
    needed 32: 1 4 28; \
    off 0 0 -; off 0 1 1; off 1 1 9; off 1 2 4; off 2 0 -; off 3 7 -; \
    must_go 2 9 -; \
    garbage 6 0 0; garbage 5 0 4";

/// Of each block its state and how many slots are used.
const BLOCKS: &str = "shut 2; shut 1; shut 4; clean 0; clean 0; clean 0; spare 0; shut 1";

/// Whether a state is the one that a word says.
fn is_state(state: BlockState, word: &str) -> bool {
    match word {
        "spare" => state == BlockState::Spare,
        "clean" => state == BlockState::Clean,
        "shut" => state == BlockState::Shut,
        _ => false,
    }
}

/// Whether a block is as words say.
fn is_block_right(blocks: &Blocks, block: u32, words: &str) -> bool
    requires { blocks.now.shape ≡ shape_of BACK_POINTER }
{
    block < 8
        && is_state(blocks.state(Block(block)), word(words, 0))
        && blocks.used(Block(block)) == number(words, 1)
}

/// Whether the blocks are as they are to be, and programs go to the dies in turn.
fn are_blocks_right(blocks: &mut Blocks) -> bool
    requires { blocks.old.shape ≡ shape_of BACK_POINTER }
{
    let mut block = 0;
    for words in BLOCKS.split("; ") {
        if !is_block_right(blocks, block, words) {
            return false;
        }
        block = block.saturating_add(1);
    }
    block == 8
        && blocks.spare() == Block(6)
        && blocks.next_slot() == Some(Slot(12))
        && blocks.next_slot() == Some(Slot(16))
}

/// Whether the flash was read once and two slots again for their bytes, and six programs were done.
fn are_counts_right(flash: &MemFlash) -> bool {
    flash.reads() == 34 && flash.programs() == 6 && flash.erases() == 0
}

/// Whether a flash is right, and the tables that were made of it.
fn are_kept(alloc: Global, flash: &MemFlash, index: &mut Index<Bpcc>, blocks: &mut Blocks) -> bool
    requires { blocks.old.shape ≡ shape_of BACK_POINTER }
{
    are_counts_right(flash) && are_blocks_right(blocks) && is_right(alloc, index, TABLES)
}

/// Whether a flash is sound and gives its tables.
fn gives_tables(alloc: Global, flash: &mut MemFlash) -> bool
    requires { flash.old.shape ≡ shape_of BACK_POINTER }
{
    match recover::<MemFlash, Bpcc>(alloc, flash, BACK_POINTER) {
        Ok((mut index, mut blocks)) => {
            let is_so = are_kept(alloc, flash, &mut index, &mut blocks);
            drop((index, blocks));
            is_so
        }
        Err(_) => false,
    }
}

/// Whether the flash with the items above gives its tables.
pub fn is_kept(alloc: Global) -> bool {
    match written(alloc, BACK_POINTER, KEPT) {
        Some(mut flash) => {
            let is_so = gives_tables(alloc, &mut flash);
            drop(flash);
            is_so
        }
        None => false,
    }
}

/// A page at version 1; its version 2 in two slots, and a page at version 1, whose transactions did not
/// go on, so that both are loose.
const LOOSE: &str = "0 0.1 0.1 0 1, 4 0.2 1.1 0 2, 8 3.1 2.1 0 3, 12 0.2 1.1 0 2";

/// Of a page and a version the lowest block with a loose record that mentions the page below it.
const GOING: &str = "\
    must_go 0 2 -; must_go 0 3 1; must_go 1 1 -; must_go 1 2 1; must_go 2 2 2; must_go 3 2 2; must_go 4 9 -";

/// Whether loose records of a flash must go.
fn must_go(alloc: Global, flash: &mut MemFlash) -> bool
    requires { flash.old.shape ≡ shape_of SIMPLE }
{
    match recover::<MemFlash, Scc>(alloc, flash, SIMPLE) {
        Ok((index, blocks)) => {
            drop(blocks);
            are_right(alloc, Some(index), GOING)
        }
        Err(_) => false,
    }
}

/// Whether the loose records of the flash with the items above must go.
pub fn is_loose(alloc: Global) -> bool {
    match written(alloc, SIMPLE, LOOSE) {
        Some(mut flash) => {
            let is_so = must_go(alloc, &mut flash);
            drop(flash);
            is_so
        }
        None => false,
    }
}

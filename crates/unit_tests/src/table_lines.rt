//! Slots that are taken from tables of blocks.
ghost use Rattle.std.specs.Prelude.{◌≡◌};
ghost use Rattle.tx_types.specs.Config.{IsShape};

use crate::samples::{halves, has_number, has_word, number_at, says, word};
use die_alloc::Blocks;
use std::alloc::Global;
use tx_types::BlockState::{Clean, Part, Shut, Spare};
use tx_types::{Block, BlockState, Shape};

/// Two dies of four blocks of four slots.
const WIDE: Shape = Shape {
    page_bytes: 16,
    pages_per_block: 4,
    blocks_per_die: 4,
    dies: 2,
};

/// Two dies of two blocks of two slots.
const SMALL: Shape = Shape {
    page_bytes: 16,
    pages_per_block: 2,
    blocks_per_die: 2,
    dies: 2,
};

/// Steps on new tables. A number, or `-` where there is none, is the next slot, which is used from then on; `find 0 7`
/// finds slot 7 in die 0 and takes nothing; `spare 3` and `is 1 part 1` tell what blocks are; `part 2 1`, `shut 4` and
/// `clean 1` set a block, and `make 0` makes it the spare.
pub const TABLES: &str = "\
    # Die 0 has the slots 0 to 15, and die 1 those from 16 to 27 beside the spare.\n\
    table wide 0, 16, 1, 17, 2, 18, 3, 19, 4, 20, 5, 21, 6, 22, 7, 23, 8, 24, 9, 25, 10, 26, 11, 27, 12, 13, 14, 15, \
    -\n\
    # In die 0 block 2 has one used slot and block 1 has three, and in die 1 block 4 is shut.\n\
    table wide part 2 1, part 1 3, shut 4 0, find 0 7, find 1 20, find 0 7, 7, 20, 9, 21, 10, 22, 11, 23, 0\n\
    # Die 1 is the first to have no slot. Once the table is full it goes on with block 0 as its spare: the last slot \
    was one of die 0, so that the search goes on at die 1.\n\
    table small spare 3, is 3 spare 0, 0, 4, 1, 5, 2, is 0 shut 2, is 1 part 1, find 1 -, 3, find 0 -, -, make 0, \
    clean 1 0, spare 0, is 0 spare 0, is 3 clean 0, 6, 2, 7, 3, -";

/// The word of a state.
fn word_of(state: BlockState) -> &'static str {
    match state {
        Clean => "clean",
        Part => "part",
        Shut => "shut",
        Spare => "spare",
    }
}

/// Whether the next slot is the one of the text, and is used from then on.
fn takes(blocks: &mut Blocks, text: &str) -> bool
    ensures { blocks.new.shape ≡ blocks.old.shape }
{
    match blocks.next_slot() {
        Some(at) => {
            blocks.note_used(at);
            has_number(text, 0, at.0)
        }
        None => text == "-",
    }
}

/// Sets a block, if it may be set so.
fn sets(blocks: &mut Blocks, shape: Shape, state: &str, block: u32, used: u32) -> bool
    requires shape { IsShape shape }
    requires table { blocks.old.shape ≡ shape }
    ensures { blocks.new.shape ≡ shape }
{
    if block >= shape.blocks() || blocks.spare().0 == block {
        return false;
    }
    match state {
        "part" if used > 0 && used < shape.pages_per_block => blocks.set(Block(block), Part, used),
        "shut" if used == 0 => blocks.set(Block(block), Shut, 0),
        "clean" if used == 0 => blocks.set(Block(block), Clean, 0),
        "make" => blocks.make_spare(Block(block)),
        _ => return false,
    }
    true
}

/// Whether a step is done, or tells what is so.
fn is_step(blocks: &mut Blocks, shape: Shape, step: &str) -> bool
    requires shape { IsShape shape }
    requires table { blocks.old.shape ≡ shape }
    ensures { blocks.new.shape ≡ shape }
{
    let at = number_at(step, 1).unwrap_or(u32::MAX);
    match word(step, 0) {
        "find" if at < shape.dies => says(
            word(step, 2),
            match blocks.next_slot_in(at) {
                Some(at) => Some(at.0 as usize),
                None => None,
            },
        ),
        "spare" => blocks.spare().0 == at,
        "is" if at < shape.blocks() => {
            has_word(step, 2, word_of(blocks.state(Block(at))))
                && has_number(step, 3, blocks.used(Block(at)))
        }
        "part" | "shut" | "clean" | "make" => {
            sets(
                blocks,
                shape,
                word(step, 0),
                at,
                number_at(step, 2).unwrap_or(0),
            )
        }
        _ => takes(blocks, step),
    }
}

/// Whether the steps of a text are done, one after the other.
fn are_steps(blocks: &mut Blocks, shape: Shape, steps: &str) -> bool
    requires shape { IsShape shape }
    requires table { blocks.old.shape ≡ shape }
{
    for step in steps.split(", ") {
        if !is_step(blocks, shape, step) {
            return false;
        }
    }
    true
}

/// Whether the steps of a line are done by a new table of the shape that it names.
pub fn is_table_right(alloc: Global, line: &str) -> bool {
    let (name, steps) = halves(line, " ");
    let shape = if name == "wide" { WIDE } else { SMALL };
    match Blocks::new(alloc, shape) {
        Ok(mut blocks) => {
            let is_so = are_steps(&mut blocks, shape, steps);
            drop(blocks);
            is_so
        }
        Err(_) => false,
    }
}

//! Lines that say what the tables hold, and change them.

ghost use Rattle.std.specs.Prelude.{◌≤◌, ◌<◌, vec_capacity};
ghost use Rattle.tx_types.specs.Config.{shape_of, slots_of};

use super::changing::change;
use crate::building::{has_block, has_page, has_slot, rec, slot_count};
use crate::texts::{is_slot, link, number, word};
use flash_model::Seen;
use record_list::CommitRule;
use std::alloc::Global;
use tx_types::{Block, Rec, Slot};
use version_index::Index;

/// The version that the word at a place says.
fn version(words: &str, at: usize) -> u64 {
    u64::from(number(words, at))
}

/// Of a page its current version, its mention and its home: `page 0 2 3 1`.
fn page_is<R: CommitRule>(index: &Index<R>, words: &str) -> bool {
    let page = number(words, 0);
    has_page(index, page)
        && index.current(page) == version(words, 1)
        && index.mention(page) == version(words, 2)
        && is_slot(index.locate(page), words, 3)
}

/// Of a page and a block the lowest slot outside the block that holds the current record of the page: `off 0 1 4`.
fn off_is<R: CommitRule>(index: &Index<R>, words: &str) -> bool {
    let (page, block) = (number(words, 0), Block(number(words, 1)));
    has_page(index, page)
        && has_block(index, block)
        && is_slot(index.locate_off(page, block), words, 2)
}

/// Whether a slot that reads so is one as a word says.
fn is_seen(seen: Seen, word: &str) -> bool {
    match word {
        "blank" => seen == Seen::Blank,
        "damaged" => seen == Seen::Damaged,
        "holds" => seen == Seen::Complete,
        _ => false,
    }
}

/// Whether the record that is held is the one that words say, or there is none where they say none.
fn is_held(held: Option<Rec>, words: &str) -> bool {
    match held {
        Some(held) => held == rec(link(words, 2), link(words, 3), version(words, 4)),
        None => word(words, 2).is_empty(),
    }
}

/// Of a slot how it reads and which record it holds, by its name, its link and its back version: `slot 2 blank`,
/// `slot 3 damaged`, `slot 4 holds 1.1 1.1 0`.
fn slot_is<R: CommitRule>(index: &Index<R>, words: &str) -> bool {
    let at = Slot(number(words, 0));
    has_slot(index, at) && is_seen(index.seen(at), word(words, 1)) && is_held(index.rec(at), words)
}

/// Whether a number is among words.
fn is_among(words: &str, wanted: u32) -> bool {
    for word in words.split(' ') {
        if number(word, 0) == wanted {
            return true;
        }
    }
    false
}

/// Of the first slots those that are needed: `needed 12: 4 6`.
fn needed_are<R: CommitRule>(index: &Index<R>, words: &str) -> bool {
    let (first, needed) = words.split_once(':').unwrap_or((words, ""));
    for at in 0..number(first, 0) {
        if !has_slot(index, Slot(at)) || index.needed(Slot(at)) != is_among(needed, at) {
            return false;
        }
    }
    true
}

/// Of a block its garbage where it is not shut and where it is: `garbage 2 2 3`.
fn garbage_is<R: CommitRule>(index: &Index<R>, words: &str) -> bool {
    let block = Block(number(words, 0));
    has_block(index, block)
        && index.garbage(block, false) == number(words, 1)
        && index.garbage(block, true) == number(words, 2)
}

/// Of each of the first four blocks its blank slots: `blanks 2 1 1 3`.
fn are_blanks<R: CommitRule>(index: &Index<R>, words: &str) -> bool {
    for block in 0..4 {
        let wanted = number(words, block as usize);
        if !has_block(index, Block(block)) || index.blanks(Block(block)) != wanted {
            return false;
        }
    }
    true
}

/// The most garbage among sixteen blocks: `among 1 2`.
fn among_is<R: CommitRule>(index: &Index<R>, words: &str) -> bool {
    let sixteen = number(words, 0);
    sixteen < 65536
        && has_block(index, Block(16 * sixteen))
        && index.most_garbage_among(sixteen) == number(words, 1)
}

/// Whether a block is the one that the word at a place says, or there is none, as `-` says.
fn is_block(block: Option<Block>, words: &str, at: usize) -> bool {
    match block {
        Some(block) => is_slot(Some(Slot(block.0)), words, at),
        None => is_slot(None, words, at),
    }
}

/// The lowest block with a record that must go before a version of a page is programmed: `must_go 1 4 2`.
fn must_go_is<R: CommitRule>(index: &Index<R>, words: &str) -> bool {
    let page = number(words, 0);
    has_page(index, page) && is_block(index.must_go(page, version(words, 1)), words, 2)
}

/// Whether blocks are those that words say behind a first, empty one.
fn are_blocks(blocks: &[Block], words: &str) -> bool {
    let mut at = 1;
    for block in blocks {
        if number(words, at) != block.0 {
            return false;
        }
        at = at.saturating_add(1);
    }
    word(words, at).is_empty()
}

/// Whether of the first four blocks those that words say hold a record which must go before a version of a page is
/// programmed.
fn are_going<R: CommitRule>(index: &Index<R>, page: u32, below: u64, going: &str) -> bool
    requires { page < index.now.config.logical }
{
    for block in 0..4 {
        if !has_block(index, Block(block))
            || index.is_going(page, below, Block(block)) != is_among(going, block)
        {
            return false;
        }
    }
    true
}

/// Whether the blocks that hold a record which must go before a version of a page is programmed are those that words
/// say, for which there is room.
fn go_together<R: CommitRule>(
    index: &Index<R>,
    page: u32,
    below: u64,
    going: &str,
    blocks: &mut Vec<Block>,
) -> bool
    requires page { page < index.now.config.logical }
    requires room { slots_of (shape_of index.now.config) ≤ vec_capacity blocks.old }
{
    index.blocks_to_go(page, below, blocks);
    are_blocks(blocks, going)
}

/// The blocks that hold a record which must go before a version of a page is programmed, all together, and each of the
/// first four by itself: `going 1 4: 2 3`.
fn going_are<R: CommitRule>(alloc: Global, index: &Index<R>, words: &str) -> bool {
    let (name, going) = words.split_once(':').unwrap_or((words, ""));
    let (page, below) = (number(name, 0), version(name, 1));
    if !has_page(index, page) {
        return false;
    }
    match Vec::with_capacity(alloc, slot_count(index) as usize) {
        Ok(mut blocks) => {
            go_together(index, page, below, going, &mut blocks)
                && are_going(index, page, below, going)
        }
        Err(_) => false,
    }
}

/// Whether the tables are as words say. Of all blocks `most 2` says which one has the most garbage, and `now 2 5` which
/// one has it as the blocks are, and how much all have.
fn is_said<R: CommitRule>(alloc: Global, index: &Index<R>, name: &str, words: &str) -> bool {
    match name {
        "page" => page_is(index, words),
        "off" => off_is(index, words),
        "slot" => slot_is(index, words),
        "needed" => needed_are(index, words),
        "garbage" => garbage_is(index, words),
        "blanks" => are_blanks(index, words),
        "most" => is_block(index.most_garbage(), words, 0),
        "now" => {
            is_block(index.most_garbage_now(), words, 0) && index.all_garbage() == number(words, 1)
        }
        "among" => among_is(index, words),
        "must_go" => must_go_is(index, words),
        "going" => going_are(alloc, index, words),
        _ => false,
    }
}

/// Makes the change that words say, or tells whether the tables are as they say.
fn is_part_right<R: CommitRule>(alloc: Global, index: &mut Index<R>, part: &str) -> bool {
    let (name, words) = part.split_once(' ').unwrap_or((part, ""));
    change(index, name, words) || is_said(alloc, index, name, words)
}

/// Makes the changes of a line to the tables. Returns whether they are at each place as the line says there.
pub fn is_right<R: CommitRule>(alloc: Global, index: &mut Index<R>, line: &str) -> bool {
    for part in line.split("; ") {
        if !is_part_right(alloc, index, part) {
            return false;
        }
    }
    true
}

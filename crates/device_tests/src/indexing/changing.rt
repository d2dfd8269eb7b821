//! Changes of the tables.

use super::tables::{has_no_record, is_blank};
use crate::building::{has_block, has_page, has_slot};
use crate::texts::number;
use record_list::CommitRule;
use tx_types::{Block, Slot};
use version_index::Index;

/// Makes the change that words say, if they say one that can be made. Returns whether it was made.
///
/// `copy 6 9` copies the record of a slot into a blank one, and after `damage 10` a program into a blank slot was
/// broken. `pin 1 3` pins a page at a version, and `unpin 1` unpins it. After `spare 3` another block is the spare.
/// `lost 3` and `erased 3` are for tables without records: a block is lost, or erased.
pub fn change<R: CommitRule>(index: &mut Index<R>, name: &str, words: &str) -> bool {
    let (first, second) = (number(words, 0), number(words, 1));
    let (slot, block) = (Slot(first), Block(first));
    match name {
        "copy"
            if has_slot(index, slot)
                && is_blank(index, Slot(second))
                && index.rec(slot).is_some() => {
            index.note_copy(slot, Slot(second));
        }
        "damage" if is_blank(index, slot) => index.note_damaged(slot),
        "pin" if has_page(index, first) => index.pin(first, u64::from(second)),
        "unpin" if has_page(index, first) => index.unpin(first),
        "spare" if has_block(index, block) => index.set_spare(block),
        "lost" if has_block(index, block) && has_no_record(index) => index.note_lost(block),
        "erased" if has_block(index, block) && has_no_record(index) => index.note_erased(block),
        _ => return false,
    }
    true
}

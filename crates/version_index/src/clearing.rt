ghost use Rattle.std.specs.Prelude.{◌≡◌, ◌<◌, ◌≤◌, ◌↔◌, ℕ, [], length, vec_len, vec_capacity, IsTrue, None, IfSome, IfNone, Contains};
ghost use Rattle.std.specs.Option.{option_map};
ghost use Rattle.tx_types.specs.Config.{slots_of, blocks_of};
ghost use Rattle.tx_types.specs.declared.config.Block.{Block};
ghost use Rattle.tx_types.specs.declared.config.Protocol.TheVariants as its_protocol;
ghost use Rattle.slot_tables.specs.Gathered.{AreGathered};
ghost use Rattle.slot_tables.specs.TablesState.{IsTablesState, WaitsBelow};
ghost use Rattle.version_index.specs.Going.{IsWaitingBelow, IsTopBelow, Goes, IsLowestIn, SlotMustGo, BlockMustGo, IsNewestBeside, AreRising};

use slot_tables::{SlotUse, Tables};
use tx_types::{Block, Protocol, Slot};

/// The lowest slot of a record that must go before the version `below` of a page is programmed.
pub fn lowest_to_go(tables: &Tables, protocol: Protocol, page: u32, below: u64) -> Option<Slot>
    requires { page < length tables.now.pages }
    ensures scc { protocol ≡ its_protocol.Scc →
        IsLowestIn tables.now (Goes tables.now page below) (option_map (λ at. at.0) result) }
    ensures bpcc { protocol ≡ its_protocol.Bpcc → result ≡ None }
{
    match protocol {
        Protocol::Scc => Slot::lower(
            newest_uncommitted(tables, page, below),
            tables.lowest_waiting(page, below),
        ),
        Protocol::Bpcc => None,
    }
}

/// The lowest slot of the newest record of a page, where it waits and is below a version.
fn newest_uncommitted(tables: &Tables, page: u32, below: u64) -> Option<Slot>
    requires { page < length tables.now.pages }
    ensures { IsLowestIn tables.now (IsTopBelow tables.now page below)
        (option_map (λ at. at.0) result) }
{
    match tables.newest(page) {
        None => None,
        Some(number) if waits_below(tables, number, below) => tables.first_copy(number),
        Some(_) => None,
    }
}

/// Whether a record waits and is below a version.
fn waits_below(tables: &Tables, number: u32, below: u64) -> bool
    requires { number < slots_of tables.now.shape }
    ensures { IsTrue result ↔ IsWaitingBelow tables.now below number }
{
    if tables.waits(number).is_none() {
        return false;
    }
    match tables.record(number) {
        None => false,
        Some(rec) => rec.version < below,
    }
}

/// Whether a record waits for a page at a version below this one.
fn waits_for(tables: &Tables, page: u32, below: u64, number: u32) -> bool
    requires { number < slots_of tables.now.shape }
    ensures { IsTrue result ↔ WaitsBelow tables.now page below number }
{
    if tables.waits(number) != Some(page) {
        return false;
    }
    match tables.record(number) {
        None => false,
        Some(rec) => rec.next.version < below,
    }
}

/// Whether a record is the newest of a page, waits, and is below a version.
fn is_top(tables: &Tables, page: u32, below: u64, number: u32) -> bool
    requires page { page < length tables.now.pages }
    requires number { number < slots_of tables.now.shape }
    ensures { IsTrue result ↔ IsTopBelow tables.now page below number }
{
    tables.newest(page) == Some(number) && waits_below(tables, number, below)
}

/// Whether a slot holds a record that must go before the version `below` of a page is programmed, under
/// Simple Cyclic Commit.
fn slot_must_go(tables: &Tables, page: u32, below: u64, at: Slot) -> bool
    requires page { page < length tables.now.pages }
    requires slot { at.0 < slots_of tables.now.shape }
    ensures { IsTrue result ↔ SlotMustGo tables.now page below at.0 }
{
    match tables.slot(at) {
        SlotUse::Blank | SlotUse::Damaged => false,
        SlotUse::Holds(number) => {
            is_top(tables, page, below, number) || waits_for(tables, page, below, number)
        }
    }
}

/// Whether a block has such a slot.
pub fn block_must_go(tables: &Tables, page: u32, below: u64, block: Block) -> bool
    requires page { page < length tables.now.pages }
    requires block { block.0 < blocks_of tables.now.shape }
    ensures kept { IsTablesState tables.now }
    ensures goes { IsTrue result ↔ BlockMustGo tables.now page below block.0 }
{
    let size = tables.shape().pages_per_block;
    let first = block.0 * size;
    for at in first..first + size {
        if slot_must_go(tables, page, below, Slot(at)) {
            return true;
        }
    }
    false
}

/// The newest record of a page, where it must go and does not wait for the page at a version below.
fn newest_beside(tables: &Tables, page: u32, below: u64) -> Option<u32>
    requires { page < length tables.now.pages }
    ensures some { IfSome result (λ x. IsNewestBeside tables.now page below x) }
    ensures within { IfSome result (λ x. x < slots_of tables.now.shape) }
    ensures none { IfNone result
        ((x : ℕ) → IsTopBelow tables.now page below x → WaitsBelow tables.now page below x) }
{
    match tables.newest(page) {
        None => None,
        Some(number) => {
            if waits_below(tables, number, below) && !waits_for(tables, page, below, number) {
                Some(number)
            } else {
                None
            }
        }
    }
}

/// Puts the block of each slot with a record that must go into room where nothing is.
pub fn put_blocks_to_go(tables: &Tables, page: u32, below: u64, into: &mut Vec<Block>)
    requires page { page < length tables.now.pages }
    requires empty { into.old.items ≡ [] }
    requires none { vec_len into.old ≡ 0 }
    requires room { slots_of tables.now.shape ≤ vec_capacity into.old }
    ensures kept { IsTablesState tables.now }
    ensures gathered { AreGathered tables.now (Goes tables.now page below) into.new.items }
    ensures room { vec_capacity into.new ≡ vec_capacity into.old }
{
    // For the proof: the sizes of the tables.
    let _ = tables.shape();
    tables.put_waiting(page, below, into);
    if let Some(number) = newest_beside(tables, page, below) {
        tables.put_blocks(number, into);
    }
}

/// Puts blocks in their order, each once.
pub fn order_blocks(blocks: &mut Vec<Block>)
    ensures rising { AreRising blocks.new.items }
    ensures same { (block : Block) → Contains blocks.new.items block ↔ Contains blocks.old.items block }
    ensures room { vec_capacity blocks.new ≡ vec_capacity blocks.old }
{
    blocks.sort_unstable();
    blocks.dedup();
}

ghost use Rattle.std.specs.Prelude.{◌≡◌, ◌*◌, ◌<◌};
ghost use Rattle.tx_types.specs.Config.{slots_of, blocks_of};
ghost use Rattle.slot_tables.specs.Copies.{HoldsNone};
ghost use Rattle.slot_tables.specs.TablesState.{IsTablesState};
ghost use Rattle.version_index.specs.Losing.{freed, bared, used_so, used_from};

use slot_tables::{SlotUse, Tables};
use tx_types::{Block, Slot};

/// Each slot of a block is used so. Records that have no slot left are given up.
pub fn use_block(tables: &mut Tables, block: Block, to: SlotUse)
    requires block { block.0 < blocks_of tables.old.shape }
    requires none { HoldsNone to }
    ensures kept { IsTablesState tables.old }
    ensures used { let slots = tables.old.shape.pages_per_block in
        tables.new ≡ used_from tables.old (block.0 * slots) to slots }
{
    let slots = tables.shape().pages_per_block;
    let first = block.0 * slots;
    for i in 0..slots {
        use_slot(tables, Slot(first + i), to);
    }
}

/// A slot is used so. A record that has no slot left is given up.
#[inline(always)]
fn use_slot(tables: &mut Tables, at: Slot, to: SlotUse)
    requires slot { at.0 < slots_of tables.old.shape }
    requires none { HoldsNone to }
    ensures { tables.new ≡ used_so tables.old at.0 to }
{
    let held = tables.slot(at);
    tables.set_slot(at, to);
    if let SlotUse::Holds(number) = held {
        give_up_bare(tables, number);
    }
}

/// Gives a record up that has no slot left.
fn give_up_bare(tables: &mut Tables, number: u32)
    requires { number < slots_of tables.old.shape }
    ensures { tables.new ≡ bared tables.old number }
{
    if let Some(_) = tables.first_copy(number) {
        return;
    }
    let Some(rec) = tables.record(number) else {
        return;
    };
    release(tables, number);
    tables.give_up(rec.page, number);
}

/// Releases a record: it waits no more, and none answers for it.
#[inline(always)]
pub fn release(tables: &mut Tables, number: u32)
    requires { number < slots_of tables.old.shape }
    ensures { tables.new ≡ freed tables.old number }
{
    tables.set_answerer(number, None);
    tables.set_waits(number, None);
}

ghost use Rattle.std.specs.Prelude.{◌≡◌, ◌≤◌, IfOk};
ghost use Rattle.tx_types.specs.Config.{IsShape, slots_of};
ghost use Rattle.slot_tables.specs.TablesState.{blank_tables};

mod changing;
mod gathering;
mod reading;

use crate::base_tables::BaseTables;
use crate::live_slots::LiveSlots;
use crate::tables_builder::TablesBuilder;
use std::alloc::{AllocError, Global};
use std::marker::Model;
use tx_types::Shape;

/// What each slot of a flash holds, and of each record, by its number, whether it is current, answers for
/// another one, or is pinned. Which slots are needed, how many are garbage, and where a record is read is
/// looked up. All memory is taken when the tables are made.
#[derive(Drop)]
pub struct Tables {
    pub(crate) base: BaseTables,
    pub(crate) live: LiveSlots,
}

impl Model for Tables {
    ghost use Rattle.slot_tables.specs.TablesState.{TablesState};

    ghost Value = { TablesState };

    ghost use Rattle.slot_tables.specs.Tables.{tables_of, TablesInvariant};

    ghost view = { tables_of };

    ghost invariant = { TablesInvariant };
}

impl Tables {
    /// The tables of a flash with nothing but blank slots, for this many logical pages.
    pub fn new(alloc: Global, shape: Shape, logical: u32) -> Result<Tables, AllocError>
        requires shape { IsShape shape }
        requires pages { logical ≤ slots_of shape }
        ensures { IfOk result (λ t. t ≡ blank_tables shape logical) }
    {
        TablesBuilder::new(alloc, shape, logical)?.finish(alloc)
    }
}

//! Tables of the slots of a flash and of the records that they hold, kept step by step. What is given is
//! which record each slot holds, and of each record by its number whether it counts for something. What
//! follows from it is looked up: where a record is read, which slots are needed, and how many are garbage.
#![tactic(auto)]

mod base_tables;
mod block_counts;
mod block_numbers;
mod current;
mod lazy_table;
mod live_slots;
mod option_table;
mod records;
mod responsibilities;
mod slots;
mod tables;
mod tables_builder;
mod wait_list;

pub use slots::SlotUse;
pub use tables::Tables;
pub use tables_builder::TablesBuilder;

//! Lists of the records that a flash holds: which records count, what a sound list is, and the
//! trait of a commit protocol.
#![tactic(auto)]

mod audit;
mod count_law;
mod found;
mod plain;
mod rule;
mod theorems;
mod walks;

pub use audit::{
    breach_at, first_contradiction, first_early_link, first_misplaced, first_shared_link,
    first_without_current, is_loose, mentions_below,
};
pub use count_law::counts;
pub use found::{Breach, Found, Verdict, Why};
pub use plain::{mention, newest, next_older, present};
pub use rule::CommitRule;
pub use theorems::{
    array_changes, counts_stay, current_is_present, flags_stay, lost_transactions, slots_may_go,
    walk_ends, worked_examples, writes_outlive_losses,
};
pub use walks::{current_version, link_of, reason, straddling};

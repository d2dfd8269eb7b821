//! Records in order of their names, and where their links lead: the orbits of a graph in which each node
//! has at most one next.
#![tactic(auto)]

mod arrange;
mod count_law;
mod current_versions;
mod follow;
mod group;
mod in_order;
mod lone_nodes;
mod minima;
mod names;
mod orbit;
mod orbits;
mod page_counts;
mod path_end;
mod places;
mod records;
mod search;
mod seen;
mod theorems;
mod walks;

pub use count_law::{counts, has_count, keeps_count_at, name_orbits};
pub use current_versions::CurrentVersions;
pub use in_order::sort_by_link;
pub use orbit::Orbit;
pub use orbits::Orbits;
pub use page_counts::PageCounts;
pub use records::{SortedRecords, SortedWithList};
pub use theorems::{one_orbit, sorted_says_the_same};

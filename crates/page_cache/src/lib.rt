//! A least recently used (LRU) cache of pages: those that were read last, each under its page and version.
#![tactic(auto)]

mod cache;
mod entries;
mod theorems;

pub use cache::PageCache;
pub use theorems::kept_pages_are_found;

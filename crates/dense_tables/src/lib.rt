//! Tables of numbers that are kept step by step: lists of places, one for each key, and numbers of which
//! the greatest is known. After `new` no call takes memory. And a divisor with its reciprocal.
#![tactic(auto)]

mod linked_lists;
mod max_tree;
mod reciprocal;

pub use linked_lists::LinkedLists;
pub use max_tree::MaxTree;
pub use reciprocal::Reciprocal;

//! Runs of the array machine over commands and replies: what a command may be answered and leaves, over power cuts and
//! faults too. The definitions stand in `specs/`, and what holds of all runs in `theorems`.
#![tactic(auto)]

pub mod theorems;

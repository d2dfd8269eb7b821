//! What a loss of power leaves of a device that is being served: of an image of which some slots wait to be made
//! durable, of the transactions that wrote there, and of a run over several sessions. The definitions stand in
//! `specs/`, and what holds of them in `theorems`.
#![tactic(auto)]

pub mod theorems;

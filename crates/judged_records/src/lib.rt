//! What is noted of the slots of a flash, and what follows from it, over lists alone: which noted records are current,
//! loose or waiting, which record answers for each, how a change moves this, and what an image stands for. The
//! definitions stand in `specs/`, and what holds of all notes in `theorems`.
#![tactic(auto)]

mod note;
pub mod theorems;

pub use note::Note;

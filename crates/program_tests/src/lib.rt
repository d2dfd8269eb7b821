//! Tests of what the programs do that no table of words and texts tells: replies that are compared with a model, a
//! desk that finds no memory, the files of the system, and what the flash is when a reply is given.
#![tactic(auto)]

#[cfg(test)]
mod arms;
#[cfg(test)]
mod calls;
#[cfg(test)]
mod files;
#[cfg(test)]
mod known;
#[cfg(test)]
mod moments;
#[cfg(test)]
mod starved;
#[cfg(test)]
mod words;
#[cfg(test)]
mod worlds;

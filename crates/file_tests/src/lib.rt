//! Tests of saves: on folders in memory, over each loss of power and each call that fails, and on real files.
#![tactic(auto)]

#[cfg(test)]
mod desk_io_tests;
#[cfg(test)]
mod durable_folder_tests;
#[cfg(test)]
mod folder_steps;
#[cfg(test)]
mod lines;
#[cfg(test)]
mod mem_folder_tests;
#[cfg(test)]
mod words;

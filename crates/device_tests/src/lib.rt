//! Tests that cross crates: tables, recovery, collections, devices, serving and keys, over flashes in memory under
//! either protocol.
#![tactic(auto)]

#[cfg(test)]
mod building;
#[cfg(test)]
mod collecting;
#[cfg(test)]
mod devices;
#[cfg(test)]
mod indexing;
#[cfg(test)]
mod keys;
#[cfg(test)]
mod lines;
#[cfg(test)]
mod recovering;
#[cfg(test)]
mod serving;
#[cfg(test)]
mod texts;
#[cfg(test)]
mod worn;

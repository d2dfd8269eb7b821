//! Tests of a flash that is a live file, and of devices that are served on one: after each call, and where each call of
//! the file fails, every loss of power.
#![tactic(auto)]

#[cfg(test)]
mod course;
#[cfg(test)]
mod lines;
#[cfg(test)]
mod losing;
#[cfg(test)]
mod opening;
#[cfg(test)]
mod pictures;
#[cfg(test)]
mod running;
#[cfg(test)]
mod scripts;
#[cfg(test)]
mod sessions;
#[cfg(test)]
mod steps;
#[cfg(test)]
mod trying;

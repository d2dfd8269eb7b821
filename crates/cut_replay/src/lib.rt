//! Serving a list of commands on a flash, over power cuts and faults: the replies are those of a
//! plain array of pages in which a transaction changes all its pages at once.
#![tactic(auto)]

mod arms;
mod calls;
mod executing;
mod finishing;
mod flushing;
mod lines;
mod mounting;
mod reading;
mod server;
mod serving;
pub mod theorems;
mod unflushed;
mod watch;

pub use lines::Lines;
pub use server::{NextError, Server};
pub use serving::{ServeError, serve};
pub use unflushed::Unflushed;
pub use watch::Watch;

//! A session on a file, each call of which fails in its turn; and on each file that a loss of power leaves, another.
use crate::losing::{Judge, Tally, are_losses_right};
use crate::opening::{open_file, open_new};
use crate::sessions::ledger::{Array, Ledger};
use crate::sessions::serving::{is_fit, read_array, serve};
use bpcc_commit::Bpcc;
use cut_replay::Server;
use live_flash::LiveFlash;
use lossy_store::{Failure, LossyStore};
use record_list::CommitRule;
use scc_commit::Scc;
use std::alloc::Global;
use tx_types::{Config, Protocol};

/// How many bytes a write has written that fails, at most.
const TORN_BYTES: usize = 40;

/// Two sessions on a device.
#[derive(Clone, Copy)]
pub struct Sessions<'a> {
    pub config: Config,
    pub first: &'a str,
    pub second: &'a str,
}

/// Two sessions, and what the device may hold behind the first one.
#[derive(Drop)]
struct Between<'a> {
    sessions: Sessions<'a>,
    ledger: Ledger,
}

/// Whether a session is served on a device, from an array that it may have to one that it may have then.
fn is_next_right<R: CommitRule>(
    alloc: Global,
    server: &mut Server<LiveFlash<LossyStore>, R>,
    array: Array,
    session: &str,
) -> bool {
    match Ledger::new(alloc, array) {
        Some(mut ledger) => {
            let is_served = serve(alloc, server, &mut ledger, session);
            let is_right = match read_array(alloc, server) {
                Some(array) => ledger.find(array) == Some(false),
                None => false,
            };
            drop(ledger);
            is_served && is_right
        }
        None => false,
    }
}

/// Whether a device has an array that it may have, and the next session goes on from there.
fn is_device_right<R: CommitRule>(
    alloc: Global,
    server: &mut Server<LiveFlash<LossyStore>, R>,
    between: &Between,
    tally: &mut Tally,
) -> bool {
    match read_array(alloc, server) {
        Some(array) => match between.ledger.find(array) {
            Some(is_whole) => {
                tally.whole = tally.whole.saturating_add(u64::from(is_whole));
                is_next_right(alloc, server, array, between.sessions.second)
            }
            None => false,
        },
        None => false,
    }
}

/// Whether a flash has a sound device, which has an array that it may have.
fn is_flash_right<R: CommitRule>(
    alloc: Global,
    flash: LiveFlash<LossyStore>,
    between: &Between,
    tally: &mut Tally,
) -> bool {
    let config = between.sessions.config;
    if flash.config() != config || !is_fit::<_, R>(&flash, config) {
        return false;
    }
    match Server::<LiveFlash<LossyStore>, R>::open(alloc, flash, config) {
        Ok(mut server) => {
            let is_right = is_device_right(alloc, &mut server, between, tally);
            drop(server);
            is_right
        }
        Err((flash, _)) => {
            drop(flash);
            false
        }
    }
}

impl<'a> Judge for Between<'a> {
    fn is_left_right(&self, alloc: Global, left: &[u8], tally: &mut Tally) -> bool {
        match open_file(alloc, left, None) {
            Some(flash) => match self.sessions.config.protocol {
                Protocol::Scc => is_flash_right::<Scc>(alloc, flash, self, tally),
                Protocol::Bpcc => is_flash_right::<Bpcc>(alloc, flash, self, tally),
            },
            None => false,
        }
    }
}

/// The file of a flash on which the first session was served, if all was right.
fn store_after<R: CommitRule>(
    alloc: Global,
    flash: LiveFlash<LossyStore>,
    sessions: Sessions,
    ledger: &mut Ledger,
) -> Option<LossyStore> {
    if !is_fit::<_, R>(&flash, sessions.config) {
        drop(flash);
        return None;
    }
    match Server::<LiveFlash<LossyStore>, R>::open(alloc, flash, sessions.config) {
        Ok(mut server) => {
            let is_right = serve(alloc, &mut server, ledger, sessions.first);
            let store = server.close().into_store();
            if is_right { Some(store) } else { None }
        }
        Err((flash, _)) => {
            drop(flash);
            None
        }
    }
}

/// The file of a new device once the first session was served on it, if all was right.
fn run(
    alloc: Global,
    sessions: Sessions,
    ledger: &mut Ledger,
    failure: Option<Failure>,
) -> Option<LossyStore> {
    match open_new(alloc, sessions.config, failure) {
        Some(flash) => match sessions.config.protocol {
            Protocol::Scc => store_after::<Scc>(alloc, flash, sessions, ledger),
            Protocol::Bpcc => store_after::<Bpcc>(alloc, flash, sessions, ledger),
        },
        None => None,
    }
}

/// Whether what each loss of power leaves behind a run is right. Returns how many calls of the file it made.
fn calls_of_right(
    alloc: Global,
    between: &mut Between,
    failure: Option<Failure>,
    tally: &mut Tally,
) -> Option<u64> {
    let store = run(alloc, between.sessions, &mut between.ledger, failure)?;
    let is_right = are_losses_right(alloc, between, &store, tally);
    let calls = store.calls();
    drop(store);
    if is_right { Some(calls) } else { None }
}

/// Whether a run is right in which a call of the file may fail. Returns how many calls it made.
fn calls_of_run(
    alloc: Global,
    sessions: Sessions,
    failure: Option<Failure>,
    tally: &mut Tally,
) -> Option<u64> {
    let nothing = Array { bytes: [0; 3] };
    match Ledger::new(alloc, nothing) {
        Some(ledger) => {
            let mut between = Between { sessions, ledger };
            let calls = calls_of_right(alloc, &mut between, failure, tally);
            drop(between);
            calls
        }
        None => None,
    }
}

/// Whether the run is right in which this call fails, and makes none behind it.
fn is_failure_right(alloc: Global, sessions: Sessions, call: u64, tally: &mut Tally) -> bool {
    let failure = Failure {
        call,
        bytes: TORN_BYTES,
    };
    calls_of_run(alloc, sessions, Some(failure), tally) == Some(call)
}

/// Whether the first session is right as it is, and with each call of its file failing in its turn.
pub fn are_losses_of_sessions_right(alloc: Global, sessions: Sessions, tally: &mut Tally) -> bool {
    match calls_of_run(alloc, sessions, None, tally) {
        Some(calls) => {
            for call in 1..calls.saturating_add(1) {
                if !is_failure_right(alloc, sessions, call, tally) {
                    return false;
                }
            }
            true
        }
        None => false,
    }
}

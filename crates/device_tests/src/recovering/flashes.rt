//! Flashes that are refused, and why.

ghost use Rattle.std.specs.Prelude.{◌≡◌, Ok};
ghost use Rattle.tx_types.specs.Config.{checked, shape_of};

use crate::building::{BACK_POINTER, SIMPLE, blank_flash, put_all};
use crate::texts::{halves, number, number_of, word};
use bpcc_commit::Bpcc;
use mem_flash::MemFlash;
use record_list::CommitRule;
use scan_recovery::{RecoverError, recover};
use scc_commit::Scc;
use std::alloc::Global;
use tx_types::{Config, Protocol};

/// Why a flash is refused by a rule, if it is.
fn refusal<R: CommitRule>(
    alloc: Global,
    flash: &mut MemFlash,
    config: Config,
) -> Option<RecoverError>
    requires check { checked config ≡ Ok flash.old.shape }
    requires rule { config.protocol ≡ R.protocol }
{
    match recover::<MemFlash, R>(alloc, flash, config) {
        Ok(tables) => {
            drop(tables);
            None
        }
        Err(error) => Some(error),
    }
}

/// Why a flash is refused, if it is.
pub fn refused(alloc: Global, flash: &mut MemFlash, config: Config) -> Option<RecoverError>
    requires { checked config ≡ Ok flash.old.shape }
{
    match config.protocol {
        Protocol::Scc => refusal::<Scc>(alloc, flash, config),
        Protocol::Bpcc => refusal::<Bpcc>(alloc, flash, config),
    }
}

/// Whether a flash is refused as words say: `law 3 slot 4`, `fault`, or `sound` where it is not.
fn is_refusal(refusal: Option<RecoverError>, words: &str) -> bool {
    match refusal {
        None => words == "sound",
        Some(RecoverError::Unsound { law, slot }) => {
            word(words, 0) == "law"
                && number(words, 1) == u32::from(law)
                && number(words, 3) == slot.0
        }
        Some(RecoverError::Fault) => words == "fault",
        Some(RecoverError::Memory) => false,
    }
}

/// Whether a new flash is refused as it is wanted once these items were done to it, and so many slots are read then
/// where their number is told.
fn is_refused_so(
    alloc: Global,
    flash: &mut MemFlash,
    config: Config,
    items: &str,
    wanted: &str,
) -> bool
    requires check { checked config ≡ Ok flash.old.shape }
    requires page { flash.old.shape.page_bytes ≡ 16 }
{
    if !put_all(flash, config.protocol, items) {
        return false;
    }
    let (words, reads) = halves(wanted, " reads ");
    is_refusal(refused(alloc, flash, config), words)
        && (reads.is_empty() || flash.reads() == u64::from(number_of(reads)))
}

/// Whether a flash with these items is refused as it is wanted.
fn is_refused(alloc: Global, config: Config, items: &str, wanted: &str) -> bool
    requires check { checked config ≡ Ok (shape_of config) }
    requires page { config.page_bytes ≡ 16 }
{
    let Some(mut flash) = blank_flash(alloc, config) else {
        return false;
    };
    let is_so = is_refused_so(alloc, &mut flash, config, items, wanted);
    drop(flash);
    is_so
}

/// Whether the flash of a line is refused as it is wanted. First stands the protocol, and then what is done to the
/// flash.
pub fn is_flash_right(alloc: Global, flash: &str, wanted: &str) -> bool {
    let (protocol, items) = halves(flash, ": ");
    match protocol {
        "scc" => is_refused(alloc, SIMPLE, items, wanted),
        "bpcc" => is_refused(alloc, BACK_POINTER, items, wanted),
        _ => false,
    }
}

/// Flashes, and why they are refused: the law that is broken and the slot that is named, and how many slots are read.
pub const FLASHES: &str = "\
    # Two records with one link, a page that does not exist, and a link to one.\n\
    flash scc: nothing => sound reads 32\n\
    flash scc: 0 0.1 1.1, 4 2.1 1.1 => law 3 slot 4 reads 32\n\
    flash bpcc: 0 0.1 1.1, 4 2.1 1.1 => law 3 slot 4 reads 32\n\
    flash scc: 0 20.1 0.1 => law 1 slot 0 reads 32\n\
    flash scc: 4 0.1 20.1 => law 1 slot 4 reads 32\n\
    # Two slots of one record with bytes that differ, and two records of one name. Two such slots and, in lower slots, \
    two names with one link.\n\
    flash scc: 0 0.1 0.1 0 0, 5 0.1 0.1 0 1 => law 2 slot 5 reads 34\n\
    flash scc: 0 0.1 0.1 0 0, 5 0.1 1.1 0 1 => law 2 slot 5 reads 32\n\
    flash scc: 0 0.1 0.1, 1 1.1 3.1, 2 2.1 3.1, 5 0.1 0.1 0 1 => law 2 slot 5 reads 34\n\
    # No record has the version that is current. A link that is straddled; a back version that is not current; a cycle \
    of a loose record.\n\
    flash bpcc: 0 0.5 1.7 3 => law 4 slot 0 reads 32\n\
    flash bpcc: 0 0.1 1.1, 1 0.2 2.9 1, 2 1.2 1.2 => law 5 slot 0 reads 32\n\
    flash bpcc: 0 0.1 0.1, 1 0.3 1.5 2, 2 0.4 2.5 1 => law 6 slot 1 reads 32\n\
    flash bpcc: 0 0.1 0.1, 1 0.2 0.2 1, 2 0.3 1.9 1 => law 7 slot 1 reads 32\n\
    # No block is removable, and one block is.\n\
    flash scc: 0 0.1 0.1, 4 1.1 1.1, 8 2.1 2.1, 12 3.1 3.1, 16 4.1 4.1, 20 5.1 5.1, 24 6.1 6.1, 28 7.1 7.1 \
    => law 8 slot 0 reads 32\n\
    flash scc: 0 0.1 0.1, 4 1.1 1.1, 8 2.1 2.1, 12 3.1 3.1, 16 4.1 4.1, 20 5.1 5.1, 24 6.1 6.1 => sound reads 32\n\
    # Records that count, behind the back version and the byte. One of format 1 counts none, and a transaction did not \
    end. Two copies of which one discards the page, and two that break another law besides.\n\
    flash scc: 0 0.1 1.1 0 0 2, 1 1.1 0.1 0 0 2 discard => sound\n\
    flash scc: 0 0.1 1.1 0 0 2, 1 1.1 0.1 0 0 3 => law 9 slot 0\n\
    flash scc: 0 0.1 0.1 0 0 2 => law 9 slot 0\n\
    flash scc: 4 0.1 0.1 0 0 0 => sound\n\
    flash scc: 0 0.1 1.1 0 0 0, 1 1.1 0.1 0 0 2 => law 9 slot 0\n\
    flash scc: 0 0.1 1.1 0 0 3 => sound\n\
    flash scc: 0 0.1 0.1 0 0 1, 4 0.1 0.1 0 0 1 discard => law 2 slot 4\n\
    flash scc: 0 0.1 0.1 0 0 2, 4 20.1 0.1 0 0 1 => law 1 slot 4\n\
    # A slot whose spare area is all zeros, and one with a record of a page that does not exist: law 1 names the lowest \
    of both kinds.\n\
    flash scc: 3 zeros => law 1 slot 3 reads 32\n\
    flash scc: 3 20.1 0.1 => law 1 slot 3 reads 32\n\
    flash scc: 5 zeros, 3 20.1 0.1 => law 1 slot 3 reads 32\n\
    flash scc: 0 zeros, 3 20.1 0.1 => law 1 slot 0 reads 32\n\
    # A read of a flash with two copies of a record fails, or the one behind the last.\n\
    flash bpcc: 0 0.1 0.1 0 7, 5 0.1 0.1 0 7, badread 1 => fault reads 1\n\
    flash bpcc: 0 0.1 0.1 0 7, 5 0.1 0.1 0 7, badread 32 => fault reads 32\n\
    flash bpcc: 0 0.1 0.1 0 7, 5 0.1 0.1 0 7, badread 34 => fault reads 34\n\
    flash bpcc: 0 0.1 0.1 0 7, 5 0.1 0.1 0 7, badread 35 => sound reads 34";

//! Lines of calls and the answers that they must have, of devices over new flashes.

ghost use Rattle.std.specs.Prelude.{◌≡◌, Ok};
ghost use Rattle.tx_types.specs.Config.{checked, shape_of};

use super::mounting::{mounted, serve};
use super::telling::Answers;
use crate::building::{BACK_POINTER, SIMPLE, SMALL, blank_flash};
use crate::texts::{halves, number_or_zero, word};
use bpcc_commit::Bpcc;
use flash_model::MAX_ALLOWANCE;
use mem_flash::MemFlash;
use record_list::CommitRule;
use scc_commit::Scc;
use std::alloc::Global;
use tx_types::{Config, Protocol};

/// A device over a new flash that allows this many blocks to be retired serves calls. Returns whether it could.
fn is_served<R: CommitRule>(
    alloc: Global,
    config: Config,
    allowance: u32,
    calls: &str,
    answers: &mut Answers,
) -> bool
    requires { checked config ≡ Ok (shape_of config) }
{
    if allowance > MAX_ALLOWANCE {
        return false;
    }
    let Some(mut flash) = blank_flash(alloc, config) else {
        return false;
    };
    flash.set_extras(allowance, 0);
    match mounted::<MemFlash, R>(alloc, flash, config) {
        Some(device) => serve(alloc, device, calls, answers),
        None => false,
    }
}

/// Whether calls of a device over a new flash that allows this many blocks to be retired are answered as it is wanted.
fn are_answered(alloc: Global, config: Config, allowance: u32, calls: &str, wanted: &str) -> bool
    requires { checked config ≡ Ok (shape_of config) }
{
    let mut answers = Answers::new(alloc);
    let is_served = match config.protocol {
        Protocol::Scc => is_served::<Scc>(alloc, config, allowance, calls, &mut answers),
        Protocol::Bpcc => is_served::<Bpcc>(alloc, config, allowance, calls, &mut answers),
    };
    is_served && answers.are(wanted)
}

/// Whether the calls of a line are answered as it is wanted. First stands the device, `simple`, `back_pointer`, `both`
/// of them or `small`, and how many blocks may be retired if any may.
pub fn are_calls_right(alloc: Global, line: &str, wanted: &str) -> bool {
    let (device, calls) = halves(line, ": ");
    let allowance = number_or_zero(device, 1);
    match word(device, 0) {
        "simple" => are_answered(alloc, SIMPLE, allowance, calls, wanted),
        "back_pointer" => are_answered(alloc, BACK_POINTER, allowance, calls, wanted),
        "both" => {
            are_answered(alloc, SIMPLE, allowance, calls, wanted)
                && are_answered(alloc, BACK_POINTER, allowance, calls, wanted)
        }
        "small" => are_answered(alloc, SMALL, allowance, calls, wanted),
        _ => false,
    }
}

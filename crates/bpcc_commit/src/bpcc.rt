ghost use Rattle.tx_types.specs.declared.config.Protocol.TheVariants.{Bpcc as BpccRule};
ghost use Rattle.record_list.proofs.OfChanges.CopyLaw.{copy_law};
ghost use Rattle.record_list.proofs.OfChanges.WrittenChange.{written_partial_write, written_completing_write, written_copy, written_loss};
ghost use Rattle.straddle_sets.proofs.BpccCompleting.{bpcc_completing_write};
ghost use Rattle.straddle_sets.proofs.BpccPartial.{bpcc_partial_write};
ghost use Rattle.straddle_sets.proofs.LossBpcc.{bpcc_loss};

use crate::audit::first_breach;
use record_list::{Breach, CommitRule, Found, Verdict, Why, current_version, reason};
use straddle_sets::answers_for;
use tx_types::Protocol;

/// The rules of Back Pointer Cyclic Commit.
#[derive(Clone, Copy, PartialEq, Eq)]
pub struct Bpcc;

impl CommitRule for Bpcc {
    ghost protocol = { BpccRule };

    fn protocol() -> Protocol {
        Protocol::Bpcc
    }

    fn verdict(list: &[Found], logical: u32, page: u32) -> (Verdict, Why) {
        let why = reason(Protocol::Bpcc, list, logical, page);
        (why.verdict(), why)
    }

    fn current(list: &[Found], logical: u32, page: u32) -> u64 {
        current_version(Protocol::Bpcc, list, logical, page)
    }

    /// No record stands in the way of another.
    fn must_go(_list: &[Found], _logical: u32, _at: usize, _page: u32, _below: u64) -> bool {
        false
    }

    fn held(list: &[Found], logical: u32, at: usize) -> bool {
        let rec = list[at].rec;
        list.iter()
            .any(|found| answers_for(list, logical, rec, found.rec))
    }

    fn audit(list: &[Found], logical: u32) -> Option<Breach> {
        first_breach(list, logical)
    }

    ghost partial_write = { bpcc_partial_write };

    ghost completing_write = { bpcc_completing_write };

    ghost copy = { copy_law BpccRule };

    ghost block_loss = { bpcc_loss };

    ghost written_partial_write = { written_partial_write BpccRule bpcc_partial_write };

    ghost written_completing_write = { written_completing_write BpccRule bpcc_completing_write };

    ghost written_copy = { written_copy BpccRule (copy_law BpccRule) };

    ghost written_block_loss = { written_loss BpccRule bpcc_loss };
}

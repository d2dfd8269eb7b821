ghost use Rattle.tx_types.specs.declared.config.Protocol.TheVariants.{Scc as SccRule};
ghost use Rattle.record_list.proofs.OfChanges.CopyLaw.{copy_law};
ghost use Rattle.record_list.proofs.OfChanges.WrittenChange.{written_partial_write, written_completing_write, written_copy, written_loss};
ghost use Rattle.record_list.proofs.OfCycles.SccCompleting.{scc_completing_write};
ghost use Rattle.record_list.proofs.OfCycles.SccPartial.{scc_partial_write};
ghost use Rattle.record_list.proofs.OfLosses.LossScc.{scc_loss};

use crate::audit::first_breach;
use record_list::{
    Breach, CommitRule, Found, Verdict, Why, current_version, is_loose, mentions_below, reason,
};
use tx_types::Protocol;

/// The rules of Simple Cyclic Commit.
#[derive(Clone, Copy, PartialEq, Eq)]
pub struct Scc;

impl CommitRule for Scc {
    ghost protocol = { SccRule };

    fn protocol() -> Protocol {
        Protocol::Scc
    }

    fn verdict(list: &[Found], logical: u32, page: u32) -> (Verdict, Why) {
        let why = reason(Protocol::Scc, list, logical, page);
        (why.verdict(), why)
    }

    fn current(list: &[Found], logical: u32, page: u32) -> u64 {
        current_version(Protocol::Scc, list, logical, page)
    }

    /// Whether the record is loose and mentions the page below the version.
    fn must_go(list: &[Found], logical: u32, at: usize, page: u32, below: u64) -> bool {
        let rec = list[at].rec;
        mentions_below(rec, page, below) && is_loose(Protocol::Scc, list, logical, rec)
    }

    /// No record is responsible for another.
    fn held(_list: &[Found], _logical: u32, _at: usize) -> bool {
        false
    }

    fn audit(list: &[Found], logical: u32) -> Option<Breach> {
        first_breach(list, logical)
    }

    ghost partial_write = { scc_partial_write };

    ghost completing_write = { scc_completing_write };

    ghost copy = { copy_law SccRule };

    ghost block_loss = { scc_loss };

    ghost written_partial_write = { written_partial_write SccRule scc_partial_write };

    ghost written_completing_write = { written_completing_write SccRule scc_completing_write };

    ghost written_copy = { written_copy SccRule (copy_law SccRule) };

    ghost written_block_loss = { written_loss SccRule scc_loss };
}

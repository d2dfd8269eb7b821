ghost use Rattle.std.specs.Prelude.{◌≡◌, ℕ, ◌<◌, All, length};
ghost use Rattle.tx_types.specs.declared.config.Protocol.{Protocol};
ghost use Rattle.record_list.specs.Changes.{PartialWriteLaw, CompletingWriteLaw, CopyLaw, LossLaw};
ghost use Rattle.record_list.specs.Current.{cur, must_go, is_held};
ghost use Rattle.record_list.specs.Records.{newest, record_at, IsScanned};
ghost use Rattle.record_list.specs.SoundList.{OwnPageExists, IsFirstBreach};
ghost use Rattle.record_list.specs.Verdict.{why, verdict_of};
ghost use Rattle.record_list.specs.WrittenChanges.{WrittenPartialWriteLaw, WrittenCompletingWriteLaw, WrittenCopyLaw, WrittenLossLaw};

use crate::{Breach, Found, Verdict, Why};
use tx_types::Protocol;

/// What a protocol makes of a list of records, and the laws that this keeps: a rule carries its laws with it, so
/// that code which is generic in the rule may rest on them. A list stands in ascending order of distinct slots. No
/// version and no link version of the list is 0, and each record's own page is below `logical`, the
/// number of logical pages. Its link may lead to any page. A report asks for the verdicts of such a list. The functions
/// are the plain programs of the definitions. A device uses the laws alone: its code asks the configuration for the
/// protocol.
pub trait CommitRule {
    ghost protocol: { Protocol };

    /// The protocol whose rules these are.
    fn protocol() -> Protocol
        ensures { result ≡ protocol };

    /// The verdict on the newest record of a page that has a record, and what decides it.
    fn verdict(list: &[Found], logical: u32, page: u32) -> (Verdict, Why)
        requires scanned { IsScanned list.now }
        requires pages { All (OwnPageExists logical) list.now }
        requires found { 0 < newest list.now page }
        ensures verdict { result.0 ≡ verdict_of (why protocol list.now logical page) }
        ensures why { result.1 ≡ why protocol list.now logical page };

    /// The current version of a page, 0 for none.
    fn current(list: &[Found], logical: u32, page: u32) -> u64
        requires scanned { IsScanned list.now }
        requires pages { All (OwnPageExists logical) list.now }
        ensures { result ≡ cur protocol list.now logical page };

    /// Whether the record at this index must go before the version `below` of a page is programmed.
    fn must_go(list: &[Found], logical: u32, at: usize, page: u32, below: u64) -> bool
        requires scanned { IsScanned list.now }
        requires pages { All (OwnPageExists logical) list.now }
        requires within { at < length list.now }
        ensures { result ≡ must_go protocol list.now logical page below (record_at list.now at) };

    /// Whether the record at this index is responsible for some loose record.
    fn held(list: &[Found], logical: u32, at: usize) -> bool
        requires scanned { IsScanned list.now }
        requires pages { All (OwnPageExists logical) list.now }
        requires within { at < length list.now }
        ensures { result ≡ is_held protocol list.now logical (record_at list.now at) };

    /// The first law of a sound list that is broken, and the slot that it names. The pages of the
    /// list may be any.
    fn audit(list: &[Found], logical: u32) -> Option<Breach>
        requires scanned { IsScanned list.now }
        ensures { IsFirstBreach protocol list.now logical result };

    // The commit laws: what the four changes of a list of records keep. Each is a law of a list that
    // keeps laws 1 to 7, and beside it of a list with bytes that keeps laws 1 to 9.
    ghost partial_write: { PartialWriteLaw protocol };

    ghost completing_write: { CompletingWriteLaw protocol };

    ghost copy: { CopyLaw protocol };

    ghost block_loss: { LossLaw protocol };

    ghost written_partial_write: { WrittenPartialWriteLaw protocol };

    ghost written_completing_write: { WrittenCompletingWriteLaw protocol };

    ghost written_copy: { WrittenCopyLaw protocol };

    ghost written_block_loss: { WrittenLossLaw protocol };
}

//! What holds of all lists of records. The functions do nothing: each is there for what it ensures.
ghost use Rattle.std.specs.Prelude.{◌≡◌, ℕ, ◌<◌, ◌≤◌, List};
ghost use Rattle.tx_types.specs.declared.config.Protocol.{Protocol};
ghost use Rattle.tx_types.specs.declared.config.Protocol.TheVariants.{Scc as SccRule};
ghost use Rattle.record_list.specs.ArrayChanges.{PartialWriteLeavesArray, CompletingWriteTakesTransaction, CopyLeavesArray, BlockLossLeavesArray};
ghost use Rattle.record_list.specs.Changes.{PartialWriteLaw, CompletingWriteLaw, CopyLaw, LossLaw};
ghost use Rattle.record_list.specs.Counts.{WriteKeepsCounts, CopyKeepsCounts, LossKeepsCounts, WriteKeepsFlags, OthersKeepFlags, CopyKeepsFlags, LossKeepsFlags};
ghost use Rattle.record_list.specs.Examples.{StraddledVerdict, StraddledIsHeld, NamesakeIsHeld, CopiedHome, UnansweredBreaks, MisledBreaks, ClosedBreaks, TwiceMentioned, CopyMayGo, AskedAfterLoss, WholeOrAbsent, TornWithoutCurrent};
ghost use Rattle.record_list.specs.Losses.{WrittenSlotLossLaw, WriteAfterLossLaw, LostTransactionLaw};
ghost use Rattle.record_list.specs.Records.{newest, IsScanned};
ghost use Rattle.record_list.specs.SoundList.{CurrentIsPresent, IsSoundList};
ghost use Rattle.record_list.specs.Verdict.{newest_name, link_of, walk, why};
ghost use Rattle.record_list.specs.declared.found.Found.{Found};

/// On a sound list as many links as there are pages decide a verdict: a walk that may look at more of
/// them ends alike.
pub fn walk_ends()
    ensures { (protocol : Protocol) (list : List Found) (logical page turns : ℕ) →
        IsSoundList protocol list logical → IsScanned list →
        0 < newest list page → logical ≤ turns →
        walk protocol list (newest_name list page) turns (link_of list (newest_name list page))
        ≡ why protocol list logical page }
{}

/// Under Simple Cyclic Commit no list breaks law 4.
pub fn current_is_present()
    ensures { (list : List Found) (logical : ℕ) (found : Found) →
        CurrentIsPresent SccRule list logical found }
{}

/// Whichever protocol has the commit laws, only a completing write changes the array that a list with
/// bytes stands for, and it changes all pages of its transaction at once.
pub fn array_changes()
    ensures partial_write { (protocol : Protocol) → PartialWriteLaw protocol →
        PartialWriteLeavesArray protocol }
    ensures completing_write { (protocol : Protocol) → CompletingWriteLaw protocol →
        CompletingWriteTakesTransaction protocol }
    ensures copy { (protocol : Protocol) → CopyLaw protocol → CopyLeavesArray protocol }
    ensures block_loss { (protocol : Protocol) → LossLaw protocol → BlockLossLeavesArray protocol }
{}

/// Whichever protocol has the commit laws, any slots may go from a list, as long as each current and each held
/// record has a slot that stays, outside some block. The nine laws stay then, every current version, each
/// transaction in progress, and the array.
pub fn slots_may_go()
    ensures { (protocol : Protocol) → LossLaw protocol → WrittenSlotLossLaw protocol }
{}

/// Whichever protocol has the commit laws, a record that a transaction writes is a write of it also where records
/// were lost before of which none was current or held.
pub fn writes_outlive_losses()
    ensures { (protocol : Protocol) → LossLaw protocol → WriteAfterLossLaw protocol }
{}

/// Whichever protocol has the commit laws, a transaction of which any records were lost is whole or absent: its next
/// record is a partial write where a name of it is absent, and else a completing write. The nine laws stay.
pub fn lost_transactions()
    ensures { (protocol : Protocol) → LossLaw protocol → PartialWriteLaw protocol →
        CompletingWriteLaw protocol → LostTransactionLaw protocol }
{}

/// Law 9 stays where a record of a transaction is written, where a record is copied, and where records
/// are lost. The last two ask for law 2, and none for another law.
pub fn counts_stay()
    ensures write { WriteKeepsCounts }
    ensures copy { CopyKeepsCounts }
    ensures loss { LossKeepsCounts }
{}

/// So do the flags of a transaction. A record that is written has the flag of its name, or is of a
/// transaction that shares no page with it.
pub fn flags_stay()
    ensures write { WriteKeepsFlags }
    ensures others { OthersKeepFlags }
    ensures copy { CopyKeepsFlags }
    ensures loss { LossKeepsFlags }
{}

/// What the definitions say of lists of a few records.
pub fn worked_examples()
    ensures straddled_verdict { StraddledVerdict }
    ensures straddled_is_held { StraddledIsHeld }
    ensures namesake_is_held { NamesakeIsHeld }
    ensures copied_home { CopiedHome }
    ensures unanswered { UnansweredBreaks }
    ensures misled { MisledBreaks }
    ensures closed { ClosedBreaks }
    ensures twice_mentioned { TwiceMentioned }
    ensures copy_may_go { CopyMayGo }
    ensures asked_after_loss { AskedAfterLoss }
    ensures whole_or_absent { WholeOrAbsent }
    ensures torn { TornWithoutCurrent }
{}

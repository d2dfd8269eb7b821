//! What a loss of power leaves. The functions do nothing: each is there for what it ensures.
ghost use Rattle.tx_types.specs.declared.config.Protocol.{Protocol};
ghost use Rattle.lost_writes.specs.AfterLoss.{RepresentsArray, WritingLossLaw, ProgrammingLossLaw, ErasingLossLaw};
ghost use Rattle.lost_writes.specs.Examples.{TwoWait, AbortedBetween, TwoTogether, CopyOrOriginal, FirstIsProgramming};
ghost use Rattle.lost_writes.specs.Fired.{LostWritesLaw};
ghost use Rattle.lost_writes.specs.OnImages.{ImagesAreOneRun, AcknowledgedIsLeft, OthersAreLeftWhole};
ghost use Rattle.lost_writes.specs.Quiet.{QuietProgramsLaw};
ghost use Rattle.lost_writes.specs.Room.{RoomLossLaw};
ghost use Rattle.lost_writes.specs.UnderOneFlush.{StepLoss, FinishLoss, StepAllLoss, AbortLoss};
ghost use Rattle.lost_writes.specs.UnderOneFlush.{CollectLoss, ReadyLoss, LeftIsCut};
ghost use Rattle.lost_writes.specs.Sessions.{LossIsCut, MentionsFall, SessionsAreOneRun};
ghost use Rattle.lost_writes.specs.Sessions.{AcknowledgedSurvives, OthersAreWholeOrAbsent, LossLeavesTransactions};
ghost use Rattle.lost_writes.specs.Waiting.{WaitingLossLaw, TornEraseLaw, EraseIsTorn, BetweenIsTorn, SparedLaw};

use flash_model::Flash;
use record_list::CommitRule;

/// Of an image of which some slots wait a loss leaves a sound one, with the array and all transactions in progress, as
/// long as outside some block each current and each held record has a slot that does not wait.
pub fn waiting_slots_lost<R: CommitRule>()
    ensures { WaitingLossLaw R.protocol }
{}

/// So it does where it tears the erase of a removable block. An erase that is done, or is broken, is such, and so is
/// any mix of what the block held before and what it holds then.
pub fn torn_erase<R: CommitRule>()
    ensures torn { TornEraseLaw R.protocol }
    ensures erase { EraseIsTorn }
    ensures between { BetweenIsTorn }
{}

/// Each current and each held record has a slot that does not wait, outside a block that was removable when nothing
/// waited, where since then only records were programmed that are neither.
pub fn spared_since_flush()
    ensures { (protocol : Protocol) → SparedLaw protocol }
{}

/// Programs that complete no transaction are such: copies, records of transactions that stay open, and programs that
/// were broken and left their slot damaged.
pub fn quiet_programs<R: CommitRule>()
    ensures { QuietProgramsLaw R.protocol }
{}

/// Where records were started that wait, each the next one of its transaction, a loss leaves a sound image, of which
/// each of these transactions is whole or absent, by itself: whatever part of the records it leaves.
pub fn lost_writes<R: CommitRule>()
    ensures { LostWritesLaw R.protocol }
{}

/// The array that a state may have on its image, in a run where at most one transaction is in doubt, is that of the
/// state before it settled, or after.
pub fn represented_arrays()
    ensures { RepresentsArray }
{}

/// What a loss in the middle of a command leaves is sound, and has the array from before the command, or one that a
/// power cut in it allows: where records wait, and where a block is being erased. As a step of a run it is the command
/// in hand with the reply `cut`. No page is mentioned at more then.
pub fn losses_are_cuts<R: CommitRule>()
    ensures writing { WritingLossLaw R.protocol }
    ensures programming { ProgrammingLossLaw R.protocol }
    ensures erasing { ErasingLossLaw R.protocol }
    ensures step { LossIsCut R.protocol }
    ensures mentions { MentionsFall R.protocol }
{}

/// What a loss leaves of a call that collects or makes room is sound, and has the array from before the call: if what
/// waits is made durable before each erase, of whatever part of the slots that were programmed since the last one it
/// leaves, and whatever mix of a block that is being erased.
pub fn room_losses<R: CommitRule>()
    ensures { RoomLossLaw R.protocol }
{}

/// Whatever a loss leaves of a command of a device, broken off anywhere or done, if what waits is made durable before
/// each erase and with each reply, is sound, and has the array from before the command, or one that a cut of it allows:
/// a run goes on there as after the reply `cut`. What a loss may leave blank are the slots that were so at some moment
/// at which the command began, or an erase of it ended, and behind which nothing was erased, with the array still as it
/// was. That what waits was programmed since is for the flash to keep: no clause of a device says it.
pub fn commands_under_one_flush<F: Flash, R: CommitRule>()
    ensures step { StepLoss F.state R.protocol }
    ensures finish { FinishLoss F.state R.protocol }
    ensures together { StepAllLoss F.state R.protocol }
    ensures abort { AbortLoss F.state R.protocol }
    ensures collect { CollectLoss F.state R.protocol }
    ensures ready { ReadyLoss F.state R.protocol }
    ensures cut { LeftIsCut R.protocol }
{
    tx_engine::theorems::crash_states::<F, R>();
}

/// Sessions of which each was broken off by a loss, and begins with what the loss before it left, are one run, from
/// image to image too. So over any number of them a transaction that was acknowledged survives, and any other is whole
/// or absent.
pub fn sessions_are_one_run()
    ensures run { SessionsAreOneRun }
    ensures images { (protocol : Protocol) → ImagesAreOneRun protocol }
    ensures acknowledged { AcknowledgedSurvives }
    ensures others { OthersAreWholeOrAbsent }
    ensures loss { LossLeavesTransactions }
{}

/// What is left on the flash after any number of sessions and losses: an acknowledged transaction is in the array of
/// that image, and any other that was open is there whole or not at all.
pub fn images_that_are_left()
    ensures acknowledged { (protocol : Protocol) → AcknowledgedIsLeft protocol }
    ensures others { (protocol : Protocol) → OthersAreLeftWhole protocol }
{}

/// What the definitions say of images of a few slots, of which a loss leaves some, and of a first transaction.
pub fn worked_examples()
    ensures scc { TwoWait }
    ensures bpcc { AbortedBetween }
    ensures together { TwoTogether }
    ensures copy { CopyOrOriginal }
    ensures first { FirstIsProgramming }
{}

//! What holds of all runs. The functions do nothing: each is there for what it ensures.
ghost use Rattle.std.specs.Prelude.{◌≡◌, ◌⊎◌, ℕ, ◌+◌, ◌≤◌, max, Bool, true, false, List, [], length};
ghost use Rattle.std.specs.Prelude.{◌≢◌, All, Contains, Some, Result};
ghost use Rattle.tx_types.specs.Batch.{PageWrite};
ghost use Rattle.array_machine.specs.ArrayState.{ArrayState, Entry, Pages};
ghost use Rattle.array_machine.specs.ArrayState.{entry_of, idle, is_doubted, page_at, Represents};
ghost use Rattle.array_machine.specs.Step.{IsAtLast};
ghost use Rattle.array_machine.specs.Submit.{Limits};
ghost use Rattle.array_machine.specs.UnbrokenCalls.{AllPlain};
ghost use Rattle.array_machine.specs.declared.mark.Mark.TheVariants.{Whole};
ghost use Rattle.array_machine.specs.declared.answers.Progress.{Progress};
ghost use Rattle.array_machine.specs.declared.answers.StepError.{StepError};
ghost use Rattle.host_protocol.specs.declared.command.Command.{Command};
ghost use Rattle.host_protocol.specs.declared.reply.Reply.{Reply};
ghost use Rattle.host_protocol.specs.declared.reply.Reply.TheVariants.{Fault};
ghost use Rattle.host_protocol.specs.declared.command.Command.TheVariants as command;
ghost use Rattle.host_protocol.specs.declared.reply.Reply.TheVariants as reply;
ghost use Rattle.array_runs.specs.Run.{Run, RunState, Serves, Finishes};
ghost use Rattle.array_runs.specs.Run.{pages_left, is_arm, is_break};
ghost use Rattle.array_runs.specs.Run.{AllAvoid, NoneOpens, HasWhole, HasSame, IsConsistent};
ghost use Rattle.array_runs.specs.Run.{Acknowledges, LosesOpen, IsClosedUnmounted, MayComplete};
ghost use Rattle.array_runs.specs.Run.{ChangesAtOnce, Completes};
ghost use Rattle.array_runs.specs.Breaks.{AreFew, is_lost};
ghost use Rattle.array_runs.specs.Promises.{HasOneDoubt, HasOneOf, WritesOf};
ghost use Rattle.array_runs.specs.Promises.{LeavesArray, LeavesState, opens_tag};
ghost use Rattle.array_runs.specs.Unbroken.{Handed, IsReply, state_after, UnbrokenRun};
ghost use Rattle.array_runs.specs.Unbroken.{AreMaybeSpent, FinishesAreDone, VersionsSuffice};

/// A run without the replies `cut`, `fault` and `dropped`, from a state in which nothing is in doubt or
/// whole, never comes to such a transaction. Its states, and its replies but for what `collect`,
/// `stats` and `explain` tell of the flash, are functions of the commands, the state at the beginning,
/// the pages that are spent at each command, and how many transactions each `stepall` moved. None is
/// spent where no page comes to its last version.
pub fn unbroken_runs()
    ensures command { (limits : Limits) (spent : ℕ → Bool)
        (c : Command) (old : RunState) (r : Reply) (new : RunState) →
        AllPlain old.machine → Serves limits spent c old r new → is_break r ≡ false →
        (moved : ℕ) × (let handed : Handed = record { spent = spent; moved = moved } in
        IsReply limits handed c old.machine r
        × (new.machine ≡ state_after limits handed c old.machine) × AllPlain new.machine) }
    ensures run { (limits : Limits) (seen : ℕ → ℕ)
        (old : RunState) (cs : List Command) (rs : List Reply) (new : RunState) →
        AllPlain old.machine → Run limits seen old cs rs new →
        All (λ r. is_break r ≡ false) rs →
        (hands : List Handed) × AreMaybeSpent seen cs rs hands
        × UnbrokenRun limits hands old.machine cs rs new.machine × AllPlain new.machine }
    ensures unspent { (seen : ℕ → ℕ)
        (cs : List Command) (rs : List Reply) (hands : List Handed) →
        VersionsSuffice seen cs → AreMaybeSpent seen cs rs hands →
        All (λ handed. (page : ℕ) → handed.spent page ≡ false) hands }
{}

/// A `finish` is at most as many steps as the transaction has pages left to write, or one where it
/// has none.
pub fn finishes_end()
    ensures { (old : ArrayState) (mids : List ArrayState) (new : ArrayState) (tag : ℕ)
        (result : Result Progress StepError) →
        Finishes old mids new tag result → length mids + 1 ≤ max 1 (pages_left tag old) }
{}

/// Whatever a command is answered, the array changes by whole transactions alone: by that in doubt,
/// where it turns out to be there, and then by one that the command completed or may have: the one
/// that is answered `done`, and after `cut` one that the command was to complete. Of a `stepall` it is
/// each by itself: of the first ones that it moved those with one page left, and after `cut` or
/// `dropped` any with one page left. Where nothing is in doubt, a command that completes none leaves
/// the array.
pub fn arrays_change_at_once()
    ensures at_once { (limits : Limits) (spent : ℕ → Bool)
        (c : Command) (old : RunState) (r : Reply) (new : RunState) →
        Serves limits spent c old r new → ChangesAtOnce c r old.machine new.machine }
    ensures stays { (limits : Limits) (spent : ℕ → Bool)
        (c : Command) (old : RunState) (r : Reply) (new : RunState) →
        Serves limits spent c old r new →
        All (λ e. is_doubted e.mark ≡ false) old.machine.entries →
        ((e : Entry) → Contains old.machine.entries e → Completes c old.machine r e → ⊥) →
        new.machine.pages ≡ old.machine.pages }
{}

/// At most one transaction is in doubt. It came to be so by a `step` or a `finish` of its own that
/// was to write its last page and was answered `fault`.
pub fn doubtful_transactions()
    ensures idle { (pages : Pages) → HasOneDoubt (idle pages) }
    ensures one { (limits : Limits) (seen : ℕ → ℕ)
        (old : RunState) (cs : List Command) (rs : List Reply) (new : RunState) →
        Run limits seen old cs rs new → HasOneDoubt old.machine → HasOneDoubt new.machine }
    ensures arises { (limits : Limits) (spent : ℕ → Bool)
        (c : Command) (old : RunState) (r : Reply) (new : RunState) (e : Entry) →
        Serves limits spent c old r new → Contains new.machine.entries e →
        is_doubted e.mark ≡ true → Contains old.machine.entries e
        ⊎ ((r ≡ Fault) × WritesOf c e.tag × IsAtLast e) }
{}

/// A `write`, `stats`, `explain` or arm never changes the array, and a `read` does not unless power
/// was cut in it. All of these but a `write` leave the open transactions too.
pub fn arrays_are_left()
    ensures array { (limits : Limits) (spent : ℕ → Bool)
        (c : Command) (old : RunState) (r : Reply) (new : RunState) →
        LeavesArray c r → Serves limits spent c old r new →
        new.machine.pages ≡ old.machine.pages }
    ensures state { (limits : Limits) (spent : ℕ → Bool)
        (c : Command) (old : RunState) (r : Reply) (new : RunState) →
        LeavesState c r → Serves limits spent c old r new → new.machine ≡ old.machine }
{}

/// A page that no open transaction writes has what it had, over cuts and faults, until a write of
/// that page is opened.
pub fn pages_change_by_writes()
    ensures { (limits : Limits) (seen : ℕ → ℕ)
        (old : RunState) (cs : List Command) (rs : List Reply) (new : RunState) (page : ℕ) →
        Run limits seen old cs rs new →
        AllAvoid page old.machine.entries → NoneOpens page cs rs →
        page_at new.machine.pages page ≡ page_at old.machine.pages page }
{}

/// Over cuts and faults the open transactions write no page twice, and what a whole one writes is
/// in the array.
pub fn consistent_runs()
    ensures idle { (pages : Pages) → IsConsistent (idle pages) }
    ensures run { (limits : Limits) (seen : ℕ → ℕ)
        (old : RunState) (cs : List Command) (rs : List Reply) (new : RunState) →
        Run limits seen old cs rs new →
        length old.machine.pages ≡ limits.logical → IsConsistent old.machine →
        (length new.machine.pages ≡ limits.logical) × IsConsistent new.machine }
{}

/// Over cuts and faults nothing is open while no device is mounted.
pub fn unmounted_runs()
    ensures { (limits : Limits) (seen : ℕ → ℕ)
        (old : RunState) (cs : List Command) (rs : List Reply) (new : RunState) →
        Run limits seen old cs rs new → IsClosedUnmounted old → IsClosedUnmounted new }
{}

/// A transaction that is acknowledged, by `done` or `late` or as one that a `stepall` finished, is in
/// the array from then on, and in each array that an image may have then: over cuts and faults each of
/// its pages has what it wrote until a write of that page is opened.
pub fn acknowledged_transactions()
    ensures { (limits : Limits) (spent : ℕ → Bool)
        (c : Command) (old : RunState) (r : Reply) (mid : RunState) (e : Entry)
        (seen : ℕ → ℕ) (cs : List Command) (rs : List Reply) (new : RunState)
        (pages : Pages) (w : PageWrite) →
        IsConsistent old.machine →
        Serves limits spent c old r mid → Acknowledges c old.machine r e →
        Run limits seen mid cs rs new → Represents new.machine pages →
        Contains e.writes w → NoneOpens w.page cs rs →
        page_at pages w.page ≡ w.value }
{}

/// Over cuts and faults no two open transactions have one tag.
pub fn tagged_transactions()
    ensures idle { (pages : Pages) (tag : ℕ) → HasOneOf tag (idle pages) }
    ensures one { (limits : Limits) (seen : ℕ → ℕ)
        (old : RunState) (cs : List Command) (rs : List Reply) (new : RunState) (tag : ℕ) →
        Run limits seen old cs rs new → HasOneOf tag old.machine → HasOneOf tag new.machine }
{}

/// A transaction that is answered `aborted` has changed nothing: it was open and not whole, and each
/// of its pages has what it had when it was opened, or at any time while it was open.
pub fn aborted_transactions()
    ensures open { (limits : Limits) (spent : ℕ → Bool)
        (old : RunState) (new : RunState) (tag : ℕ) →
        IsConsistent old.machine →
        Serves limits spent (command.Abort tag) old (reply.Aborted tag) new → (e : Entry) × (entry_of tag old.machine.entries ≡ Some e) × (e.mark ≢ Whole)
        × HasSame old.machine.pages new.machine.pages e }
    ensures nothing { (limits : Limits) (seen : ℕ → ℕ)
        (old : RunState) (cs : List Command) (rs : List Reply) (mid : RunState)
        (spent : ℕ → Bool) (new : RunState) (tag : ℕ) (e : Entry) →
        length old.machine.pages ≡ limits.logical → IsConsistent old.machine →
        HasOneOf tag old.machine → entry_of tag old.machine.entries ≡ Some e →
        Run limits seen old cs rs mid → All (λ r. opens_tag tag r ≡ false) rs →
        Serves limits spent (command.Abort tag) mid (reply.Aborted tag) new →
        HasSame old.machine.pages new.machine.pages e }
{}

/// Over any commands, cuts and faults, until a write of one of its pages is opened, an open
/// transaction is in the array, and in each array that an image may have then, wholly or not at
/// all.
pub fn transactions_are_atomic()
    ensures { (limits : Limits) (seen : ℕ → ℕ)
        (old : RunState) (cs : List Command) (rs : List Reply) (new : RunState)
        (pages : Pages) (e : Entry) →
        IsConsistent old.machine → Contains old.machine.entries e →
        Run limits seen old cs rs new → Represents new.machine pages →
        All (λ w. NoneOpens w.page cs rs) e.writes →
        HasWhole pages e ⊎ HasSame old.machine.pages pages e }
{}

/// After the reply `cut` nothing is open, also where power was cut in the mount before the command,
/// and nothing after `dropped`. A transaction that was open is in the array wholly or not at all: a
/// whole one stays, and of one that was not in doubt, and that the command could not complete (by a
/// `finish` of it, or a `step` of it or a `stepall` at its last page), the pages are as they were.
pub fn cut_transactions()
    ensures closed { (limits : Limits) (spent : ℕ → Bool)
        (c : Command) (old : RunState) (r : Reply) (new : RunState) →
        IsClosedUnmounted old → Serves limits spent c old r new → is_lost r ≡ true →
        new.machine.entries ≡ [] }
    ensures none_open { (c : Command) (old : RunState) (r : Reply) (new : RunState) →
        LosesOpen c old r new → new.machine.entries ≡ [] }
    ensures atomic { (c : Command) (old : RunState) (r : Reply) (new : RunState) (e : Entry) →
        IsConsistent old.machine → LosesOpen c old r new → Contains old.machine.entries e →
        HasWhole new.machine.pages e ⊎ HasSame old.machine.pages new.machine.pages e }
    ensures whole { (c : Command) (old : RunState) (r : Reply) (new : RunState) (e : Entry) →
        IsConsistent old.machine → LosesOpen c old r new → Contains old.machine.entries e →
        e.mark ≡ Whole → HasWhole new.machine.pages e }
    ensures others { (c : Command) (old : RunState) (r : Reply) (new : RunState) (e : Entry) →
        IsConsistent old.machine → LosesOpen c old r new → Contains old.machine.entries e →
        is_doubted e.mark ≡ false → (MayComplete c e → ⊥) →
        HasSame old.machine.pages new.machine.pages e }
{}

/// Where no command sets an arm, and no cut and no fault was to come by itself, no reply is `cut`,
/// `fault` or `dropped`. Each `finish` of an open transaction then replies `done`.
pub fn quiet_runs()
    ensures none { (cs : List Command) (rs : List Reply) →
        All (λ c. is_arm c ≡ false) cs → AreFew 0 0 cs rs →
        All (λ r. is_break r ≡ false) rs }
    ensures finish { (limits : Limits) (hands : List Handed)
        (old : ArrayState) (cs : List Command) (rs : List Reply) (new : ArrayState) →
        UnbrokenRun limits hands old cs rs new → FinishesAreDone limits hands old cs rs }
{}

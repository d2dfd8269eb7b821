//! What holds of all runs on a flash. The functions do nothing: each is there for what it ensures.
ghost use Rattle.std.specs.Prelude.{◌≡◌, ◌+◌, ◌-◌, ◌*◌, ◌<◌, ◌≤◌, ◌^◌, ℕ, Bool, true, false, List, length, All, Some, IfSome, IsSome, if◌then◌else◌};
ghost use Rattle.tx_types.specs.declared.config.Config.{Config};
ghost use Rattle.flash_model.specs.Flash.{FlashState, Told, counted_times, IsSteady};
ghost use Rattle.flash_model.specs.Operations.{Moment, moment_of, starts_in};
ghost use Rattle.flash_model.specs.declared.outcome.Outcome.{Outcome};
ghost use Rattle.tx_engine.specs.DeviceState.{limits_of};
ghost use Rattle.host_protocol.specs.declared.command.Command.{Command};
ghost use Rattle.host_protocol.specs.declared.reply.Reply.{Reply};
ghost use Rattle.host_protocol.specs.declared.command.Command.TheVariants as command;
ghost use Rattle.host_protocol.specs.declared.reply.Reply.TheVariants as reply;
ghost use Rattle.array_runs.specs.Breaks.{arms_cut, is_cut};
ghost use Rattle.array_runs.specs.Run.{Run, IsClosedUnmounted, is_break};
ghost use Rattle.cut_replay.specs.Bounds.{SpendsTold, CountsBreaks, LastIsSet};
ghost use Rattle.cut_replay.specs.Costs.{CostsAtMost, CostsCollection};
ghost use Rattle.cut_replay.specs.CutsDue.{CutIsDue};
ghost use Rattle.cut_replay.specs.MountedAgain.{CountsMounts};
ghost use Rattle.cut_replay.specs.Served.{Watched, ServesRun, EndsThere};
ghost use Rattle.cut_replay.specs.FlashCalls.{MountsFlash};
ghost use Rattle.cut_replay.specs.Started.{operations_in};
ghost use Rattle.cut_replay.specs.FlashRun.{Point, IsPoint, IsArmed, IsLost, IsNotDone, MovesBy, is_still, FlashRun, IsFlashRun, first_point, first_state, last_moment, last_point, last_state, mentions_in};

/// The state at which a run on a flash begins has an array of all logical pages, and nothing open.
pub fn first_states()
    ensures pages { (its : Config) (up : Bool) (from : Moment) →
        length (first_state its up from).machine.pages ≡ (limits_of its).logical }
    ensures closed { (its : Config) (up : Bool) (from : Moment) →
        IsClosedUnmounted (first_state its up from) }
{}

/// A run on a flash is a run of the array machine, from the array of the image that the flash had.
pub fn flash_runs_are_runs()
    ensures { (its : Config) (from : Moment)
        (cs : List Command) (rs : List Reply) (ps : List Point) →
        (run : IsFlashRun its from cs rs ps) →
        Run (limits_of its) (mentions_in its from) (first_state its run.up from) cs rs
        (last_state (first_state its run.up from) ps) }
{}

/// Where a flash tells its arms, a cut that is armed comes at the operation of its number, counted from the arm on,
/// over all commands, mounts and collections, unless another cut is armed before. While no reply is `cut`, fewer are
/// started. Where the reply is `cut`, power went off with just so many started (`calls`). A mount starts nothing, so
/// none ends in `cut` there (`mount`), and no command ends in it that asks for no program and no erase (`still`),
/// unless the count of what was started stands at its end.
pub fn cuts_come_due()
    ensures armed { (count : ℕ) (what : Outcome) (old : Point) (r : Reply) (new : Point) (told : Told) →
        1 ≤ count → IsArmed (command.Cut count what) old r new → new.flash.told ≡ Some told →
        CutIsDue (new.flash.started + count) what new.flash }
    ensures waits { (due : ℕ) (what : Outcome) → due < 2 ^ 64 →
        (its : Config) (seen : ℕ → ℕ) (faulted : Bool) (old : Point)
        (cs : List Command) (rs : List Reply) (ps : List Point) → IsPoint its old →
        FlashRun its seen faulted old cs rs ps →
        All (λ c. arms_cut c ≡ false) cs → All (λ r. is_cut r ≡ false) rs → CutIsDue due what old.flash →
        CutIsDue due what (last_point old ps).flash }
    ensures calls { (due : ℕ) (what : Outcome) → due < 2 ^ 64 →
        (its : Config) (c : Command) (old : Point) (r : Reply) (met : FlashState) (new : Point) →
        IsPoint its old → IsLost its c old r met new → r ≡ reply.Cut → CutIsDue due what old.flash →
        met.started ≡ due }
    ensures mount { (its : Config) (old : Point) (r : Reply) (new : Point) → IsNotDone its old r new →
        IsSome old.flash.told → old.flash.started + 1 < 2 ^ 64 → r ≡ reply.Cut → ⊥ }
    ensures still { (its : Config) (c : Command) (old : Point) (r : Reply) (met : FlashState) (new : Point) →
        IsPoint its old → IsLost its c old r met new → MountsFlash its new.state.up met new.flash →
        is_still c ≡ true → IsSome old.flash.told → old.flash.started + 1 < 2 ^ 64 → r ≡ reply.Cut → ⊥ }
{}

/// The operations by which a command moves the flash, with the one that was broken, are those that the flash counts as
/// started meanwhile; programs that are started together are one (`moves`). They are no more than the programs and
/// erases that the flash counts, and one that was broken (`few`). So what a command takes at most bounds their number
/// (`most`). A collection that breaks off has no more of them than a whole one (`collection`). A cut that is due comes
/// with so many started (`cut`).
pub fn operations_are_started()
    ensures moves { (its : Config) (c : Command) (r : Reply) (old new : Moment) → (by : MovesBy its c r old new) →
        new.started ≡ counted_times (starts_in (operations_in its c r old new by)) old.started }
    ensures few { (its : Config) (c : Command) (r : Reply) (old new : Moment) → (by : MovesBy its c r old new) →
        new.programs + 1 < 2 ^ 64 → new.erases + 1 < 2 ^ 64 →
        old.programs + old.erases + starts_in (operations_in its c r old new by)
        ≤ new.programs + new.erases + (if is_break r then 1 else 0) }
    ensures most { (its : Config) (c : Command) (r : Reply) (old new : Moment) → (by : MovesBy its c r old new) →
        new.programs + 1 < 2 ^ 64 → new.erases + 1 < 2 ^ 64 →
        (pages collections : ℕ) → CostsAtMost its pages collections old new →
        starts_in (operations_in its c r old new by)
        ≤ pages + collections * (its.pages_per_block - 1) + collections * 2 + (if is_break r then 1 else 0) }
    ensures collection { (its : Config) (c : Command) (r : Reply) (old new : Moment) → (by : MovesBy its c r old new) →
        new.programs + 1 < 2 ^ 64 → new.erases + 1 < 2 ^ 64 → CostsCollection its r old new →
        starts_in (operations_in its c r old new by) ≤ its.pages_per_block - 1 + 2 }
    ensures cut { (due : ℕ) (what : Outcome) → due + 1 < 2 ^ 64 →
        (its : Config) (c : Command) (old : Point) (r : Reply) (met : FlashState) (new : Point) →
        IsPoint its old → (lost : IsLost its c old r met new) → MountsFlash its new.state.up met new.flash →
        r ≡ reply.Cut → CutIsDue due what old.flash →
        old.flash.started
        + starts_in (operations_in its c r (moment_of old.flash) (moment_of new.flash) lost.moves) ≡ due }
{}

/// What is said of each command of a run adds up. No more cuts and faults are replied than were to come and were armed
/// (`spends`). The flash counted each of them, and each mount that met a fault after `cut` or `dropped`; none, where
/// none is replied and nothing breaks before the first command (`faults`, `mounts`). A live flash that tells that no
/// break is to come is mounted before the first command (`up`). Where the last command is an arm, it is set at the end
/// (`set`), and where a device is mounted then, power is on (`live`).
pub fn runs_add_up()
    ensures last { (its : Config) (cs : List Command) (told : ℕ) (old new : FlashState) (before after : Watched) →
        (serves : ServesRun its cs told old new before after) →
        moment_of new ≡ last_moment (moment_of old) serves.points }
    ensures spends { (its : Config) (cs : List Command) (told : ℕ) (old new : FlashState)
        (before after : Watched) → (serves : ServesRun its cs told old new before after) →
        SpendsTold cs serves.replies old.told new.told }
    ensures faults { (its : Config) (cs : List Command) (told : ℕ) (old new : FlashState)
        (before after : Watched) → (serves : ServesRun its cs told old new before after) →
        CountsBreaks serves.replies old new }
    ensures mounts { (its : Config) (cs : List Command) (told : ℕ) (old new : FlashState)
        (before after : Watched) → (serves : ServesRun its cs told old new before after) →
        CountsMounts its (first_point its serves.run.up serves.run.flash) serves.replies serves.points old new }
    ensures up { (its : Config) (cs : List Command) (told : ℕ) (old new : FlashState) (before after : Watched) →
        (serves : ServesRun its cs told old new before after) → IsSteady old →
        serves.run.up ≡ true }
    ensures set { (its : Config) (cs : List Command) (told : ℕ) (old new : FlashState) (before after : Watched) →
        (serves : ServesRun its cs told old new before after) →
        EndsThere its cs told old new before after serves → IfSome new.told (LastIsSet cs) }
    ensures live { (its : Config) (cs : List Command) (told : ℕ) (old new : FlashState) (before after : Watched) →
        (serves : ServesRun its cs told old new before after) →
        EndsThere its cs told old new before after serves →
        (last_state (first_state its serves.run.up (moment_of old)) serves.points).up ≡ true →
        new.live ≡ true }
{}

//! What holds of single calls. The functions do nothing: each is there for what it ensures.
ghost use Rattle.std.specs.Prelude.{◌≡◌, ◌≢◌, ℕ, Bool, List, [], ◌∷◌, Result, Ok, Err};
ghost use Rattle.array_machine.specs.ArrayState.{ArrayState, Entry, entry_of};
ghost use Rattle.array_machine.specs.Step.{Steps, StepsAs, Aborts, settled};
ghost use Rattle.array_machine.specs.UnbrokenCalls.{AllPlain, step_answer, stepped, abort_answer, aborted_from};
ghost use Rattle.array_machine.specs.declared.answers.Aborted.{Aborted};
ghost use Rattle.array_machine.specs.declared.answers.Moved.{Moved};
ghost use Rattle.array_machine.specs.declared.answers.Progress.{Progress};
ghost use Rattle.array_machine.specs.declared.answers.StepError.{StepError};
ghost use Rattle.array_machine.specs.declared.answers.StepError.TheVariants as failed;
ghost use Rattle.array_machine.specs.Batches.{StepsAllAs};
ghost use Rattle.array_machine.specs.BatchExamples.{FirstTwoMove, SecondMoves, NoneMoves, SecondIsTaken, UnfinishedStays};

/// Where nothing is in doubt, settling changes nothing, and a step and an abort that meet no fault are functions of
/// the state and the tag, which put nothing in doubt.
pub fn unbroken_calls()
    ensures settled { (there : Bool) (s : ArrayState) → AllPlain s → settled there s ≡ s }
    ensures step { (old new : ArrayState) (tag : ℕ) (result : Result Progress StepError) →
        AllPlain old → Steps old new tag result → result ≢ Err failed.Fault →
        (result ≡ step_answer (entry_of tag old.entries))
        × (new ≡ stepped (entry_of tag old.entries) tag old) × AllPlain new }
    ensures abort { (old new : ArrayState) (tag : ℕ) (result : Result Aborted StepError) →
        AllPlain old → Aborts old new tag result → result ≢ Err failed.Fault →
        (result ≡ abort_answer (entry_of tag old.entries))
        × (new ≡ aborted_from (entry_of tag old.entries) tag old) × AllPlain new }
{}

/// Where several transactions go on at once and one of them did, that is a step of the first one. Of two transactions
/// the first is done and the second is left with a page, and then that one is done by itself. After a broken call the
/// second may be there without the first, and none that has two pages left.
pub fn batches_are_steps()
    ensures one { (there : Bool) (old new : ArrayState) (e : Entry) (es : List Entry) (answer : Moved) →
        old.entries ≡ e ∷ es → answer.moved ≡ 1 → StepsAllAs there old new answer →
        (progress : Progress) × StepsAs there old new e.tag (Ok progress) }
    ensures none { (there : Bool) (old new : ArrayState) (answer : Moved) →
        old.entries ≡ [] → StepsAllAs there old new answer →
        (answer.moved ≡ 0) × (answer.finished ≡ 0) × (new ≡ settled there old) }
    ensures two { FirstTwoMove }
    ensures then { SecondMoves }
    ensures last { NoneMoves }
    ensures taken { SecondIsTaken }
    ensures left { UnfinishedStays }
{}

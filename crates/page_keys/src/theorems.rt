//! What holds of all arrays of buckets and of all runs of the map machine. The functions do nothing: each is there for
//! what it ensures.
ghost use Rattle.std.specs.Prelude.{◌≡◌, ◌<◌, ℕ, List, Some};
ghost use Rattle.tx_types.specs.declared.config.Config.{Config};
ghost use Rattle.array_machine.specs.ArrayState.{Pages};
ghost use Rattle.flash_model.specs.Flash.{Told};
ghost use Rattle.page_keys.specs.Buckets.{AreBuckets, EncodesMap};
ghost use Rattle.page_keys.specs.KeyMaps.{KeyMap};
ghost use Rattle.page_keys.specs.KeyRuns.{KeyPoint, KeyRun, ChangesAtOnce, AreFewBreaks, IsKeyPoint, IsKeyRun, last_point};
ghost use Rattle.page_keys.specs.declared.command.KeyCommand.{KeyCommand};
ghost use Rattle.page_keys.specs.declared.key_reply.KeyReply.{KeyReply};

/// An array shows a map exactly where its pages are buckets, and one map at most.
pub fn arrays_show_maps()
    ensures some { (its : Config) (pages : Pages) → AreBuckets its pages →
        (m : KeyMap) × EncodesMap its pages m }
    ensures only { (its : Config) (pages : Pages) (m : KeyMap) → EncodesMap its pages m →
        AreBuckets its pages }
    ensures one_map { (its : Config) (pages : Pages) (m n : KeyMap) → 0 < its.logical →
        EncodesMap its pages m → EncodesMap its pages n → m ≡ n }
{}

/// In a run each put is there wholly or not at all, whatever is cut or fails, and one that was told as stored is there.
/// There are no more cuts and faults than were to come and were armed.
pub fn puts_are_whole()
    ensures at_once { (its : Config) (seen : ℕ → ℕ) (old : KeyPoint)
        (cs : List KeyCommand) (rs : List KeyReply) (ps : List KeyPoint) →
        KeyRun its seen old cs rs ps → ChangesAtOnce old cs rs ps }
    ensures few { (its : Config) (seen : ℕ → ℕ) (old : KeyPoint)
        (cs : List KeyCommand) (rs : List KeyReply) (ps : List KeyPoint) (told : Told) →
        old.flash.told ≡ Some told → KeyRun its seen old cs rs ps →
        AreFewBreaks told.cuts told.breaks cs rs }
{}

/// A run ends at a point whose image is sound and shows the map that its commands leave.
pub fn runs_leave_maps()
    ensures { (its : Config) (first : KeyPoint)
        (cs : List KeyCommand) (rs : List KeyReply) (ps : List KeyPoint) →
        IsKeyRun its first cs rs ps → IsKeyPoint its (last_point first ps) }
{}

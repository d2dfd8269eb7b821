//! What holds of all files. The functions do nothing: each is there for what it ensures.
ghost use Rattle.std.specs.Prelude.{◌≡◌, ◌≢◌, ◌+◌, ◌≤◌, ℕ, List, [], ◌∷◌, length, All};
ghost use Rattle.flash_model.specs.Flash.{blank, damaged};
ghost use Rattle.file_flash.specs.Files.{FileState, LeavesBytes, Writes, Syncs, ReadsFile};
ghost use Rattle.file_flash.specs.Losing.{IsWithout, IsBetween};
ghost use Rattle.file_flash.specs.LossExamples.{three, three_written, three_synced, three_copied, first_slot, second_slot, slot_0, slot_1};

/// A write within a file can be done, and so can a sync, and a file of which each byte has a value can be read. So what
/// is assumed of these calls does not contradict itself.
pub fn calls_can_be_done()
    ensures writes { (offset : ℕ) (bytes : List ℕ) (old : FileState) → offset + length bytes ≤ length old.values →
        (new : FileState) × Writes offset bytes old new }
    ensures syncs { (old : FileState) → (new : FileState) × Syncs old new }
    ensures reads { (file : FileState) → All (λ values. values ≢ []) file.values →
        (bytes : List ℕ) × ReadsFile bytes file }
{}

/// Where 9 is written over the second of three bytes, a loss leaves the old byte or the new one, and after a sync only
/// the new one. Where that was before the file was opened, a sync may change nothing, and the old byte may be read. Of
/// two slots that wait, the second alone may be left; a slot that does not wait is left. Of a block that is erased, the
/// second slot alone may be left, and no slot is left damaged.
pub fn loss_examples()
    ensures write { Writes 1 (9 ∷ []) three three_written }
    ensures old { LeavesBytes three_written (1 ∷ 2 ∷ 3 ∷ []) }
    ensures new { LeavesBytes three_written (1 ∷ 9 ∷ 3 ∷ []) }
    ensures sync { Syncs three_written three_synced }
    ensures durable { LeavesBytes three_synced (1 ∷ 2 ∷ 3 ∷ []) → ⊥ }
    ensures copied { Syncs three_copied three_copied }
    ensures read { ReadsFile (1 ∷ 2 ∷ 3 ∷ []) three_copied }
    ensures without { IsWithout (first_slot ∷ second_slot ∷ []) (slot_0 ∷ slot_1 ∷ [])
        (blank ∷ second_slot ∷ []) }
    ensures stays { IsWithout (first_slot ∷ second_slot ∷ []) (slot_0 ∷ []) (first_slot ∷ blank ∷ []) → ⊥ }
    ensures between { IsBetween (first_slot ∷ second_slot ∷ []) (blank ∷ blank ∷ []) (blank ∷ second_slot ∷ []) }
    ensures whole { IsBetween (first_slot ∷ second_slot ∷ []) (blank ∷ blank ∷ [])
        (damaged ∷ second_slot ∷ []) → ⊥ }
{}

//! What holds of all slots and of all torn writes. The functions do nothing: each is there for what it ensures.
ghost use Rattle.std.specs.Prelude.{◌≡◌, ◌≤◌, ◌<◌, ◌+◌, ℕ, List, [], ◌∷◌, length, All, replicate, true, false};
ghost use Rattle.zero_count.specs.Zeros.{counted, own_of, number_of, zeros, is_whole, erased, IsTorn, IsFewer, number_bytes, max_own_bytes};
ghost use Rattle.zero_count.specs.Examples.{slot, number_first, number_torn, all_set, zeros_torn};

/// A slot that was written over an erased one, or of which an erase was torn, is never whole but with all its bytes:
/// an erased byte has no zero bit, and is the greatest at its place of a number. So of a slot of which some bytes are
/// erased either the zero bits fall or the number rises, and never the other way round.
pub fn torn_slots()
    ensures fewer { (slot left : List ℕ) → All (λ b. b < 256) slot → number_bytes ≤ length slot →
        IsTorn (erased (length slot)) slot left → IsFewer slot left }
    ensures program { (own left : List ℕ) → All (λ b. b < 256) own → length own ≤ max_own_bytes →
        IsTorn (erased (length own + number_bytes)) (counted own) left →
        is_whole left ≡ true → left ≡ counted own }
    ensures erase { (own left : List ℕ) → All (λ b. b < 256) own → length own ≤ max_own_bytes →
        IsTorn (counted own) (erased (length own + number_bytes)) left →
        is_whole left ≡ true → left ≡ counted own }
    ensures under { (slot left : List ℕ) → All (λ b. b < 256) slot → number_bytes ≤ length slot →
        zeros (own_of slot) < number_of slot →
        IsTorn (erased (length slot)) slot left → zeros (own_of left) < number_of left }
{}

/// A slot with its number is whole and has the own bytes that it was made of. The number is below 2 ^ 31, so its last
/// byte is below 128. An erased slot is not whole: its number is greater than any number of zero bits.
pub fn whole_slots()
    ensures whole { (own : List ℕ) → length own ≤ max_own_bytes → is_whole (counted own) ≡ true }
    ensures own { (own : List ℕ) → own_of (counted own) ≡ own }
    ensures number { (own : List ℕ) → length own ≤ max_own_bytes → number_of (counted own) ≡ zeros own }
    ensures erased { (n : ℕ) → n ≤ max_own_bytes → zeros (own_of (erased (n + number_bytes))) ≡ 0 }
    ensures blank { (n : ℕ) → number_of (erased (n + number_bytes)) ≡ 4294967295 }
{}

/// Worked slots of two own bytes. The number may come first, or in part: the slot is not whole. Own bytes without a
/// zero bit are contents as any other. Zeros, as a slot without contents, would not do: torn they read as a whole slot.
pub fn worked_examples()
    ensures counted { counted (15 ∷ 255 ∷ []) ≡ slot }
    ensures whole { is_whole slot ≡ true }
    ensures first { is_whole number_first ≡ false }
    ensures torn { is_whole number_torn ≡ false }
    ensures erased { is_whole (erased 6) ≡ false }
    ensures set { is_whole all_set ≡ true }
    ensures trap { IsTorn (erased 6) (replicate 6 0) zeros_torn }
    ensures trapped { is_whole zeros_torn ≡ true }
{}

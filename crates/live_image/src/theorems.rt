//! What holds of all slots of a live file. The function does nothing: it is there for what it ensures.
ghost use Rattle.std.specs.Prelude.{◌≡◌, ◌⊎◌, ◌≤◌, ◌<◌, ◌+◌, ◌++◌, ℕ, List, length, All};
ghost use Rattle.flash_model.specs.Flash.{Contents, blank, damaged, complete, IsWhole};
ghost use Rattle.zero_count.specs.Zeros.{counted, erased, IsTorn, number_bytes, max_own_bytes};
ghost use Rattle.live_image.specs.Slots.{live_contents, last_of, damage_byte, IsCounted, slot_bytes};

/// Of a slot that is written over an erased one, or erased, a loss leaves what it holds or nothing, whatever was torn,
/// and it is a slot of a live file still; so it is of a torn one that is erased again. A slot is damaged by its last
/// byte, whatever its others are.
pub fn torn_slots_read()
    ensures over { (page_bytes : ℕ) (slot left : List ℕ) → All (λ b. b < 256) slot →
        number_bytes ≤ length slot → length slot ≤ max_own_bytes + number_bytes → IsCounted slot →
        IsTorn (erased (length slot)) slot left →
        (live_contents page_bytes left ≡ live_contents page_bytes slot) ⊎ (live_contents page_bytes left ≡ blank) }
    ensures counted { (slot left : List ℕ) → All (λ b. b < 256) slot → number_bytes ≤ length slot →
        length slot ≤ max_own_bytes + number_bytes → IsCounted slot →
        IsTorn (erased (length slot)) slot left → IsCounted left }
    ensures complete { (page_bytes : ℕ) (bytes spare_area : List ℕ) →
        IsWhole page_bytes (complete bytes spare_area) → slot_bytes page_bytes ≤ max_own_bytes →
        live_contents page_bytes (counted (bytes ++ spare_area)) ≡ complete bytes spare_area }
    ensures damage { (page_bytes : ℕ) (slot : List ℕ) → number_bytes ≤ length slot →
        length slot ≤ max_own_bytes + number_bytes → last_of slot ≡ damage_byte →
        (live_contents page_bytes slot ≡ damaged) × IsCounted slot }
    ensures blank { (page_bytes : ℕ) → slot_bytes page_bytes ≤ max_own_bytes →
        live_contents page_bytes (erased (slot_bytes page_bytes)) ≡ blank }
{}

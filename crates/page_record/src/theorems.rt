//! What holds of all spellings. The functions do nothing: each is there for what it ensures.
ghost use Rattle.std.specs.Prelude.{◌≡◌, ℕ, ◌↔◌, List, length, Some, is_some, is_none, IsTrue};
ghost use Rattle.tx_types.specs.declared.config.Protocol.{Protocol};
ghost use Rattle.tx_types.specs.declared.record.Rec.{Rec};
ghost use Rattle.page_record.specs.Rules.{first_broken, is_area, record_of, IsFirstBrokenRule};
ghost use Rattle.page_record.specs.Spelling.{spelling, CanBeSpelled};
ghost use Rattle.page_record.specs.declared.error.SpareError.{SpareError};

/// A spelling fills a spare area, and no two records have the same one.
pub fn one_spelling()
    ensures length { (protocol : Protocol) (rec : Rec) → length (spelling protocol rec) ≡ 64 }
    ensures one { (p q : Protocol) (a b : Rec) → CanBeSpelled p a → CanBeSpelled q b →
        spelling p a ≡ spelling q b → (p ≡ q) × (a ≡ b) }
{}

/// The bytes in which a record is found are those of its spelling, and a spare area has a record or
/// breaks a rule.
pub fn spelled_records()
    ensures spelled { (protocol : Protocol) (bytes : List ℕ) (rec : Rec) →
        (record_of protocol bytes ≡ Some rec)
        ↔ (CanBeSpelled protocol rec × (bytes ≡ spelling protocol rec)) }
    ensures either { (protocol : Protocol) (bytes : List ℕ) → IsTrue (is_area bytes) →
        is_some (record_of protocol bytes) ≡ is_none (first_broken protocol bytes) }
{}

/// The first rule that is broken is broken, and each rule that is tried before it holds.
pub fn first_rule()
    ensures { (protocol : Protocol) (bytes : List ℕ) (rule : SpareError) →
        first_broken protocol bytes ≡ Some rule → IsFirstBrokenRule protocol bytes rule }
{}

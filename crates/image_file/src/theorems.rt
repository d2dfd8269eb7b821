//! What holds of all spellings. The functions do nothing: each is there for what it ensures.
ghost use Rattle.std.specs.Prelude.{◌≡◌, ◌↔◌, ◌<◌, ℕ, List, length, All, Ok};
ghost use Rattle.tx_types.specs.Config.{shape_of, image_bytes};
ghost use Rattle.tx_types.specs.declared.config.Config.{Config};
ghost use Rattle.flash_model.specs.Flash.{Contents, Extras};
ghost use Rattle.image_file.specs.Rules.{reading};
ghost use Rattle.image_file.specs.InUse.{reading_in_use, IsInUse};
ghost use Rattle.image_file.specs.Spelling.{spelling, CanBeSpelled, Spells};

/// A spelling has as many bytes as its configuration says, and no two configurations with slots and retired
/// blocks have the same one.
pub fn one_spelling()
    ensures length { (config : Config) (image : List Contents) (extras : Extras) →
        CanBeSpelled config image extras →
        length (spelling config image extras) ≡ image_bytes (shape_of config) }
    ensures one { (c d : Config) (a b : List Contents) (e f : Extras) →
        CanBeSpelled c a e → CanBeSpelled d b f →
        spelling c a e ≡ spelling d b f → (c ≡ d) × (a ≡ b) × (e ≡ f) }
{}

/// The configuration, the slots and the retired blocks that are read from bytes are those that the bytes spell.
pub fn spelled_images()
    ensures { (bytes : List ℕ) (config : Config) (image : List Contents) (extras : Extras) →
        All (λ b. b < 256) bytes →
        (reading bytes ≡ Ok (config, image, extras)) ↔ Spells bytes config image extras }
{}

/// What is read of an image file in use is what its bytes say, and an image file is one in use that says the same.
pub fn images_in_use()
    ensures read { (bytes : List ℕ) (config : Config) (image : List Contents) (extras : Extras) →
        All (λ b. b < 256) bytes →
        (reading_in_use bytes ≡ Ok (config, image, extras)) ↔ IsInUse bytes config image extras }
    ensures spelled { (bytes : List ℕ) (config : Config) (image : List Contents) (extras : Extras) →
        Spells bytes config image extras → IsInUse bytes config image extras }
{}

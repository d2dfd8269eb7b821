ghost use Rattle.std.specs.Prelude.{◌≡◌, ◌≢◌, IfSome, IfNone};
ghost use Rattle.page_keys.specs.Scripts.{word_of};

/// The word that a line of a key script begins with.
#[derive(Clone, Copy)]
pub enum KeyVerb {
    Put,
    Get,
    Cut,
}

impl KeyVerb {
    /// The verb that a word is.
    pub fn from_word(word: &[u8]) -> Option<KeyVerb>
        ensures some { IfSome result (λ verb. word.now ≡ word_of verb) }
        ensures none { IfNone result ((verb : KeyVerb) → word.now ≢ word_of verb) }
    {
        match word {
            b"put" => Some(KeyVerb::Put),
            b"get" => Some(KeyVerb::Get),
            b"cut" => Some(KeyVerb::Cut),
            _ => None,
        }
    }
}

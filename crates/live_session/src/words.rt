ghost use Rattle.std.specs.Prelude.{◌≡◌};
ghost use Rattle.std.specs.Option.{option_copied};
ghost use Rattle.live_session.specs.Words.{name_by};

/// The name of the image file, if the words are those of the program.
pub fn parse_words(words: &[String]) -> Option<&str>
    ensures { option_copied result ≡ name_by words.now }
{
    let [name] = words else {
        return None;
    };
    if name.is_empty() { None } else { Some(name) }
}

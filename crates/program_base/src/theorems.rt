//! What holds of all files of images. The function does nothing: it is there for what it ensures.
ghost use Rattle.std.specs.Prelude.{ℕ, List, IsSome};
ghost use Rattle.image_file.specs.Rules.{first_broken};
ghost use Rattle.durable_folder.specs.InPlace.{IsTorn};

/// What a loss of power leaves torn of a file that is saved in place breaks a rule of an image file. So it is
/// refused, and never served.
pub fn torn_files()
    ensures { (bytes : List ℕ) → IsTorn bytes → IsSome (first_broken bytes) }
{}

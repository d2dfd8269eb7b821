//! What holds of all live files. The function does nothing: it is there for what it ensures.
ghost use Rattle.std.specs.Prelude.{◌≡◌, List, length};
ghost use Rattle.tx_types.specs.Config.{shape_of};
ghost use Rattle.tx_types.specs.declared.config.Config.{Config};
ghost use Rattle.flash_model.specs.Flash.{Contents, Extras};
ghost use Rattle.image_file.specs.Spelling.{CanBeSpelled};
ghost use Rattle.live_image.specs.Layout.{live_bytes};
ghost use Rattle.live_file.specs.Spelling.{live_spelling, IsLive};

/// What is written is a live file that says the same, and is as long as its configuration says.
pub fn live_files()
    ensures spelled { (config : Config) (image : List Contents) (extras : Extras) →
        CanBeSpelled config image extras → IsLive (live_spelling config image extras) config image extras }
    ensures long { (config : Config) (image : List Contents) (extras : Extras) →
        CanBeSpelled config image extras →
        length (live_spelling config image extras) ≡ live_bytes (shape_of config) }
{}

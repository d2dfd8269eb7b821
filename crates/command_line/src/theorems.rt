//! What holds of all runs of the program. The functions do nothing: each is there for what it
//! ensures.
ghost use Rattle.std.specs.Prelude.{◌≡◌, ◌<◌, ℕ, false, List, All, Result, Ok};
ghost use Rattle.tx_types.specs.declared.config.Config.{Config};
ghost use Rattle.tx_types.specs.Config.{shape_of};
ghost use Rattle.flash_model.specs.Flash.{Contents, Extras};
ghost use Rattle.flash_model.specs.Operations.{Moment};
ghost use Rattle.judged_records.specs.Images.{IsSoundImage, array_in};
ghost use Rattle.array_machine.specs.ArrayState.{idle, Represents};
ghost use Rattle.tx_engine.specs.DeviceState.{limits_of};
ghost use Rattle.host_protocol.specs.declared.command.Command.{Command};
ghost use Rattle.host_protocol.specs.declared.reply.Reply.{Reply};
ghost use Rattle.image_file.specs.Spelling.{Spells};
ghost use Rattle.image_file.specs.declared.error.ImageError.{ImageError};
ghost use Rattle.program_base.specs.Loading.{ReadsImage};
ghost use Rattle.array_runs.specs.Breaks.{AreFew};
ghost use Rattle.cut_replay.specs.FlashRun.{Point, IsFlashRun, mentions_in};
ghost use Rattle.cut_replay.specs.FlashRun.{first_state, last_state};
ghost use Rattle.array_runs.specs.Run.{is_arm};
ghost use Rattle.array_runs.specs.Unbroken.{Handed, UnbrokenRun, AreMaybeSpent, FinishesAreDone};
ghost use Rattle.desk_tasks.specs.Runs.{IsRun, first_moment, machine_left};

use image_file::spelled_images;

/// Where no command arms a break, the replies are those of the array machine in which nothing
/// fails, for some pages that may be spent at each command and some number of transactions that
/// each `stepall` moves, and each `finish` of an open transaction replies `done`.
pub fn unarmed_runs()
    ensures { (its : Config) (from : Moment)
        (cs : List Command) (rs : List Reply) (ps : List Point) →
        (run : IsFlashRun its from cs rs ps) → AreFew 0 0 cs rs →
        All (λ c. is_arm c ≡ false) cs →
        let opening = idle (array_in its.protocol its.logical from.image) in
        (hands : List Handed) × AreMaybeSpent (mentions_in its from) cs rs hands
        × UnbrokenRun (limits_of its) hands opening cs rs
        (last_state (first_state its run.up from) ps).machine
        × FinishesAreDone (limits_of its) hands opening cs rs }
{}

/// The image with which a run ends is sound, and stands for the array of its last state. Where no
/// command arms a break it has that array, and serving it again begins there, with nothing open.
/// A file that is the spelling of an image is read as that image and no other.
pub fn saved_images()
    ensures sound { (its : Config) (image left : List Contents)
        (cs : List Command) (text : List ℕ) →
        IsRun its image cs left text →
        IsSoundImage its.protocol its.logical (shape_of its) left }
    ensures stands { (its : Config) (image left : List Contents)
        (cs : List Command) (text : List ℕ) →
        (run : IsRun its image cs left text) →
        Represents (machine_left run) (array_in its.protocol its.logical left) }
    ensures array { (its : Config) (image left : List Contents)
        (cs : List Command) (text : List ℕ) →
        (run : IsRun its image cs left text) → All (λ c. is_arm c ≡ false) cs →
        array_in its.protocol its.logical left ≡ (machine_left run).pages }
    ensures read { (its : Config) (left : List Contents) (extras : Extras) (bytes : List ℕ)
        (read : Result (Config × List Contents × Extras) ImageError) →
        All (λ b. b < 256) bytes → Spells bytes its left extras → ReadsImage bytes read →
        read ≡ Ok (its, left, extras) }
    ensures again { (its : Config) (image left last : List Contents)
        (cs ds : List Command) (text more : List ℕ) →
        (run : IsRun its image cs left text) → All (λ c. is_arm c ≡ false) cs →
        (next : IsRun its left ds last more) →
        (first_state its next.run.up (first_moment left)).machine
        ≡ idle (machine_left run).pages }
{
    spelled_images();
}

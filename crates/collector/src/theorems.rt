//! What follows where the tables of a device match its flash. The functions do nothing: each is
//! there for what it ensures.
ghost use Rattle.std.specs.Prelude.{◌≡◌};
ghost use Rattle.flash_model.specs.Flash.{FlashState};
ghost use Rattle.judged_records.specs.IndexState.{IndexState, pinned_names};
ghost use Rattle.judged_records.specs.Notes.{note_at};
ghost use Rattle.judged_records.specs.declared.note.Note.TheVariants as note;
ghost use Rattle.die_alloc.specs.BlocksState.{BlocksState};
ghost use Rattle.collector.specs.Laws.{ArrayStays, ImageIsSound, KnownImageIsSound, NotingKeeps, OpenedTablesMatch};
ghost use Rattle.collector.specs.Matches.{Matches, AllOfBlock};
ghost use Rattle.collector.specs.Tidy.{IsTidy};
ghost use Rattle.collector.specs.Victim.{HasNoGarbage};
ghost use Rattle.collector.specs.declared.unsure.Unsure.TheVariants as unsure;

use record_list::CommitRule;

/// The tables of a sound image match the flash that they were read from.
pub fn opened_tables_match()
    ensures { OpenedTablesMatch }
{}

/// The known image is sound, its notes are those of the tables, and it stands for the array that is
/// known.
pub fn known_image_is_sound<R: CommitRule>()
    ensures { KnownImageIsSound R.protocol }
{}

/// The image has the records, the current versions and the array that will be known of it once the
/// place is settled whose contents are not known.
pub fn image_is_sound<R: CommitRule>()
    ensures { ImageIsSound R.protocol }
{}

/// What is kept is known too: the array, and the text of each pinned name that is there.
pub fn array_stays<R: CommitRule>()
    ensures { ArrayStays R.protocol }
{}

/// What the tables keep where the next record of a transaction is noted, which leaves a name
/// absent, or completes the cycle.
pub fn noting_keeps<R: CommitRule>()
    ensures { NotingKeeps R.protocol }
{}

/// Where nothing outside the spare is garbage, and the spare is blank, the image is tidy.
pub fn no_garbage_means_tidy()
    ensures { (s : FlashState) (n : IndexState) (t : BlocksState) →
        Matches s n t unsure.Nothing →
        AllOfBlock n t.spare (λ slot. note_at n.notes slot ≡ note.Blank) → HasNoGarbage n t →
        IsTidy n.config.protocol n.config.logical s.image (pinned_names n.pins) }
{}

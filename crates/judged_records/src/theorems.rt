//! What holds of all that can be noted: of the notes of an image, of what is derived from the noted records and how it
//! moves when they change, and the commit laws stated of images. The functions do nothing: each is there for what it
//! ensures.
ghost use Rattle.std.specs.Prelude.{◌≡◌, ℕ, ◌<◌, max, true, List, length, slice_index, map, All};
ghost use Rattle.tx_types.specs.Config.{shape_of, slots_of};
ghost use Rattle.tx_types.specs.declared.config.Config.{Config};
ghost use Rattle.tx_types.specs.declared.config.Protocol.{Protocol};
ghost use Rattle.tx_types.specs.declared.record.Rec.{Rec};
ghost use Rattle.flash_model.specs.Calls.{seen_of};
ghost use Rattle.flash_model.specs.Flash.{Contents};
ghost use Rattle.record_list.specs.Records.{is_present, mention_at};
ghost use Rattle.judged_records.specs.DerivedExamples.{BegunWaits, WholeAnswers, StepsAnswer};
ghost use Rattle.judged_records.specs.DerivedLaws.{NextRecordLaw, CompletesLaw, RoundLaw, OpenWriteLaw, WholeWriteLaw, CopyMovesLaw, DamageMovesLaw, LossMovesLaw, PinMovesLaw, SpareMovesLaw, HeldReading, WantedReading, NeededReading, GoingReading, LowestReading, GarbageReading};
ghost use Rattle.judged_records.specs.Examples.{DoubledHomes, DoubledGoes, DoubledGarbage, DoubledPinned, MentionsRaised, LeastSlots, WrittenArray, AbortedMayGo};
ghost use Rattle.judged_records.specs.ImageLaws.{ImagePartialLaw, ImageCompletingLaw, ImageCopyLaw, ImageLossLaw, ImageDamageLaw};
ghost use Rattle.judged_records.specs.Images.{records_in, SlotReads};
ghost use Rattle.judged_records.specs.IndexState.{IndexState, IsNoted, IsNotedFrom, IsNextRecord, IsCompleteCycle, raised, programmed};
ghost use Rattle.judged_records.specs.Notes.{note_at, found_in, notes_of};
ghost use Rattle.judged_records.specs.SlotLosses.{ImageSlotLossLaw, AsksAfterLossLaw};
ghost use Rattle.judged_records.specs.declared.note.Note.TheVariants as note;

use record_list::CommitRule;

/// The noted records of an image are its records, and where each slot keeps law 1 a scan of the image
/// gives its notes.
pub fn noted_images()
    ensures records { (protocol : Protocol) (image : List Contents) →
        found_in (notes_of protocol image) ≡ records_in protocol image }
    ensures scan { (protocol : Protocol) (config : Config) (image : List Contents) (n : IndexState) →
        All (SlotReads protocol config.logical) image →
        IsNotedFrom config (map seen_of image) (records_in protocol image) n →
        n.notes ≡ notes_of protocol image }
{}

/// Once the last record of a transaction in progress is noted, its names are a complete cycle.
pub fn complete_cycles()
    ensures { (protocol : Protocol) (n : IndexState) (at : ℕ) (rec : Rec) (next : IsNextRecord n rec) →
        IsNoted protocol n →
        at < slots_of (shape_of n.config) →
        note_at n.notes at ≡ note.Blank →
        let new = programmed n at rec in
        All (λ name. is_present (found_in new.notes) name ≡ true) next.names →
        IsCompleteCycle new next.names }
{}

/// A noted record raises the greatest mention of each page to the version at which it mentions the page,
/// so no mention falls.
pub fn raised_mentions()
    ensures { (rec : Rec) (mentions : List ℕ) (page : ℕ) →
        rec.page < length mentions → rec.next.page < length mentions →
        slice_index (raised rec mentions) page
        ≡ max (slice_index mentions page) (mention_at page rec) }
{}

/// A record that is to be noted next, when it completes its cycle, and the names of a whole cycle.
pub fn next_record()
    ensures newest { (protocol : Protocol) → NextRecordLaw protocol }
    ensures completes { (protocol : Protocol) → CompletesLaw protocol }
    ensures round { RoundLaw }
{}

/// A record that leaves its cycle open moves nothing.
pub fn open_write<R: CommitRule>()
    ensures { OpenWriteLaw R.protocol }
{}

/// A record that completes its cycle: which records are released, and which are answered.
pub fn whole_write<R: CommitRule>()
    ensures { WholeWriteLaw R.protocol }
{}

/// A copy moves nothing.
pub fn copy_moves<R: CommitRule>()
    ensures { CopyMovesLaw R.protocol }
{}

/// A block without its records: what is derived of those that are left stays, and what goes answered for none.
pub fn loss_moves<R: CommitRule>()
    ensures { LossMovesLaw R.protocol }
{}

/// A damaged slot, a pin and another spare move nothing.
pub fn others_move()
    ensures damage { (protocol : Protocol) → DamageMovesLaw protocol }
    ensures pin { PinMovesLaw }
    ensures spare { SpareMovesLaw }
{}

/// What is read of the noted records, by what is derived from them.
pub fn readings()
    ensures held { (protocol : Protocol) → HeldReading protocol }
    ensures wanted { (protocol : Protocol) → WantedReading protocol }
    ensures needed { NeededReading }
    ensures going { (protocol : Protocol) → GoingReading protocol }
    ensures lowest { LowestReading }
    ensures garbage { GarbageReading }
{}

/// A slot of an image that was blank is damaged: the image stays sound, and its records and array stay.
pub fn image_damaged()
    ensures { (protocol : Protocol) → ImageDamageLaw protocol }
{}

/// What an image keeps when a record is programmed that leaves its cycle open.
pub fn partial_write<R: CommitRule>()
    ensures { ImagePartialLaw R.protocol }
{}

/// What an image keeps when a record is programmed that completes its cycle.
pub fn completing_write<R: CommitRule>()
    ensures { ImageCompletingLaw R.protocol }
{}

/// What an image keeps when an equal copy of a record is programmed.
pub fn copy<R: CommitRule>()
    ensures { ImageCopyLaw R.protocol }
{}

/// What an image keeps when a block loses its records.
pub fn block_loss<R: CommitRule>()
    ensures { ImageLossLaw R.protocol }
{}

/// Any slots of an image without their records, as long as each current and each held record has a slot that stays,
/// outside some block: they are blank or damaged.
pub fn slots_lost<R: CommitRule>()
    ensures { ImageSlotLossLaw R.protocol }
{}

/// A transaction asks for its next record also where slots were lost. So this is a partial or a completing write to
/// what is left.
pub fn asks_after_loss<R: CommitRule>()
    ensures { AsksAfterLossLaw R.protocol }
{}

/// What the definitions say of a few slots, and of images of a few slots.
pub fn worked_examples()
    ensures homes { DoubledHomes }
    ensures goes { DoubledGoes }
    ensures garbage { DoubledGarbage }
    ensures pinned { DoubledPinned }
    ensures mentions { MentionsRaised }
    ensures least { LeastSlots }
    ensures array { WrittenArray }
    ensures aborted { AbortedMayGo }
{}

/// What is derived from a few slots.
pub fn derived_examples()
    ensures begun { BegunWaits }
    ensures whole { WholeAnswers }
    ensures steps { StepsAnswer }
{}

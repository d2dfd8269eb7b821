//! What holds of all pictures. The functions do nothing: each is there for what it ensures.
ghost use Rattle.std.specs.Prelude.{ℕ, ◌<◌, List};
ghost use Rattle.tx_types.specs.Config.{blocks_of, shape_of, slots_of};
ghost use Rattle.tx_types.specs.declared.config.Config.{Config};
ghost use Rattle.tx_types.specs.declared.config.Protocol.{Protocol};
ghost use Rattle.tx_types.specs.declared.record.Rec.{Rec};
ghost use Rattle.record_list.specs.declared.found.Found.{Found};
ghost use Rattle.judged_records.specs.declared.note.Note.{Note};
ghost use Rattle.flash_picture.specs.Laws.{ArrowTells, CellTells, LabelTells, PlaceTells, SelectionTells, SvgCellTells, SvgLabelTells, SvgWalkTells, WalkSays, WalkTells, WordsTell};
ghost use Rattle.flash_picture.specs.OverviewLaws.{SignTells, SquareTells};
ghost use Rattle.flash_picture.specs.declared.marks.Marks.{Marks};
ghost use Rattle.flash_picture.specs.declared.selection.Selection.{Selection};

/// A cell says current, loose, stale, held or discard exactly where its record is so, whatever else its slot says.
pub fn cells_tell()
    ensures { (protocol : Protocol) (list : List Found) (logical : ℕ) (r : Rec) →
        CellTells protocol list logical r }
{}

/// The row of a block begins with `spare` exactly where the block is marked as the spare.
pub fn labels_tell()
    ensures { (marks : Marks) (block : ℕ) → LabelTells marks block }
{}

/// A slot without a record has one word, `blank` or `damaged`; and any slot has a `!` besides exactly where a broken
/// law names it.
pub fn words_tell()
    ensures { (its : Config) (notes : List Note) (marks : Marks) (slot : ℕ) →
        WordsTell its notes marks slot }
{}

/// The newest record of each page is named in a line exactly where its version does not count: in that of its own walk,
/// or of one that leads to it. A line is over the links of the walk that decides this, and ends in the words for what
/// its last link shows.
pub fn walks_tell()
    ensures tells { (protocol : Protocol) (list : List Found) (logical page : ℕ) →
        WalkTells protocol list logical page }
    ensures says { (protocol : Protocol) (list : List Found) (logical page : ℕ) →
        WalkSays protocol list logical page }
{}

/// The cell of a slot stands in the row of its block. In SVG it stands below the cells of the blocks before.
pub fn places_tell()
    ensures { (its : Config) (notes : List Note) (marks : Marks) (slot : ℕ) →
        slot < slots_of (shape_of its) → PlaceTells its notes marks slot }
{}

/// A picture in SVG has the cell of each slot, with the words of which `cells_tell` and `words_tell` speak, the label
/// of each block, of which `labels_tell` does, and the lines of each walk, of which `walks_tell` does. An arrow leads
/// from the cell of a record to that of the lowest slot which holds the record of its link, and there is no other
/// arrow. Those of loose and held records, and no others, are in view without a pointer.
pub fn svg_tells()
    ensures cells { (its : Config) (notes : List Note) (marks : Marks) (slot : ℕ) →
        slot < slots_of (shape_of its) → SvgCellTells its notes marks slot }
    ensures labels { (its : Config) (notes : List Note) (marks : Marks) (block : ℕ) →
        block < blocks_of (shape_of its) → SvgLabelTells its notes marks block }
    ensures walks { (its : Config) (notes : List Note) (marks : Marks) (page : ℕ) →
        page < its.logical → SvgWalkTells its notes marks page }
    ensures arrows { (its : Config) (notes : List Note) (marks : Marks) (slot : ℕ) →
        slot < slots_of (shape_of its) → ArrowTells its notes marks slot }
{}

/// Where a selection is asked for, each slot that it names has its line, and no other slot has one.
pub fn selection_tells()
    ensures { (its : Config) (notes : List Note) (marks : Marks) (selection : Selection) (slot : ℕ) →
        slot < slots_of (shape_of its) → SelectionTells its notes marks selection slot }
{}

/// In an overview the letter of a slot stands in the row of its block, and tells what the slot is. In SVG the lines of
/// a slot stand in its square, one for each kind of the slot and no others. The squares of a block stand in one row,
/// below those of the blocks before it in the die, and right of those of the dies before.
pub fn overviews_tell()
    ensures signs { (its : Config) (notes : List Note) (marks : Marks) (slot : ℕ) →
        slot < slots_of (shape_of its) → SignTells its notes marks slot }
    ensures squares { (its : Config) (notes : List Note) (marks : Marks) (slot : ℕ) →
        slot < slots_of (shape_of its) → SquareTells its notes marks slot }
{}

//! What holds of all pictures that the program prints. The functions do nothing: each is there for what it ensures.
ghost use Rattle.std.specs.Prelude.{◌≡◌, ◌++◌, ◌<◌, ◌≤◌, ℕ, true, List, Option};
ghost use Rattle.tx_types.specs.Config.{blocks_of, shape_of, slots_of};
ghost use Rattle.tx_types.specs.declared.config.Config.{Config};
ghost use Rattle.tx_types.specs.declared.record.Rec.{Rec};
ghost use Rattle.flash_model.specs.Flash.{Contents};
ghost use Rattle.record_list.specs.declared.found.Breach.{Breach};
ghost use Rattle.judged_records.specs.Images.{IsLeastImageBreach, IsSoundImage, records_in};
ghost use Rattle.judged_records.specs.Notes.{notes_of};
ghost use Rattle.flash_picture.specs.Laws.{ArrowTells, PlaceTells, SelectionTells, SvgCellTells, SvgLabelTells, SvgWalkTells, WalkSays, WalkTells};
ghost use Rattle.flash_picture.specs.Map.{map_text};
ghost use Rattle.flash_picture.specs.Overview.{counts_text, rows_text};
ghost use Rattle.flash_picture.specs.OverviewLaws.{SignTells, SquareTells};
ghost use Rattle.flash_picture.specs.OverviewSvg.{overview};
ghost use Rattle.flash_picture.specs.Picture.{breach_line, cells_of, heading};
ghost use Rattle.flash_picture.specs.Selection.{selected};
ghost use Rattle.flash_picture.specs.Svg.{svg};
ghost use Rattle.flash_picture.specs.Walks.{walks_text};
ghost use Rattle.flash_picture.specs.declared.marks.Marks.{Marks};
ghost use Rattle.flash_picture.specs.declared.selection.Selection.{Selection};
ghost use Rattle.desk_io.specs.Desk.{DeskState};
ghost use Rattle.view_command_line.specs.Ending.{Drawn, IsEnding, said};
ghost use Rattle.view_command_line.specs.Laws.{BareSlotTells, BreachTells, HoldsRecord, RowsTell, SlotTells};
ghost use Rattle.view_command_line.specs.Request.{Request};
ghost use Rattle.view_command_line.specs.declared.words.Form.{Form};
ghost use Rattle.view_command_line.specs.declared.words.Form.TheVariants.{Text, Svg, Selected};

/// Where a sound image is drawn, the row of a block begins with `spare` exactly where an opening makes the block
/// the spare, which is so of one block, and no slot has a `!`. Where one is drawn that is not sound, no row begins
/// with `spare`, and the one slot with a `!` is that which the first broken law names. The cell of a slot with a
/// record says what the record is among those of the image, and that of any other slot `blank` or `damaged`. A cell
/// stands in the row of the block of its slot, and in SVG below the cells of the blocks before. The newest record of
/// each page that does not count is named in a line, which is over the links of the walk that decides this, and ends in
/// the words for what its last link shows. What is said as text of a flash of up to 512 slots is the map of these rows
/// and cells, behind a heading, then these lines, and the law that is broken.
pub fn pictures_tell()
    ensures rows { (task : Option Request) (desk : DeskState)
        (form : Form) (its : Config) (image : List Contents) (marks : Marks) →
        IsEnding task desk (Drawn form its image marks) →
        IsSoundImage its.protocol its.logical (shape_of its) image →
        RowsTell its image marks }
    ensures unsound { (task : Option Request) (desk : DeskState)
        (form : Form) (its : Config) (image : List Contents) (marks : Marks) (breach : Breach) →
        IsEnding task desk (Drawn form its image marks) →
        IsLeastImageBreach its.protocol its.logical (shape_of its) image breach →
        BreachTells its image marks breach }
    ensures cells { (its : Config) (image : List Contents) (slot : ℕ) (r : Rec) →
        HoldsRecord its image slot r → SlotTells its image slot r }
    ensures bare { (its : Config) (image : List Contents) (slot : ℕ) →
        BareSlotTells its image slot }
    ensures places { (its : Config) (image : List Contents) (marks : Marks) (slot : ℕ) →
        slot < slots_of (shape_of its) → PlaceTells its (notes_of its.protocol image) marks slot }
    ensures walks { (its : Config) (image : List Contents) (page : ℕ) →
        WalkTells its.protocol (records_in its.protocol image) its.logical page }
    ensures lines { (its : Config) (image : List Contents) (page : ℕ) →
        WalkSays its.protocol (records_in its.protocol image) its.logical page }
    ensures text { (its : Config) (image : List Contents) (marks : Marks) → slots_of (shape_of its) ≤ 512 →
        let cells = cells_of its (notes_of its.protocol image) in
        said (Drawn Text its image marks) ≡ heading its ++ map_text (shape_of its) cells marks
        ++ walks_text its.protocol (records_in its.protocol image) its.logical ++ breach_line marks.breach }
{}

/// What is said in SVG of a flash of up to 512 slots has a cell for each slot, a label for each block and lines for
/// each walk. Their words are those of the cells, rows and walks of which `pictures_tell` speaks. An arrow leads from
/// the cell of a record to that of the lowest slot which holds the record of its link, and there is no other arrow.
/// Those of loose and held records, and no others, are in view without a pointer.
pub fn svgs_tell()
    ensures text { (its : Config) (image : List Contents) (marks : Marks) → slots_of (shape_of its) ≤ 512 →
        said (Drawn Svg its image marks) ≡ svg its (notes_of its.protocol image) marks }
    ensures cells { (its : Config) (image : List Contents) (marks : Marks) (slot : ℕ) →
        slot < slots_of (shape_of its) →
        SvgCellTells its (notes_of its.protocol image) marks slot }
    ensures labels { (its : Config) (image : List Contents) (marks : Marks) (block : ℕ) →
        block < blocks_of (shape_of its) →
        SvgLabelTells its (notes_of its.protocol image) marks block }
    ensures walks { (its : Config) (image : List Contents) (marks : Marks) (page : ℕ) →
        page < its.logical → SvgWalkTells its (notes_of its.protocol image) marks page }
    ensures arrows { (its : Config) (image : List Contents) (marks : Marks) (slot : ℕ) →
        slot < slots_of (shape_of its) →
        ArrowTells its (notes_of its.protocol image) marks slot }
{}

/// A flash of more slots is told as an overview, in which letters and squares tell what slots are. As text that is the
/// rows of letters, behind the heading of a picture, how many slots are of each kind, the lines of which
/// `pictures_tell` speaks, and the law that is broken.
pub fn overviews_tell()
    ensures text { (its : Config) (image : List Contents) (marks : Marks) → 512 < slots_of (shape_of its) →
        let cells = cells_of its (notes_of its.protocol image) in
        said (Drawn Text its image marks) ≡ heading its ++ rows_text (shape_of its) cells marks
        ++ counts_text (shape_of its) cells
        ++ walks_text its.protocol (records_in its.protocol image) its.logical ++ breach_line marks.breach }
    ensures svg { (its : Config) (image : List Contents) (marks : Marks) → 512 < slots_of (shape_of its) →
        said (Drawn Svg its image marks) ≡ overview true its (notes_of its.protocol image) marks }
    ensures signs { (its : Config) (image : List Contents) (marks : Marks) (slot : ℕ) →
        slot < slots_of (shape_of its) → SignTells its (notes_of its.protocol image) marks slot }
    ensures squares { (its : Config) (image : List Contents) (marks : Marks) (slot : ℕ) →
        slot < slots_of (shape_of its) → SquareTells its (notes_of its.protocol image) marks slot }
{}

/// What is said where a selection is asked for: each slot that it names has its line, and no other slot has one.
pub fn selections_tell()
    ensures text { (its : Config) (image : List Contents) (marks : Marks) (selection : Selection) →
        said (Drawn (Selected selection) its image marks)
        ≡ selected its (notes_of its.protocol image) marks selection }
    ensures lines { (its : Config) (image : List Contents) (marks : Marks) (selection : Selection) (slot : ℕ) →
        slot < slots_of (shape_of its) →
        SelectionTells its (notes_of its.protocol image) marks selection slot }
{}

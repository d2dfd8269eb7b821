ghost use Rattle.std.specs.Prelude.{◌≡◌, ◌*◌, ◌<◌, ◌↔◌, true, IsTrue, All, length, IfOk, MatchResult, if◌then◌else◌};
ghost use Rattle.tx_types.specs.Config.{slots_of};
ghost use Rattle.flash_model.specs.Calls.{page_of};
ghost use Rattle.flash_model.specs.Flash.{slot_at};
ghost use Rattle.record_list.specs.Search.{FindsFirst};
ghost use Rattle.sorted_records.specs.SortedRecords.{Sorts};
ghost use Rattle.scan_recovery.specs.Reading.{ReadsAll, ReadsSome};
ghost use Rattle.scan_recovery.specs.Twins.{lowest_of, is_compared, compared, AgreesWithLowest, compared_to};

use flash_model::{Broken, Flash};
use record_list::Found;
use sorted_records::SortedRecords;
use tx_types::{Rec, Slot};

/// The index of the first record that breaks law 2: it differs from the lowest record of its name,
/// or the bytes of the two slots differ. Only where another slot is the lowest and the records are
/// equal, the two slots are read, the lowest first.
pub fn first_contradiction<F: Flash>(
    flash: &mut F,
    list: &[Found],
    chart: &SortedRecords,
    one: &mut [u8],
    two: &mut [u8],
) -> Result<Option<usize>, Broken>
    requires sorts { Sorts list.now chart.now }
    requires exists { All (λ f. f.slot.0 < slots_of (F.state flash.old).shape) list.now }
    requires one { length one.old ≡ (F.state flash.old).shape.page_bytes }
    requires two { length two.old ≡ (F.state flash.old).shape.page_bytes }
    ensures first { let old = F.state flash.old in
        IfOk result
        (FindsFirst (AgreesWithLowest old.shape.page_bytes old.image list.now) list.now) }
    ensures reads { MatchResult result
        (λ found.
        ReadsAll (F.state flash.old) (F.state flash.new) (2 * compared_to list.now found))
        (λ _. ReadsSome (F.state flash.old) (F.state flash.new) true (2 * compared list.now)) }
{
    if chart.names_differ() {
        return Ok(None);
    }
    for at in 0..list.len() {
        if !agrees(flash, chart, list[at], one, two)? {
            return Ok(Some(at));
        }
    }
    Ok(None)
}

/// Whether a record is equal to the lowest one of its name, and so are the bytes of the two slots.
fn agrees<F: Flash>(
    flash: &mut F,
    chart: &SortedRecords,
    found: Found,
    one: &mut [u8],
    two: &mut [u8],
) -> Result<bool, Broken>
    requires exists { All (λ f. f.slot.0 < slots_of (F.state flash.old).shape) chart.now }
    requires found { found.slot.0 < slots_of (F.state flash.old).shape }
    requires one { length one.old ≡ (F.state flash.old).shape.page_bytes }
    requires two { length two.old ≡ (F.state flash.old).shape.page_bytes }
    ensures agrees { let old = F.state flash.old in
        IfOk result (λ same. IsTrue same
        ↔ AgreesWithLowest old.shape.page_bytes old.image chart.now found) }
    ensures reads { let count = if is_compared chart.now found then 2 else 0 in
        MatchResult result
        (λ _. ReadsAll (F.state flash.old) (F.state flash.new) count)
        (λ _. ReadsSome (F.state flash.old) (F.state flash.new) true count) }
{
    let Some(lowest) = lowest_of(chart, found.rec) else {
        return Ok(true);
    };
    if lowest.rec != found.rec {
        return Ok(false);
    }
    if lowest.slot == found.slot {
        return Ok(true);
    }
    same_bytes(flash, lowest.slot, found.slot, one, two)
}

/// The lowest record of the name that a record has.
fn lowest_of(chart: &SortedRecords, rec: Rec) -> Option<Found>
    ensures { result ≡ lowest_of chart.now rec }
{
    let place = chart.find(rec.name())?;
    Some(chart.records()[place as usize])
}

/// Reads two slots, and returns whether they show the same bytes.
fn same_bytes<F: Flash>(
    flash: &mut F,
    first: Slot,
    second: Slot,
    one: &mut [u8],
    two: &mut [u8],
) -> Result<bool, Broken>
    requires first { first.0 < slots_of (F.state flash.old).shape }
    requires second { second.0 < slots_of (F.state flash.old).shape }
    requires one { length one.old ≡ (F.state flash.old).shape.page_bytes }
    requires two { length two.old ≡ (F.state flash.old).shape.page_bytes }
    ensures same { let old = F.state flash.old in
        IfOk result (λ same. IsTrue same
        ↔ (page_of old.shape.page_bytes (slot_at old.image first.0)
        ≡ page_of old.shape.page_bytes (slot_at old.image second.0))) }
    ensures reads { MatchResult result
        (λ _. ReadsAll (F.state flash.old) (F.state flash.new) 2)
        (λ _. ReadsSome (F.state flash.old) (F.state flash.new) true 2) }
{
    let mut spare_area = [0; 64];
    flash.read(first, one, &mut spare_area)?;
    flash.read(second, two, &mut spare_area)?;
    Ok(&*one == &*two)
}

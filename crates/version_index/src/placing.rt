ghost use Rattle.std.specs.Prelude.{◌≡◌, ◌<◌, ℕ, false, All, length, map, slice_index_or, slice_set};
ghost use Rattle.tx_types.specs.Config.{slots_of};
ghost use Rattle.flash_model.specs.declared.flash.Seen.TheVariants.{Blank};
ghost use Rattle.slot_tables.specs.TablesState.{use_at};
ghost use Rattle.slot_tables.specs.declared.slots.SlotUse.TheVariants as slot;
ghost use Rattle.version_index.specs.Filling.{first_use, AreNumbered, ArePut};

use flash_model::Seen;
use record_list::Found;
use slot_tables::{SlotUse, TablesBuilder};
use tx_types::Slot;

/// Each slot of blank ones that reads damaged is used so.
pub fn place_damaged(tables: &mut TablesBuilder, seen: &[Seen])
    requires size { length seen.now ≡ slots_of tables.old.shape }
    requires blank { (at : ℕ) → use_at tables.old.slots at ≡ slot.Blank }
    ensures { tables.new ≡ record tables.old { slots = map first_use seen.now } }
{
    // For the proof: the sizes of the tables.
    let _ = tables.shape();
    if !has_damaged(seen) {
        return;
    }
    for at in 0..seen.len() {
        place_if_damaged(tables, Slot(at as u32), seen[at]);
    }
}

/// Whether a slot reads damaged. To look at all of them is faster than to stop at one.
fn has_damaged(seen: &[Seen]) -> bool
    ensures { result ≡ false → (at : ℕ) → at < length seen.now →
        first_use (slice_index_or seen.now at Blank) ≡ slot.Blank }
{
    let mut some = false;
    for at in 0..seen.len() {
        some = is_damaged_or(seen[at], some);
    }
    some
}

/// Whether a slot reads damaged, or some other one does.
#[inline(always)]
fn is_damaged_or(how: Seen, some: bool) -> bool
    ensures undamaged { result ≡ false → first_use how ≡ slot.Blank }
    ensures others { result ≡ false → some ≡ false }
{
    match how {
        Seen::Damaged => true,
        Seen::Blank | Seen::Complete => some,
    }
}

/// A blank slot is used as it reads, where no record stands in it.
#[inline(always)]
fn place_if_damaged(tables: &mut TablesBuilder, at: Slot, how: Seen)
    requires slot { at.0 < slots_of tables.old.shape }
    requires blank { use_at tables.old.slots at.0 ≡ slot.Blank }
    ensures { tables.new ≡ record tables.old { slots = slice_set tables.old.slots at.0 (first_use how) } }
{
    match how {
        Seen::Damaged => tables.set_slot(at, SlotUse::Damaged),
        Seen::Blank | Seen::Complete => {}
    }
}

/// Each record is put where it stands. The last come first, as each record then goes in front of its copies.
pub fn place_records(tables: &mut TablesBuilder, records: &[Found], numbers: &[u32])
    requires whole { length numbers.now ≡ length records.now }
    requires within { All (λ f. f.slot.0 < slots_of tables.old.shape) records.now }
    requires numbered { AreNumbered records.now numbers.now tables.old }
    ensures rest { tables.new ≡ record tables.old { slots = tables.new.slots } }
    ensures put { ArePut records.now numbers.now tables.old.slots (length records.now) tables.new.slots }
{
    // For the proof: the sizes of the tables.
    let _ = tables.shape();
    let count = records.len();
    for i in 0..count {
        let at = count - 1 - i;
        tables.set_slot(records[at].slot, SlotUse::Holds(numbers[at]));
    }
}

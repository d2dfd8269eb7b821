ghost use Rattle.std.specs.Prelude.{◌≡◌, ℕ, ◌≤◌, ◌<◌, false, All, length, map, IfSome, IfNone, IfOk, OnOk};
ghost use Rattle.std.specs.List.{range_with_len};
ghost use Rattle.tx_types.specs.Config.{IsShape, slots_of};
ghost use Rattle.record_list.specs.Records.{mention, record_at};
ghost use Rattle.record_list.specs.SoundList.{OwnPageExists};
ghost use Rattle.sorted_records.specs.SortedRecords.{IsInOrder};
ghost use Rattle.slot_tables.specs.TablesState.{blank_tables, IsNewest};
ghost use Rattle.slot_tables.specs.Versions.{HasFree};
ghost use Rattle.version_index.specs.Filling.{NamesAgree, IsNotOlder, IsKnown, HasNumber, AreNumbered, AreBlankBut};

use crate::mentioning::mention;
use record_list::Found;
use slot_tables::TablesBuilder;
use std::alloc::Global;
use tx_types::{Memory, Rec};

/// The numbers of records, the greatest version at which they mention each page, and whether one of them may discard
/// its page.
#[derive(Drop)]
pub struct Numbering {
    pub numbers: Vec<u32>,
    pub mentions: Vec<u64>,
    pub discards: bool,
}

/// Gives each record a number, and notes what it mentions. The records stand in the order of their names.
pub fn number_records(
    alloc: Global,
    tables: &mut TablesBuilder,
    logical: u32,
    records: &[Found],
) -> Result<Numbering, Memory>
    requires blank { tables.old ≡ blank_tables tables.old.shape (length tables.old.pages) }
    requires order { IsInOrder records.now }
    requires agree { NamesAgree records.now }
    requires pages { All (OwnPageExists (length tables.old.pages)) records.now }
    requires few { length records.now ≤ slots_of tables.old.shape }
    ensures blank { OnOk result (AreBlankBut tables.old.shape (length tables.old.pages) tables.new) }
    ensures whole { IfOk result (λ n. length n.numbers.items ≡ length records.now) }
    ensures numbered { IfOk result (λ n. AreNumbered records.now n.numbers.items tables.new) }
    ensures mentions { IfOk result (λ n.
        n.mentions.items ≡ map (mention records.now) (range_with_len 0 logical)) }
    ensures discards { IfOk result (λ n. n.discards ≡ false →
        (j : ℕ) → j < length records.now → (record_at records.now j).discard ≡ false) }
{
    let mut numbers = Vec::with_capacity(alloc, records.len())?;
    let mut mentions = vec![in alloc; 0; logical as usize]?;
    let mut discards = false;
    for found in records {
        let number = number_of(tables, &found.rec);
        numbers.push_reserved(number);
        mention(&mut mentions, &found.rec);
        discards = discards_or(&found.rec, discards);
    }
    Ok(Numbering {
        numbers,
        mentions,
        discards,
    })
}

/// Whether a record discards its page, or some other one does.
#[inline(always)]
fn discards_or(rec: &Rec, other: bool) -> bool
    ensures own { result ≡ false → rec.now.discard ≡ false }
    ensures other { result ≡ false → other ≡ false }
{
    rec.discard || other
}

/// The number of a record that is not older than those of its page.
fn number_of(tables: &mut TablesBuilder, rec: &Rec) -> u32
    requires page { rec.now.page < length tables.old.pages }
    requires free { HasFree tables.old.records }
    requires order { IsNotOlder tables.old rec.now }
    ensures within { result < slots_of tables.old.shape }
    ensures number { HasNumber tables.old tables.new rec.now result }
{
    // For the proof: the sizes of the tables.
    let _ = tables.shape();
    match known_number(tables, rec) {
        Some(number) => number,
        None => tables.add(rec),
    }
}

/// The number that has a record of this name, which is the newest of its page.
fn known_number(tables: &TablesBuilder, rec: &Rec) -> Option<u32>
    requires page { rec.now.page < length tables.now.pages }
    requires order { IsNotOlder tables.now rec.now }
    ensures within { IfSome result (λ x. x < slots_of tables.now.shape) }
    ensures known { IfSome result (λ x. IsKnown tables.now rec.now x) }
    ensures none { IfNone result (IsNewest tables.now.records rec.now) }
{
    // For the proof: the sizes of the tables.
    let _ = tables.shape();
    match tables.newest(rec.page) {
        None => None,
        Some(number) => match tables.record(number) {
            None => None,
            Some(newest) => {
                if newest.version == rec.version {
                    Some(number)
                } else {
                    None
                }
            }
        },
    }
}

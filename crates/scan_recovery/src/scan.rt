ghost use Rattle.std.specs.Prelude.{◌≡◌, ◌+◌, ◌<◌, ◌++◌, ◌∷◌, [], ◌≤◌, true, length, vec_len, vec_capacity, IfOk, OnOk, IfErr, Some, Ok, MatchResult};
ghost use Rattle.std.specs.List.{cons_option};
ghost use Rattle.std.specs.Option.{unwrap_or};
ghost use Rattle.tx_types.specs.Config.{checked, slots_of};
ghost use Rattle.flash_model.specs.Flash.{slot_at};
ghost use Rattle.judged_records.specs.Images.{IsFirstUnread};
ghost use Rattle.judged_records.specs.Notes.{seen_as, found_at};
ghost use Rattle.scan_recovery.specs.Reading.{ReadsAll, ReadsSome};
ghost use Rattle.scan_recovery.specs.Recovered.{IfUnsound, ReadsTo};
ghost use Rattle.scan_recovery.specs.Scans.{IsKeptRecord, IsNote, IsScanOf};

use crate::RecoverError;
use flash_model::{Broken, Flash, Seen};
use judged_records::Note;
use page_record::read_spare;
use record_list::Found;
use sorted_records::PageCounts;
use std::alloc::Global;
use tx_types::{Config, Rec, Slot};

/// How the slots of a flash read, their records, in the order of the slots, and how many of these each page has.
#[derive(Drop)]
pub struct Scanned {
    pub seen: Vec<Seen>,
    pub list: Vec<Found>,
    pub counts: PageCounts,
}

/// Reads each slot once, the lowest first, and stops at the first read that fails. Where slots
/// break law 1, the lowest one is named once all are read.
pub fn scan<F: Flash>(
    alloc: Global,
    flash: &mut F,
    config: Config,
    page: &mut [u8],
) -> Result<Scanned, RecoverError>
    requires page { length page.old ≡ (F.state flash.old).shape.page_bytes }
    ensures scan { let image = (F.state flash.old).image in
        IfOk result (λ s. IsScanOf config.protocol config.logical image
        s.seen.items s.list.items) }
    ensures unread { let image = (F.state flash.old).image in
        IfErr result (λ e. IfUnsound e (IsFirstUnread config.protocol config.logical image)) }
    ensures reads { let old = F.state flash.old in
        ReadsTo old (F.state flash.new) (slots_of old.shape) result }
{
    let slots = flash.shape().slots();
    let mut seen = Vec::with_capacity(alloc, slots as usize)?;
    let mut list = Vec::with_capacity(alloc, slots as usize)?;
    let mut counts = PageCounts::new(alloc, config.logical as usize)?;
    scan_slots(flash, config, page, &mut seen, &mut list, &mut counts)?;
    Ok(Scanned { seen, list, counts })
}

/// Reads each slot once, the lowest first, appends how it reads and its record, and counts that of its page. The lists
/// have room for all.
fn scan_slots<F: Flash>(
    flash: &mut F,
    config: Config,
    page: &mut [u8],
    seen: &mut Vec<Seen>,
    list: &mut Vec<Found>,
    counts: &mut PageCounts,
) -> Result<(), RecoverError>
    requires page { length page.old ≡ (F.state flash.old).shape.page_bytes }
    requires no_seen { seen.old.items ≡ [] }
    requires no_list { list.old.items ≡ [] }
    requires seen_room { vec_capacity seen.old ≡ slots_of (F.state flash.old).shape }
    requires list_room { vec_capacity list.old ≡ slots_of (F.state flash.old).shape }
    ensures scan { let image = (F.state flash.old).image in
        OnOk result (IsScanOf config.protocol config.logical image seen.new.items list.new.items) }
    ensures unread { let image = (F.state flash.old).image in
        IfErr result (λ e. IfUnsound e (IsFirstUnread config.protocol config.logical image)) }
    ensures reads { let old = F.state flash.old in
        ReadsTo old (F.state flash.new) (slots_of old.shape) result }
{
    let slots = flash.shape().slots();
    let mut unread = None;
    let mut spare_area = [0; 64];
    for at in 0..slots {
        match read_note(flash, config, Slot(at), page, &mut spare_area)? {
            Some(note) => add(seen, list, counts, Slot(at), note),
            None => unread = first_of(unread, Slot(at)),
        }
    }
    match unread {
        None => Ok(()),
        Some(slot) => Err(RecoverError::Unsound { law: 1, slot }),
    }
}

/// The slot that is named already, else this one.
fn first_of(unread: Option<Slot>, slot: Slot) -> Option<Slot>
    ensures { result ≡ Some (unwrap_or unread slot) }
{
    Some(unread.unwrap_or(slot))
}

/// Adds how a slot reads, and its record, which is counted.
fn add(seen: &mut Vec<Seen>, list: &mut Vec<Found>, counts: &mut PageCounts, slot: Slot, note: Note)
    requires seen { vec_len seen.old < vec_capacity seen.old }
    requires list { vec_len list.old < vec_capacity list.old }
    ensures seen { seen.new.items ≡ seen.old.items ++ seen_as note ∷ [] }
    ensures list { list.new.items ≡ list.old.items ++ cons_option (found_at slot.0 note) [] }
    ensures seen_room { vec_capacity seen.new ≡ vec_capacity seen.old }
    ensures list_room { vec_capacity list.new ≡ vec_capacity list.old }
    ensures seen_len { vec_len seen.new ≡ vec_len seen.old + 1 }
    ensures list_len { vec_len list.new ≤ vec_len list.old + 1 }
{
    match note {
        Note::Blank => seen.push_reserved(Seen::Blank),
        Note::Damaged => seen.push_reserved(Seen::Damaged),
        Note::Holds(rec) => {
            seen.push_reserved(Seen::Complete);
            list.push_reserved(Found { slot, rec });
            counts.count(rec.page);
        }
    }
}

/// Reads a slot, with memory to read into. What is noted of it, nothing where it breaks law 1.
fn read_note<F: Flash>(
    flash: &mut F,
    config: Config,
    at: Slot,
    page: &mut [u8],
    spare_area: &mut [u8; 64],
) -> Result<Option<Note>, Broken>
    requires exists { at.0 < slots_of (F.state flash.old).shape }
    requires page { length page.old ≡ (F.state flash.old).shape.page_bytes }
    ensures note { let contents = slot_at (F.state flash.old).image at.0 in
        IfOk result (IsNote config.protocol config.logical contents) }
    ensures reads { MatchResult result
        (λ _. ReadsAll (F.state flash.old) (F.state flash.new) 1)
        (λ _. ReadsSome (F.state flash.old) (F.state flash.new) true 1) }
{
    Ok(match flash.read_spare_area(at, page, spare_area)? {
        Seen::Blank => Some(Note::Blank),
        Seen::Damaged => Some(Note::Damaged),
        Seen::Complete => record_in(spare_area, config).map(Note::Holds),
    })
}

/// The record of a spare area, where it reads for the protocol and its page and its link's page
/// exist.
fn record_in(spare_area: &[u8; 64], config: Config) -> Option<Rec>
    ensures { IsKeptRecord config.protocol config.logical spare_area.now result }
{
    match read_spare(spare_area, config.protocol) {
        Ok(rec) if rec.page < config.logical && rec.next.page < config.logical => Some(rec),
        _ => None,
    }
}

//! Texts that tests are written in. A line is `LEFT => RIGHT -- note`. A list has records such as `0:1.5>2.7/3#4`: in
//! slot 0 stands version 5 of page 1, with a link to version 7 of page 2, back version 3 and count 4. A back version or
//! a count that is left out is 0.

ghost use Rattle.std.specs.Prelude.{IsTrue, All};
ghost use Rattle.record_list.specs.Records.{IsScanned};
ghost use Rattle.record_list.specs.SoundList.{OwnPageExists};

use crate::cycles::cycle_of;
use record_list::{Breach, Found};
use std::alloc::Global;
use tx_types::{Link, Protocol, Rec, Slot};

/// The text before the first place of a sign and the one behind it, which is empty where the sign is not there.
pub fn halves<'a>(text: &'a str, sign: &str) -> (&'a str, &'a str) {
    text.split_once(sign).unwrap_or((text, ""))
}

/// The two sides of a line, of which the left one may be empty.
pub fn sides(line: &str) -> (&str, &str) {
    let (line, _) = halves(line, " -- ");
    let (left, right) = halves(line, "=>");
    (left.trim(), right.trim())
}

/// How many words a text has.
pub fn word_count(text: &str) -> usize {
    if text.is_empty() {
        0
    } else {
        text.split(' ').count()
    }
}

/// The word at a place of a text.
pub fn word(text: &str, at: usize) -> &str {
    text.split(' ').nth(at).unwrap_or("")
}

/// Whether this word stands at a place of a text.
pub fn has_word(text: &str, at: usize, wanted: &str) -> bool {
    word(text, at) == wanted
}

/// A number.
pub fn number(text: &str) -> Option<u32> {
    text.parse::<u32>().ok()
}

/// The number at a place of a text.
pub fn number_at(text: &str, at: usize) -> Option<u32> {
    number(word(text, at))
}

/// Whether the text is this number.
pub fn is_number(text: &str, wanted: u32) -> bool {
    match number(text) {
        Some(found) => found == wanted,
        None => false,
    }
}

/// Whether this number stands at a place of a text.
pub fn has_number(text: &str, at: usize, wanted: u32) -> bool {
    is_number(word(text, at), wanted)
}

/// A version.
pub fn version(text: &str) -> Option<u64> {
    text.parse::<u64>().ok()
}

/// Whether the text is this version.
pub fn is_version(text: &str, wanted: u64) -> bool {
    match version(text) {
        Some(found) => found == wanted,
        None => false,
    }
}

/// Whether this version stands at a place of a text.
pub fn has_version(text: &str, at: usize, wanted: u64) -> bool {
    is_version(word(text, at), wanted)
}

/// Whether the text is this index, or `-` where there is none.
pub fn says(text: &str, index: Option<usize>) -> bool {
    match index {
        None => text == "-",
        Some(index) => is_version(text, index as u64),
    }
}

/// The three numbers that a text begins with.
pub fn three(text: &str) -> Option<(u32, u32, u32)> {
    match (number_at(text, 0), number_at(text, 1), number_at(text, 2)) {
        (Some(first), Some(second), Some(third)) => Some((first, second, third)),
        _ => None,
    }
}

/// The protocol of a word.
pub fn protocol_of(word: &str) -> Protocol {
    match word {
        "scc" => Protocol::Scc,
        _ => Protocol::Bpcc,
    }
}

/// The text before a sign and the one behind it, which is 0 where the sign is not there.
fn parts(text: &str, sign: char) -> (&str, &str) {
    text.split_once(sign).unwrap_or((text, "0"))
}

/// Makes the changes of a text, as `PLACE=BYTE` with the byte in hex. Returns whether each could be made.
pub fn change(bytes: &mut [u8], text: &str) -> bool {
    for at in 0..word_count(text) {
        if !change_one(bytes, word(text, at)) {
            return false;
        }
    }
    true
}

/// Makes one change, of a byte or of those from one place to another, as `192-255=54`.
fn change_one(bytes: &mut [u8], text: &str) -> bool {
    let (places, byte) = parts(text, '=');
    let (first, last) = places.split_once('-').unwrap_or((places, places));
    match (number(first), number(last), u8::from_str_radix(byte, 16)) {
        (Some(first), Some(last), Ok(byte)) => set_all(bytes, first, last, byte),
        _ => false,
    }
}

/// Sets the bytes from a place to another, where there are so many.
fn set_all(bytes: &mut [u8], first: u32, last: u32, byte: u8) -> bool {
    for at in first as usize..last as usize + 1 {
        if at >= bytes.len() {
            return false;
        }
        bytes[at] = byte;
    }
    true
}

/// A page and a version, as `1.5`.
pub fn link(text: &str) -> Option<Link> {
    let (page, at) = parts(text, '.');
    Some(Link {
        page: number(page)?,
        version: version(at)?,
    })
}

/// A record, as `1.5>2.7/3#4`.
pub fn rec(text: &str) -> Option<Rec> {
    let (names, count) = parts(text, '#');
    let (names, back) = parts(names, '/');
    let rec = named(names)?;
    Some(Rec {
        back: version(back)?,
        count: number(count)?,
        ..rec
    })
}

/// A record of two names, as `1.5>2.7`.
fn named(text: &str) -> Option<Rec> {
    let (name, next) = parts(text, '>');
    let name = link(name)?;
    Some(Rec {
        page: name.page,
        version: name.version,
        next: link(next)?,
        back: 0,
        count: 0,
        discard: false,
    })
}

/// A record in its slot.
fn found(text: &str) -> Option<Found> {
    let (slot, text) = parts(text, ':');
    Some(Found {
        slot: Slot(number(slot)?),
        rec: rec(text)?,
    })
}

/// The records of a text, in its order, or of a transaction over some pages, as `cycle 17`.
pub fn records(alloc: Global, text: &str) -> Option<Vec<Found>> {
    if let Some(pages) = text.strip_prefix("cycle ") {
        return cycle_of(alloc, number(pages).unwrap_or(0)).ok();
    }
    let mut list = Vec::new(alloc);
    if add_records(&mut list, text) {
        Some(list)
    } else {
        None
    }
}

fn add_records(list: &mut Vec<Found>, text: &str) -> bool {
    for at in 0..word_count(text) {
        if !add(list, found(word(text, at))) {
            return false;
        }
    }
    true
}

/// Adds a record, where it is there and there is memory.
fn add(list: &mut Vec<Found>, found: Option<Found>) -> bool {
    match found {
        Some(found) => list.push(found).is_ok(),
        None => false,
    }
}

/// Whether the text is a law and the slot that it names, as `4:0`, or `-` where no law is broken.
pub fn names_breach(text: &str, breach: Option<Breach>) -> bool {
    match breach {
        None => text == "-",
        Some(breach) => {
            let (law, slot) = parts(text, ':');
            is_number(law, u32::from(breach.law)) && is_number(slot, breach.slot.0)
        }
    }
}

/// Whether a list stands in ascending order of slots and has no version 0.
pub fn is_scanned(list: &[Found]) -> bool
    ensures { IsTrue result → IsScanned list.now }
{
    let mut low = 0;
    for found in list {
        if u64::from(found.slot.0) < low || found.rec.version == 0 || found.rec.next.version == 0 {
            return false;
        }
        low = u64::from(found.slot.0) + 1;
    }
    true
}

/// Whether each record's own page is below `logical`.
pub fn has_its_pages(list: &[Found], logical: u32) -> bool
    ensures { IsTrue result → All (OwnPageExists logical) list.now }
{
    list.iter().all(|found| found.rec.page < logical)
}

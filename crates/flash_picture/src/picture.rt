ghost use Rattle.std.specs.Prelude.{◌≡◌, ◌^◌, ◌+◌, ◌<◌, ◌≤◌, [], ◌++◌, Some, Ok, IfOk, OnErr, OnOk, length, vec_len, vec_capacity};
ghost use Rattle.std.specs.Fmt.{decimal};
ghost use Rattle.std.specs.List.{cons_option};
ghost use Rattle.tx_types.specs.Config.{IsShape, checked, shape_of, slots_of};
ghost use Rattle.sorted_records.specs.SortedRecords.{Sorts};
ghost use Rattle.judged_records.specs.Notes.{found_at, found_in};
ghost use Rattle.flash_picture.specs.Picture.{breach_line, heading, parts, picture, protocol_word};

use crate::cells::NotedCells;
use crate::map::Map;
use crate::marks::Marks;
use crate::text::{add, add_number, append};
use crate::walk::write_walks;
use judged_records::Note;
use record_list::{Breach, Found};
use sorted_records::{CurrentVersions, SortedRecords};
use std::alloc::{AllocError, Global};
use tx_types::{Config, Memory, Protocol, Shape, Slot};

/// Appends the picture of a device whose slots are noted so, as lines of text. After `Memory` the bytes are
/// as before.
///
/// The first line has the protocol and the numbers of the device. Then comes the map: a row for each block,
/// under a heading for each die, and a cell for each slot; the row of the spare begins with `spare`. A cell
/// says `blank`, `damaged`, or PAGE.VERSION and what the record is: `current`, `loose` or `stale`, as its
/// version is the current one of its page, or above it, or below; then `held` where it is responsible for a
/// loose record, `discard` where it has no contents, and `!` where a broken law names the slot. Cells are as
/// wide as the widest, and a row goes on in the next line where 80 columns are too few. Then come lines for the
/// pages whose newest version does not count: `walk PAGE.VERSION -> LINK -> .. END`, with the links that the walk
/// from that record takes: of more than 16 the first 16, two dots, and the last. END is `absent` or
/// `straddled by V`, by the last link, or `too long` where the walk takes more links than there are pages, as it
/// may in an image that is not sound. A page leaves it to the line of another one to name its newest record among
/// these 16, but for each seventeenth page from the end of a long walk, and for walks that are too long. Last comes
/// `unsound law N slot S`, where a law is broken.
pub fn draw(
    alloc: Global,
    config: Config,
    notes: &[Note],
    marks: Marks,
    out: &mut Vec<u8>,
) -> Result<(), Memory>
    requires check { checked config ≡ Ok (shape_of config) }
    requires whole { length notes.now ≡ slots_of (shape_of config) }
    ensures text { OnOk result (out.new.items ≡ out.old.items ++ picture config notes.now marks) }
    ensures err { OnErr result (out.new.items ≡ out.old.items) }
{
    let mut text = Vec::new(alloc);
    write_picture(alloc, config, notes, marks, &mut text)?;
    append(text, out)
}

/// Appends the picture.
fn write_picture(
    alloc: Global,
    config: Config,
    notes: &[Note],
    marks: Marks,
    text: &mut Vec<u8>,
) -> Result<(), AllocError>
    requires check { checked config ≡ Ok (shape_of config) }
    requires whole { length notes.now ≡ slots_of (shape_of config) }
    ensures { OnOk result (text.new.items ≡ text.old.items ++ picture config notes.now marks) }
{
    let noted = NotedCells::of(alloc, config, notes)?;
    let map = Map {
        shape: shape(config),
        cells: &noted.cells,
        marks,
    };
    let outcome = write_parts(alloc, config, noted.standing.sorted_records(), &map, text);
    drop(noted);
    outcome
}

/// Appends the picture of records with these cells.
fn write_parts(
    alloc: Global,
    config: Config,
    chart: &SortedRecords,
    map: &Map<'_>,
    text: &mut Vec<u8>,
) -> Result<(), AllocError>
    requires shape { IsShape map.now.shape }
    requires cells { length map.now.cells.now ≡ slots_of map.now.shape }
    ensures { let m = map.now in OnOk result (text.new.items ≡ text.old.items
        ++ parts config m.shape chart.now m.cells.now m.marks) }
{
    write_heading(config, text)
        .and(map.write(alloc, text))
        .and(write_walks(alloc, chart, config.protocol, config.logical, text))
        .and(write_breach(map.marks.breach, text))
}

/// The shape of a device's flash.
pub fn shape(config: Config) -> Shape
    requires { checked config ≡ Ok (shape_of config) }
    ensures shape { result ≡ shape_of config }
    ensures bounds { IsShape result }
{
    match config.check() {
        Ok(shape) => shape,
        Err(_) => unreachable!(),
    }
}

/// Where the pages stand among the records that are noted.
pub fn current_versions_of(
    alloc: Global,
    config: Config,
    notes: &[Note],
) -> Result<CurrentVersions, AllocError>
    requires { length notes.now < 2 ^ 32 }
    ensures sorts { IfOk result (λ s. Sorts (found_in notes.now) s.list) }
    ensures standing { IfOk result (λ s.
        s ≡ record { protocol = config.protocol; logical = config.logical; list = s.list }) }
{
    let chart = sort_notes(alloc, notes)?;
    CurrentVersions::new(alloc, chart, config.protocol, config.logical)
}

/// The records that are noted, in order of their names.
fn sort_notes(alloc: Global, notes: &[Note]) -> Result<SortedRecords, AllocError>
    requires { length notes.now < 2 ^ 32 }
    ensures { IfOk result (λ chart. Sorts (found_in notes.now) chart) }
{
    let list = noted_records(alloc, notes)?;
    let sorted = SortedRecords::of(alloc, &list);
    drop(list);
    sorted
}

/// The records that are noted, in the order of their slots.
fn noted_records(alloc: Global, notes: &[Note]) -> Result<Vec<Found>, AllocError>
    requires { length notes.now < 2 ^ 32 }
    ensures { IfOk result (λ list. list.items ≡ found_in notes.now) }
{
    let mut list = Vec::with_capacity(alloc, notes.len())?;
    for at in 0..notes.len() {
        keep(Slot(at as u32), notes[at], &mut list);
    }
    Ok(list)
}

/// Adds a slot with its record, where one is noted.
fn keep(slot: Slot, note: Note, list: &mut Vec<Found>)
    requires { vec_len list.old < vec_capacity list.old }
    ensures items { list.new.items ≡ list.old.items ++ cons_option (found_at slot.0 note) [] }
    ensures len { vec_len list.new ≤ vec_len list.old + 1 }
    ensures room { vec_capacity list.new ≡ vec_capacity list.old }
{
    if let Note::Holds(rec) = note {
        list.push_reserved(Found { slot, rec });
    }
}

/// Appends the first line.
pub fn write_heading(config: Config, text: &mut Vec<u8>) -> Result<(), AllocError>
    ensures { OnOk result (text.new.items ≡ text.old.items ++ heading config) }
{
    add(protocol_word(config.protocol), text)
        .and(add(b", ", text))
        .and(write_count(config.logical, b" pages, dies of ", text))
        .and(write_count(config.blocks_per_die, b" blocks of ", text))
        .and(write_count(config.pages_per_block, b" slots\n", text))
}

/// Appends the line of a law that is broken.
pub fn write_breach(breach: Option<Breach>, text: &mut Vec<u8>) -> Result<(), AllocError>
    ensures { OnOk result (text.new.items ≡ text.old.items ++ breach_line breach) }
{
    match breach {
        None => Ok(()),
        Some(breach) => write_law(breach, text),
    }
}

/// Appends the law that is broken, and the slot that it names.
pub fn write_law(breach: Breach, text: &mut Vec<u8>) -> Result<(), AllocError>
    ensures { OnOk result (text.new.items ≡ text.old.items ++ breach_line (Some breach)) }
{
    add(b"unsound law ", text)
        .and(write_count(u32::from(breach.law), b" slot ", text))
        .and(write_count(breach.slot.0, b"\n", text))
}

/// Appends a number and what stands behind it.
fn write_count(count: u32, behind: &[u8], text: &mut Vec<u8>) -> Result<(), AllocError>
    ensures { OnOk result (text.new.items ≡ text.old.items ++ (decimal count ++ behind.now)) }
{
    add_number(u64::from(count), text).and(add(behind, text))
}

/// The word of a protocol.
fn protocol_word(protocol: Protocol) -> &'static [u8]
    ensures { result.now ≡ protocol_word protocol }
{
    match protocol {
        Protocol::Scc => b"scc",
        Protocol::Bpcc => b"bpcc",
    }
}

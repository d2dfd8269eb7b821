//! Records that are put into an image byte by byte.
use crate::bytes::{number, placed};
use crate::files::overwrite;
use crate::stage::Stage;
use crate::stop::Stop;
use std::alloc::{AllocError, Global};

/// The bytes of an image before the states of its slots.
const HEADER: usize = 64;

/// The bytes of a slot: a page of 16 bytes and a spare area.
const CELL: usize = 80;

/// How many bytes the fields of a record have, in the order of its spare area: its page, the page of its link, its
/// version, the version of its link, its back version, and how many pages its transaction has.
const WIDTHS: [usize; 6] = [4, 4, 8, 8, 8, 4];

/// Puts a record into a slot of an image whose pages have 16 bytes, with a page of zeros.
pub fn put_record(text: &str, stage: &mut Stage) -> Result<(), Stop> {
    let (name, slot, fields) = placed(text)?;
    let image = stage.bytes(name)?;
    let slots = image.len().saturating_sub(HEADER) / (CELL + 1);
    let protocol = image.get(8).copied().unwrap_or(0);
    let cell = cell_of(stage.alloc, protocol, fields)?;
    put_cell(name, slot, slots, &cell, stage)
}

/// Makes a slot of an image of this many slots complete, with these bytes.
fn put_cell(
    name: &str,
    slot: usize,
    slots: usize,
    cell: &[u8],
    stage: &mut Stage,
) -> Result<(), Stop> {
    let at = slot.saturating_mul(CELL).saturating_add(slots);
    overwrite(name, HEADER.saturating_add(slot), &[1], stage)?;
    overwrite(name, HEADER.saturating_add(at), cell, stage)
}

/// The bytes of a slot with a record of a protocol that has these fields.
fn cell_of(alloc: Global, protocol: u8, fields: &str) -> Result<Vec<u8>, Stop> {
    let mut cell = Vec::new(alloc);
    add_cell(protocol, fields, &mut cell)?;
    Ok(cell)
}

/// Adds them. The format is that of records that count where the last field is not 0.
fn add_cell(protocol: u8, fields: &str, cell: &mut Vec<u8>) -> Result<(), Stop> {
    let format = if fields.ends_with(" 0") { 1 } else { 2 };
    cell.resize(16, 0)?;
    cell.extend_from_slice(b"TXFR")?;
    cell.extend_from_slice(&[format, protocol, 0, 0])?;
    add_fields(fields, cell)?;
    cell.resize(CELL, 0)?;
    Ok(())
}

/// Adds the fields of a record.
fn add_fields(fields: &str, cell: &mut Vec<u8>) -> Result<(), Stop> {
    let mut fields = fields.split(' ');
    for width in WIDTHS {
        let field = number(fields.next().unwrap_or(""))?;
        add_number(field, width, cell)?;
    }
    Ok(())
}

/// Adds the lowest bytes of a number, the lowest first.
fn add_number(number: usize, width: usize, bytes: &mut Vec<u8>) -> Result<(), AllocError> {
    for byte in number.to_le_bytes().iter().take(width) {
        bytes.push(*byte)?;
    }
    Ok(())
}

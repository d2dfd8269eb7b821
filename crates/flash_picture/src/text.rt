//! Texts that grow. Pieces that follow one another are joined by `and`: behind a piece for which memory is wanting the
//! others are tried too, and what stands then counts only where none failed.
ghost use Rattle.std.specs.Prelude.{◌≡◌, [], ◌≤◌, ◌-◌, ◌∷◌, ◌++◌, OnErr, OnOk, length, replicate};
ghost use Rattle.std.specs.Fmt.{decimal};
ghost use Rattle.flash_picture.specs.Cells.{name_word};

use itoa::Buffer;
use std::alloc::AllocError;
use tx_types::{Link, Memory};

/// Appends bytes.
pub fn add(bytes: &[u8], text: &mut Vec<u8>) -> Result<(), AllocError>
    ensures { OnOk result (text.new.items ≡ text.old.items ++ bytes.now) }
{
    text.extend_from_slice(bytes)
}

/// Appends a byte.
pub fn add_byte(byte: u8, text: &mut Vec<u8>) -> Result<(), AllocError>
    ensures { OnOk result (text.new.items ≡ text.old.items ++ byte ∷ []) }
{
    text.extend_from_slice(&[byte])
}

/// Appends a text. Where it would stand alone it is not copied.
pub fn append(text: Vec<u8>, out: &mut Vec<u8>) -> Result<(), Memory>
    ensures ok { OnOk result (out.new.items ≡ out.old.items ++ text.items) }
    ensures err { OnErr result (out.new.items ≡ out.old.items) }
{
    if out.is_empty() {
        *out = text;
    } else {
        out.extend_from_slice(&text)?;
    }
    Ok(())
}

/// Appends a number.
pub fn add_number(number: u64, text: &mut Vec<u8>) -> Result<(), AllocError>
    ensures { OnOk result (text.new.items ≡ text.old.items ++ decimal number) }
{
    let mut digits = Buffer::new();
    text.extend_from_slice(digits.format(number).as_bytes())
}

/// Appends a number of 32 bits.
pub fn add_count(count: u32, text: &mut Vec<u8>) -> Result<(), AllocError>
    ensures { OnOk result (text.new.items ≡ text.old.items ++ decimal count) }
{
    add_number(u64::from(count), text)
}

/// Appends a name.
pub fn add_name(name: Link, text: &mut Vec<u8>) -> Result<(), AllocError>
    ensures { OnOk result (text.new.items ≡ text.old.items ++ name_word name) }
{
    add_number(u64::from(name.page), text).and(add(b".", text).and(add_number(name.version, text)))
}

/// Appends this many spaces.
pub fn add_spaces(count: usize, text: &mut Vec<u8>) -> Result<(), AllocError>
    ensures { OnOk result (text.new.items ≡ text.old.items ++ replicate count 32) }
{
    for _space in 0..count {
        add(b" ", text)?;
    }
    Ok(())
}

/// Appends spaces behind what stands in the text from `start` on, up to a width.
pub fn pad(start: usize, width: usize, text: &mut Vec<u8>) -> Result<(), AllocError>
    requires { start ≤ length text.old.items }
    ensures { OnOk result (text.new.items
        ≡ text.old.items ++ replicate (width - (length text.old.items - start)) 32) }
{
    let written = text.len() - start;
    add_spaces(width.saturating_sub(written), text)
}

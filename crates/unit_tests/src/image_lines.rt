//! Images of a small device that are read, or break a first rule, and images as flashes are written.
ghost use Rattle.std.specs.Prelude.{◌≡◌, length};
ghost use Rattle.mem_flash.specs.MemFlashState.{blank_flash};

use crate::samples::{change, halves, has_number, has_version, number, number_at, sides, word};
use crate::tx_types_tests::name;
use flash_model::{Arms, Flash, Outcome, Retire};
use image_file::{ImageError, into_image, read_image, take_image, write_image};
use mem_flash::MemFlash;
use std::alloc::Global;
use tx_types::{Config, Protocol, Shape, Slot};

/// Images of a small device that are read, or break a first rule, and images that are the same.
pub const IMAGES: &str = "\
    # What is changed in the image of a small device, as `PLACE=BYTE` with the byte in hex, and the rule that is \
    broken then. A rule of slots names the slot.\n\
    image => -\n\
    image 0=0 8=3 36=1 12=18 73=3 176=0 => magic -- every rule is broken, and then one rule fewer at each line\n\
    image 8=3 36=1 12=18 73=3 176=0 => protocol\n\
    image 36=1 12=18 73=3 176=0 => reserved\n\
    image 12=18 73=3 176=0 => page\n\
    image 12=20 73=3 176=0 => length\n\
    image 73=3 176=0 => state 9\n\
    image 176=0 => bytes 1\n\
    image 0=74 => magic -- each end of the magic\n\
    image 7=33 => magic\n\
    image 8=0 => protocol -- the protocols\n\
    image 8=2 => -\n\
    image 8=3 => protocol\n\
    image 11=1 => protocol\n\
    image 36=1 => reserved -- each end of the reserved bytes\n\
    image 63=80 => reserved\n\
    image 36=1 40=1 => reserved\n\
    image 7=32 => allowance -- the second magic: from 1 to 1024 blocks may be retired, and no more are\n\
    image 7=32 36=1 => -\n\
    image 7=32 36=1 40=1 => -\n\
    image 7=32 36=1 40=2 => allowance\n\
    image 7=32 37=4 41=4 => -\n\
    image 7=32 36=1 37=4 => allowance\n\
    image 7=32 36=1 39=1 => allowance\n\
    image 7=32 36=9 43=1 => allowance\n\
    image 7=32 40=1 => allowance\n\
    image 7=32 36=1 44=1 => reserved -- its reserved bytes, and what is tried before and behind its numbers\n\
    image 7=32 36=1 63=1 => reserved\n\
    image 7=32 44=1 => reserved\n\
    image 7=32 8=3 44=1 => protocol\n\
    image 7=32 12=18 => allowance\n\
    image 7=32 36=1 12=18 => page\n\
    image 7=32 36=1 73=3 => state 9\n\
    image 28=15 => space -- numbers of no device, and of one with fewer or more slots\n\
    image 35=1 => pending\n\
    image 24=1 28=4 => length\n\
    image 20=5 => length\n\
    image 64=3 => state 0 -- states: the least, the last, and none that stands for nothing\n\
    image 95=ff => state 31\n\
    image 69=3 66=4 => state 2\n\
    image 96=fe => bytes 0 -- the bytes of blank slots: contents and both ends of the spare area\n\
    image 432=0 => bytes 4\n\
    image 2655=7f => bytes 31\n\
    image 1000=0 500=0 => bytes 5\n\
    image 66=2 => bytes 2 -- a damaged slot is not all 00, and a complete one has any bytes\n\
    image 66=1 => -\n\
    image 66=1 256=0 335=9 => -\n\
    image 65=1 68=2 176=30 177=31 178=32 179=33 180=34 181=35 182=36 183=37 184=38 185=39 186=61 187=62 188=63 \
    189=64 190=65 191=66 192-255=54 416-495=0 495=1 => bytes 4 -- with a complete slot 1 and a damaged slot 4, of \
    which the last byte is another one\n\
    # Images that are the same: of a blank flash, as it is written, as it is made for a device, and as its bytes \
    are handed over;\n\
    same flash blank | bytes\n\
    same blank 0 | bytes\n\
    same handed | bytes\n\
    # of a complete slot 1 and a damaged slot 4, as they are programmed, as they are read and written, and as they \
    are handed over and back;\n\
    same flash filled | bytes 65=1 68=2 176=30 177=31 178=32 179=33 180=34 181=35 182=36 183=37 184=38 185=39 \
    186=61 187=62 188=63 189=64 190=65 191=66 192-255=54 416-495=0\n\
    same again 65=1 68=2 176=30 177=31 178=32 179=33 180=34 181=35 182=36 183=37 184=38 185=39 186=61 187=62 188=63 \
    189=64 190=65 191=66 192-255=54 416-495=0 | bytes 65=1 68=2 176=30 177=31 178=32 179=33 180=34 181=35 182=36 \
    183=37 184=38 185=39 186=61 187=62 188=63 189=64 190=65 191=66 192-255=54 416-495=0\n\
    same back 65=1 68=2 176=30 177=31 178=32 179=33 180=34 181=35 182=36 183=37 184=38 185=39 186=61 187=62 188=63 \
    189=64 190=65 191=66 192-255=54 416-495=0 | bytes 65=1 68=2 176=30 177=31 178=32 179=33 180=34 181=35 182=36 \
    183=37 184=38 185=39 186=61 187=62 188=63 189=64 190=65 191=66 192-255=54 416-495=0\n\
    # and of a device of which 515 blocks may be retired and 2 are, and of one of which seven may be.\n\
    same flash retired | bytes 7=32 36=3 37=2 40=2\n\
    same blank 7 | bytes 7=32 36=7\n\
    # The same blocks are read, and none of an image that is handed over.\n\
    extras read 7=32 36=3 37=2 40=2 => 515 2\n\
    extras take => 0 0\n\
    # The image of a blank device of ordinary use; and one byte more than a small device has, cut off at every \
    length.\n\
    ordinary 9453632\n\
    lengths 2657";

/// A small device.
const SMALL: Config = Config {
    protocol: Protocol::Scc,
    page_bytes: 16,
    pages_per_block: 4,
    blocks_per_die: 4,
    dies: 2,
    logical: 20,
    pending: 7,
};

/// The numbers of its header.
const SMALL_HEADER: [u8; 36] = [
    0x54, 0x58, 0x46, 0x4c, 0x41, 0x53, 0x48, 0x31, // magic
    1, 0, 0, 0, 16, 0, 0, 0, // protocol, bytes of a page
    4, 0, 0, 0, 4, 0, 0, 0, 2, 0, 0, 0, // slots of a block, blocks of a die, dies
    20, 0, 0, 0, 7, 0, 0, 0, // logical pages, pending pages
];

/// Writes the header, what is reserved behind it, and the states of blank slots.
fn write_head(bytes: &mut [u8]) {
    for at in 0..bytes.len().min(96) {
        bytes[at] = if at < 36 { SMALL_HEADER[at] } else { 0 };
    }
}

/// The bytes of the image of a small device with nothing on it.
fn blank_bytes(alloc: Global) -> Option<Vec<u8>> {
    match vec![in alloc; 0xff; 2656] {
        Ok(mut bytes) => {
            write_head(&mut bytes);
            Some(bytes)
        }
        Err(_) => None,
    }
}

/// The image of a small device with the changes of a text.
fn changed(alloc: Global, changes: &str) -> Option<Vec<u8>> {
    match blank_bytes(alloc) {
        Some(mut bytes) => {
            if change(&mut bytes, changes) {
                Some(bytes)
            } else {
                None
            }
        }
        None => None,
    }
}

/// The name of the rule that an image breaks; a rule of configurations has its own.
fn name_of(error: ImageError) -> &'static str {
    match error {
        ImageError::Short => "short",
        ImageError::Magic => "magic",
        ImageError::Protocol => "protocol",
        ImageError::Reserved => "reserved",
        ImageError::Allowance => "allowance",
        ImageError::Config(rule) => name(rule),
        ImageError::Length => "length",
        ImageError::SlotState(_) => "state",
        ImageError::SlotBytes(_) => "bytes",
        ImageError::Memory => "memory",
    }
}

/// The slot that a rule names.
fn slot_of(error: ImageError) -> Option<u32> {
    match error {
        ImageError::SlotState(at) | ImageError::SlotBytes(at) => Some(at.0),
        _ => None,
    }
}

/// Whether the text names the rule, or is `-` where there is none.
fn is_rule(error: Option<ImageError>, want: &str) -> bool {
    match error {
        None => want == "-",
        Some(error) => { word(want, 0) == name_of(error) && number_at(want, 1) == slot_of(error) }
    }
}

/// Whether an image is read, where the text is `-`, or breaks the rule of the text.
fn reads(alloc: Global, bytes: &[u8], want: &str) -> bool {
    is_rule(read_image(alloc, bytes).err(), want)
}

/// The bytes of a page.
const PAGE: [u8; 16] = *b"0123456789abcdef";

/// The shape of a small device.
const SMALL_SHAPE: Shape = Shape {
    page_bytes: 16,
    pages_per_block: 4,
    blocks_per_die: 4,
    dies: 2,
};

/// Programs a slot of a blank flash, and another one that meets a fault. Returns whether the first one was answered.
fn fill(flash: &mut MemFlash) -> bool
    requires { flash.old ≡ blank_flash SMALL_SHAPE }
    ensures { flash.new.shape ≡ SMALL_SHAPE }
{
    if flash.program(Slot(1), &PAGE, &[0x54; 64]).is_err() {
        return false;
    }
    flash.arm_fault(1, Outcome::Bad);
    flash.program(Slot(4), &[7; 16], &[8; 64]).is_err()
}

/// The image of a blank flash with what is done to it first: it is filled, blocks of it are retired, or nothing is.
fn used(alloc: Global, kind: &str, flash: &mut MemFlash) -> Option<Vec<u8>>
    requires { flash.old ≡ blank_flash SMALL_SHAPE }
{
    if kind == "filled" && !fill(flash) {
        return None;
    }
    if kind == "retired" {
        flash.set_extras(515, 2);
    }
    write_image(alloc, &SMALL, flash).ok()
}

/// The image of a new flash that is used so.
fn flash_image(alloc: Global, kind: &str) -> Option<Vec<u8>> {
    match MemFlash::new(alloc, SMALL_SHAPE) {
        Ok(mut flash) => {
            let image = used(alloc, kind, &mut flash);
            drop(flash);
            image
        }
        Err(_) => None,
    }
}

/// The bytes that a blank flash is made into.
fn handed(alloc: Global) -> Option<Vec<u8>> {
    match MemFlash::new(alloc, SMALL_SHAPE) {
        Ok(flash) => into_image(alloc, &SMALL, flash).ok(),
        Err(_) => None,
    }
}

/// The image of a blank small device of which this many blocks may be retired.
fn blank(alloc: Global, allowance: u32) -> Option<Vec<u8>> {
    if allowance > 1024 {
        return None;
    }
    image_file::blank_image(alloc, &SMALL, SMALL_SHAPE, allowance).ok()
}

/// The bytes of an image that is handed over and comes back.
fn back(alloc: Global, bytes: Vec<u8>) -> Option<Vec<u8>> {
    match take_image(alloc, bytes) {
        Ok((config, flash)) => into_image(alloc, &config, flash).ok(),
        Err(_) => None,
    }
}

/// The image of a small device that is read and written, where its flash was not used yet.
fn again(alloc: Global, bytes: &[u8]) -> Option<Vec<u8>> {
    match read_image(alloc, bytes) {
        Ok((config, flash)) => {
            let is_new = flash.live() && flash.programs() == 0 && flash.erases() == 0;
            let image = write_image(alloc, &config, &flash).ok();
            drop(flash);
            if is_new && config == SMALL {
                image
            } else {
                None
            }
        }
        Err(_) => None,
    }
}

/// The image that a text names.
fn image_of(alloc: Global, text: &str) -> Option<Vec<u8>> {
    let (kind, rest) = halves(text, " ");
    match kind {
        "flash" => flash_image(alloc, rest),
        "handed" => handed(alloc),
        "blank" => blank(alloc, number(rest).unwrap_or(u32::MAX)),
        _ => match changed(alloc, rest) {
            Some(bytes) => match kind {
                "back" => back(alloc, bytes),
                "again" => again(alloc, &bytes),
                "bytes" => Some(bytes),
                _ => None,
            },
            None => None,
        },
    }
}

/// Whether this many blocks may be retired, and are.
fn has_extras(image: Result<(Config, MemFlash), ImageError>, want: &str) -> bool {
    match image {
        Ok((_, flash)) => {
            let is_so = has_number(want, 0, flash.allowance())
                && has_number(want, 1, flash.retired());
            drop(flash);
            is_so
        }
        Err(_) => false,
    }
}

/// Whether so many blocks may be retired, and are, of an image that is read or handed over.
fn is_with_extras(alloc: Global, text: &str, want: &str) -> bool {
    let (kind, changes) = halves(text, " ");
    match changed(alloc, changes) {
        Some(bytes) => {
            if kind == "read" {
                has_extras(read_image(alloc, &bytes), want)
            } else {
                has_extras(take_image(alloc, bytes), want)
            }
        }
        None => false,
    }
}

/// A device of ordinary use.
const ORDINARY: Config = Config {
    protocol: Protocol::Bpcc,
    page_bytes: 512,
    pages_per_block: 64,
    blocks_per_die: 64,
    dies: 4,
    logical: 8000,
    pending: 64,
};

/// The image of a blank device of ordinary use, as its flash is written.
fn ordinary(alloc: Global) -> Option<Vec<u8>> {
    let made = match ORDINARY.check() {
        Ok(shape) => MemFlash::new(alloc, shape),
        Err(_) => return None,
    };
    match made {
        Ok(flash) => {
            let image = write_image(alloc, &ORDINARY, &flash).ok();
            drop(flash);
            image
        }
        Err(_) => None,
    }
}

/// Whether that image has this length, and its configuration.
fn is_ordinary(alloc: Global, length: &str) -> bool {
    let Some(bytes) = ordinary(alloc) else {
        return false;
    };
    let is_read = match read_image(alloc, &bytes) {
        Ok((read, flash)) => {
            drop(flash);
            read == ORDINARY
        }
        Err(_) => false,
    };
    is_read && has_version(length, 0, bytes.len() as u64)
}

/// Whether an image of one byte more than a small device's is read at the right length alone.
fn has_lengths(alloc: Global, image: &[u8]) -> bool {
    for len in 0..image.len() + 1 {
        let want = match len {
            0..64 => "short",
            2656 => "-",
            _ => "length",
        };
        if !reads(alloc, &image[..len], want) {
            return false;
        }
    }
    true
}

/// Whether such an image, which has this length, is read so.
fn is_cut_off(alloc: Global, length: &str) -> bool {
    match blank_bytes(alloc) {
        Some(mut image) => {
            image.push(0xff).is_ok()
                && has_version(length, 0, image.len() as u64)
                && has_lengths(alloc, &image)
        }
        None => false,
    }
}

/// Whether a line is right of images.
pub fn is_image_right(alloc: Global, kind: &str, line: &str) -> bool {
    let (left, want) = sides(line);
    match kind {
        "same" => {
            let (one, other) = halves(left, " | ");
            let image = image_of(alloc, one);
            image.is_some() && image == image_of(alloc, other)
        }
        "extras" => is_with_extras(alloc, left, want),
        "ordinary" => is_ordinary(alloc, left),
        "lengths" => is_cut_off(alloc, left),
        _ => match changed(alloc, left) {
            Some(bytes) => reads(alloc, &bytes, want),
            None => false,
        },
    }
}

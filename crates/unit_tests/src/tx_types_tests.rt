ghost use Rattle.std.specs.Prelude.{◌≡◌};

use crate::samples::{is_number, number_at, protocol_of, sides, word};
use std::alloc::Global;
use tx_types::Protocol::Scc;
use tx_types::{Batch, Bytes, Config, ConfigError, Shape};

/// Numbers and bytes.
pub const TYPES: &str = "\
    # Configurations, each with the slots of its flash or the rule that it breaks.\n\
    config scc 16 4 4 2 20 7 => 32 -- a small device and one of ordinary use, under either protocol\n\
    config bpcc 16 4 4 2 20 7 => 32\n\
    config bpcc 512 64 64 4 8000 64 => 16384\n\
    config scc 0 4 4 2 20 7 => page -- the bytes of a page\n\
    config scc 15 4 4 2 20 7 => page\n\
    config scc 24 4 4 2 20 7 => page\n\
    config scc 4096 4 4 2 20 7 => 32\n\
    config scc 4112 4 4 2 20 7 => page\n\
    config scc 16 1 16 2 20 7 => pages -- the slots of a block\n\
    config scc 16 2 16 2 20 7 => 64\n\
    config scc 16 256 4 2 20 7 => 2048\n\
    config scc 16 257 4 2 20 7 => pages\n\
    config scc 16 28 0 2 20 7 => blocks -- the blocks of a die\n\
    config scc 16 28 1 2 20 7 => 56\n\
    config scc 16 2 32768 1 20 7 => 65536\n\
    config scc 16 2 32769 1 20 7 => blocks\n\
    config scc 16 4 8 0 20 7 => dies -- the dies\n\
    config scc 16 4 8 1 20 7 => 32\n\
    config scc 16 4 4 16 20 7 => 256\n\
    config scc 16 4 4 17 20 7 => dies\n\
    config scc 16 256 256 1 20 7 => 65536 -- the slots of the flash, and the bytes of its image file\n\
    config scc 16 256 257 1 20 7 => slots\n\
    config scc 16 256 32768 16 20 7 => slots\n\
    config scc 1968 256 256 1 60000 256 => 65536\n\
    config scc 1984 256 256 1 60000 256 => slots\n\
    config scc 2048 256 256 1 60000 256 => slots\n\
    config scc 4096 256 126 1 20 7 => 32256\n\
    config scc 4096 254 127 1 20 7 => slots\n\
    config scc 16 4 4 2 0 7 => logical -- the logical pages\n\
    config scc 16 4 4 2 1 7 => 32\n\
    config scc 16 4 4 2 20 0 => pending -- the pages that may be pending\n\
    config scc 16 4 4 2 20 1 => 32\n\
    config scc 512 64 64 4 8000 256 => 16384\n\
    config scc 512 64 64 4 8000 257 => pending\n\
    config scc 16 4 4 2 21 7 => space -- the slots outside one block\n\
    config bpcc 16 4 4 2 20 8 => space\n\
    config scc 16 4 4 2 4294967295 7 => space\n\
    config scc 16 2 2 1 1 1 => space\n\
    config scc 16 3 2 1 1 1 => 6\n\
    config scc 16 256 1 1 1 1 => space\n\
    config scc 17 0 0 0 0 0 => page -- every rule is broken, and then one rule fewer at each line\n\
    config scc 16 0 0 0 0 0 => pages\n\
    config scc 16 256 0 0 0 0 => blocks\n\
    config scc 16 256 257 0 0 0 => dies\n\
    config scc 16 256 257 1 0 0 => slots\n\
    config scc 16 256 1 1 0 0 => logical\n\
    config scc 16 256 1 1 1 0 => pending\n\
    config scc 16 256 1 1 1 1 => space\n\
    config scc 4294967295 4294967295 4294967295 4294967295 4294967295 4294967295 => page\n\
    # A configuration whose numbers all differ has a shape with its numbers; rules are printed; bytes are added at \
    the end; and a batch fills its pages up.\n\
    types shape\n\
    types names\n\
    types bytes\n\
    types batch";

/// The configuration of a text: its protocol, and its numbers in the order of its fields.
fn config(text: &str) -> Option<Config> {
    let mut numbers = [0; 6];
    for at in 0..6 {
        match number_at(text, at + 1) {
            Some(number) => numbers[at] = number,
            None => return None,
        }
    }
    Some(Config {
        protocol: protocol_of(word(text, 0)),
        page_bytes: numbers[0],
        pages_per_block: numbers[1],
        blocks_per_die: numbers[2],
        dies: numbers[3],
        logical: numbers[4],
        pending: numbers[5],
    })
}

/// The name of a rule.
pub fn name(rule: ConfigError) -> &'static str {
    match rule {
        ConfigError::Page => "page",
        ConfigError::Pages => "pages",
        ConfigError::Blocks => "blocks",
        ConfigError::Dies => "dies",
        ConfigError::Slots => "slots",
        ConfigError::Logical => "logical",
        ConfigError::Pending => "pending",
        ConfigError::Space => "space",
    }
}

/// Whether a configuration has as many slots as the text says, or breaks the rule that it names.
fn is_checked(config: Config, want: &str) -> bool {
    match config.check() {
        Ok(shape) => is_number(want, shape.slots()),
        Err(rule) => want == name(rule),
    }
}

/// A configuration whose numbers all differ.
const APART: Config = Config {
    protocol: Scc,
    page_bytes: 32,
    pages_per_block: 5,
    blocks_per_die: 7,
    dies: 3,
    logical: 20,
    pending: 7,
};

/// Whether its shape has its numbers.
fn has_shape() -> bool {
    let want = Shape {
        page_bytes: 32,
        pages_per_block: 5,
        blocks_per_die: 7,
        dies: 3,
    };
    match APART.check() {
        Ok(shape) => shape == want && shape.blocks() == 21 && shape.slots() == 105,
        Err(_) => false,
    }
}

/// Whether a rule is printed as its name.
fn is_named(alloc: Global, rule: ConfigError) -> bool {
    match rule.to_string(alloc) {
        Ok(text) => text.as_str() == name(rule),
        Err(_) => false,
    }
}

/// Whether each rule is printed as its name.
fn are_named(alloc: Global) -> bool {
    is_named(alloc, ConfigError::Page)
        && is_named(alloc, ConfigError::Pages)
        && is_named(alloc, ConfigError::Blocks)
        && is_named(alloc, ConfigError::Dies)
        && is_named(alloc, ConfigError::Slots)
        && is_named(alloc, ConfigError::Logical)
        && is_named(alloc, ConfigError::Pending)
        && is_named(alloc, ConfigError::Space)
}

/// Whether bytes that are added in three parts, of which the second is empty, stand one behind the other.
fn are_added(bytes: &mut Bytes) -> bool {
    bytes.as_slice().is_empty()
        && bytes.extend(b"open 1").is_ok()
        && bytes.extend(b"").is_ok()
        && bytes.extend(b" 2").is_ok()
        && bytes.as_slice() == b"open 1 2".as_slice()
}

/// Adds three pages of four bytes, two of them not full, and a discard. Returns whether there is memory.
fn fill(batch: &mut Batch) -> bool
    requires { batch.old.page_bytes ≡ 4 }
{
    batch.add(7, &[1, 2]).is_ok()
        && batch.add(0, &[]).is_ok()
        && batch.add(7, &[3, 4, 5, 6]).is_ok()
        && batch.add_discard(2).is_ok()
}

/// Whether the batch is what `fill` makes of an empty one.
fn is_filled(batch: &Batch) -> bool {
    batch.len() == 4
        && batch.page_bytes() == 4
        && !batch.is_empty()
        && has_entry(batch, 0, 7, false, &[1, 2, 0, 0])
        && has_entry(batch, 1, 0, false, &[0; 4])
        && has_entry(batch, 2, 7, false, &[3, 4, 5, 6])
        && has_entry(batch, 3, 2, true, &[0; 4])
}

/// Whether an entry has this page, is a discard, and has these bytes.
fn has_entry(batch: &Batch, at: usize, page: u32, discards: bool, bytes: &[u8]) -> bool {
    at < batch.len()
        && batch.page(at) == page
        && batch.discards(at) == discards
        && batch.bytes(at) == bytes
}

/// Whether an empty batch is filled.
fn fills_up(batch: &mut Batch) -> bool
    requires { batch.old.page_bytes ≡ 4 }
{
    batch.is_empty() && fill(batch) && is_filled(batch)
}

/// Whether a line is right of the types.
pub fn is_type_right(alloc: Global, kind: &str, line: &str) -> bool {
    if kind == "config" {
        let (text, want) = sides(line);
        return match config(text) {
            Some(config) => is_checked(config, want),
            None => false,
        };
    }
    match line {
        "shape" => has_shape(),
        "names" => are_named(alloc),
        "bytes" => are_added(&mut Bytes::new(alloc)),
        _ => fills_up(&mut Batch::new(alloc, 4)),
    }
}

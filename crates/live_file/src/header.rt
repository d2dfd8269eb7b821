ghost use Rattle.std.specs.Prelude.{◌≡◌};
ghost use Rattle.image_file.specs.Spelling.{code_of};
ghost use Rattle.live_file.specs.Spelling.{live_header};

use byteorder::{ByteOrder, LittleEndian};
use tx_types::{Config, Protocol};

/// What a live file begins with.
pub(crate) const MAGIC: [u8; 8] = *b"TXFLASH3";

/// The bytes of a header.
pub(crate) const HEADER_BYTES: usize = 64;

/// The header of a live file of this configuration, with this many blocks that may be retired and that are.
#[tactic(auto, unfolding(crate::specs::Spelling::live_header))]
pub(crate) fn live_header(config: &Config, allowance: u32, retired: u32) -> [u8; HEADER_BYTES]
    ensures { result ≡ live_header config.now (record { allowance = allowance; retired = retired }) }
{
    let mut header = [0; HEADER_BYTES];
    let numbers = [
        code(config.protocol),
        config.page_bytes,
        config.pages_per_block,
        config.blocks_per_die,
        config.dies,
        config.logical,
        config.pending,
        allowance,
        retired,
    ];
    header[..MAGIC.len()].copy_from_slice(&MAGIC);
    LittleEndian::write_u32_into(&numbers, &mut header[8..44]);
    header
}

/// The number that stands for a protocol.
fn code(protocol: Protocol) -> u32
    ensures { result ≡ code_of protocol }
{
    match protocol {
        Protocol::Scc => 1,
        Protocol::Bpcc => 2,
    }
}

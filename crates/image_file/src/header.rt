ghost use Rattle.std.specs.Prelude.{◌≡◌, ◌||◌, nat_eq, ◌+◌, ◌<◌, ◌≤◌, length, All, None, Some, MatchResult};
ghost use Rattle.std.specs.List.{starts_with};
ghost use Rattle.tx_types.specs.Config.{checked, shape_of};
ghost use Rattle.tx_types.specs.Limits.{header_bytes};
ghost use Rattle.flash_model.specs.Retiring.{max_allowance};
ghost use Rattle.image_file.specs.Header.{IsHeader};
ghost use Rattle.image_file.specs.Rules.{number_at, protocol_of, is_second, extras_in, broken_rest, broken_header};
ghost use Rattle.image_file.specs.Spelling.{first_magic, code_of, header_of};

use crate::ImageError;
use byteorder::{ByteOrder, LittleEndian};
use flash_model::MAX_ALLOWANCE;
use lane_scan::all_equal;
use tx_types::{Config, Protocol, Shape};

/// What an image file begins with where no block may be retired.
const FIRST_MAGIC: [u8; 8] = *b"TXFLASH1";

/// What it begins with where some may.
const SECOND_MAGIC: [u8; 8] = *b"TXFLASH2";

/// The bytes of a header.
pub(crate) const HEADER_BYTES: usize = 64;

/// What stands in the header of an image file.
#[derive(Clone, Copy)]
pub(crate) struct Header {
    pub config: Config,
    /// The shape of the configuration.
    pub shape: Shape,
    /// How many blocks may be retired.
    pub allowance: u32,
    /// How many blocks are.
    pub retired: u32,
}

/// The header of an image file, or the first rule of a header that the bytes break.
pub(crate) fn read_header(bytes: &[u8]) -> Result<Header, ImageError>
    ensures answer { MatchResult result
        (λ header. (broken_header bytes.now ≡ None) × IsHeader bytes.now header)
        (λ e. broken_header bytes.now ≡ Some e) }
    ensures bytes { All (λ b. b < 256) bytes.now }
{
    if bytes.len() < HEADER_BYTES {
        return Err(ImageError::Short);
    }
    if !has_magic(bytes) {
        return Err(ImageError::Magic);
    }
    let protocol = protocol_of(number_at(bytes, 8)).ok_or(ImageError::Protocol)?;
    let (allowance, retired) = read_extras(bytes)?;
    let config = Config {
        protocol,
        page_bytes: number_at(bytes, 12),
        pages_per_block: number_at(bytes, 16),
        blocks_per_die: number_at(bytes, 20),
        dies: number_at(bytes, 24),
        logical: number_at(bytes, 28),
        pending: number_at(bytes, 32),
    };
    let shape = config.check()?;
    Ok(Header {
        config,
        shape,
        allowance,
        retired,
    })
}

/// Whether the bytes begin as an image file does.
fn has_magic(bytes: &[u8]) -> bool
    ensures { result ≡ (starts_with nat_eq bytes.now first_magic || is_second bytes.now) }
{
    bytes.starts_with(&FIRST_MAGIC) || bytes.starts_with(&SECOND_MAGIC)
}

/// How many blocks may be retired and how many are, by what stands behind the numbers of a header.
#[tactic(auto, unfolding(crate::specs::Rules::broken_rest))]
fn read_extras(bytes: &[u8]) -> Result<(u32, u32), ImageError>
    requires { header_bytes ≤ length bytes.now }
    ensures { MatchResult result
        (λ told. (broken_rest bytes.now ≡ None)
        × (record { allowance = told.0; retired = told.1 } ≡ extras_in bytes.now)
        × (told.1 ≤ told.0) × (told.0 ≤ max_allowance))
        (λ e. broken_rest bytes.now ≡ Some e) }
{
    if !bytes.starts_with(&SECOND_MAGIC) {
        return if all_equal(&bytes[36..HEADER_BYTES], 0) {
            Ok((0, 0))
        } else {
            Err(ImageError::Reserved)
        };
    }
    if !all_equal(&bytes[44..HEADER_BYTES], 0) {
        return Err(ImageError::Reserved);
    }
    let allowance = number_at(bytes, 36);
    let retired = number_at(bytes, 40);
    if allowance == 0 || allowance > MAX_ALLOWANCE || retired > allowance {
        return Err(ImageError::Allowance);
    }
    Ok((allowance, retired))
}

/// The header of an image file of this configuration, with this many blocks that may be retired and that are.
#[tactic(auto, unfolding(crate::specs::Spelling::header_of))]
pub(crate) fn header_of(config: &Config, allowance: u32, retired: u32) -> [u8; HEADER_BYTES]
    requires { retired ≤ allowance }
    ensures { result ≡ header_of config.now (record { allowance = allowance; retired = retired }) }
{
    let mut header = [0; HEADER_BYTES];
    let magic = if allowance == 0 {
        &FIRST_MAGIC
    } else {
        &SECOND_MAGIC
    };
    let numbers = [
        code(config.protocol),
        config.page_bytes,
        config.pages_per_block,
        config.blocks_per_die,
        config.dies,
        config.logical,
        config.pending,
        allowance,
        retired,
    ];
    header[..magic.len()].copy_from_slice(magic);
    LittleEndian::write_u32_into(&numbers, &mut header[8..44]);
    header
}

/// The number in the four bytes at an offset.
#[tactic(auto, unfolding(crate::specs::Rules::number_at))]
fn number_at(bytes: &[u8], offset: usize) -> u32
    requires { offset + 4 ≤ length bytes.now }
    ensures { result ≡ number_at offset bytes.now }
{
    let number = &bytes[offset..offset + 4];
    u32::from_le_bytes([number[0], number[1], number[2], number[3]])
}

/// The protocol that a number stands for.
fn protocol_of(code: u32) -> Option<Protocol>
    ensures { result ≡ protocol_of code }
{
    match code {
        1 => Some(Protocol::Scc),
        2 => Some(Protocol::Bpcc),
        _ => None,
    }
}

/// The number that stands for a protocol in an image file: a choice of this format's own.
fn code(protocol: Protocol) -> u32
    ensures { result ≡ code_of protocol }
{
    match protocol {
        Protocol::Scc => 1,
        Protocol::Bpcc => 2,
    }
}

ghost use Rattle.std.specs.Prelude.{◌≡◌};
ghost use Rattle.page_record.specs.Spelling.{code_of};

use tx_types::Protocol;

/// What each spare area begins with.
pub const MARK: [u8; 4] = *b"TXFR";

/// The format of a record that does not say how many its transaction has.
pub const PLAIN: u8 = 1;

/// The format of one that does, and that may be a discard.
pub const COUNTED: u8 = 2;

/// The greatest count: as many pages may be pending.
pub const MAX_COUNT: u32 = 256;

/// The byte that stands for a protocol in a spare area: a choice of this format's own, as that of an image file is of
/// its.
#[inline(always)]
pub fn code(protocol: Protocol) -> u8
    ensures { result ≡ code_of protocol }
{
    match protocol {
        Protocol::Scc => 1,
        Protocol::Bpcc => 2,
    }
}

ghost use Rattle.std.specs.Prelude.{◌≡◌};
ghost use Rattle.page_record.specs.Spelling.{spelling, CanBeSpelled};

use crate::layout::{COUNTED, MARK, PLAIN, code};
use byteorder::{ByteOrder, LittleEndian};
use tx_types::{Protocol, Rec};

/// Writes the one spelling of a record, over whatever stood there.
#[tactic(auto, unfolding(crate::specs::Spelling::spelling))]
pub fn write_spare(rec: Rec, protocol: Protocol, into: &mut [u8; 64])
    requires { CanBeSpelled protocol rec }
    ensures { into.new ≡ spelling protocol rec }
{
    *into = [0; 64];
    into[..4].copy_from_slice(&MARK);
    into[4] = if rec.count == 0 { PLAIN } else { COUNTED };
    into[5] = code(protocol);
    into[6] = u8::from(rec.discard);
    LittleEndian::write_u32(&mut into[8..], rec.page);
    LittleEndian::write_u32(&mut into[12..], rec.next.page);
    LittleEndian::write_u64(&mut into[16..], rec.version);
    LittleEndian::write_u64(&mut into[24..], rec.next.version);
    LittleEndian::write_u64(&mut into[32..], rec.back);
    LittleEndian::write_u32(&mut into[40..], rec.count);
}

//! A text that is put together from its end, in the last bytes of some room: each part goes before what is there.
ghost use Rattle.std.specs.Prelude.{◌≡◌, ◌+◌, ◌≤◌, ◌++◌, length, drop};
ghost use Rattle.std.specs.Fmt.{decimal};

use itoa::write_digits;

/// Puts bytes before what begins at `end`, and returns where they begin.
#[inline(always)]
pub fn put_bytes(bytes: &[u8], room: &mut [u8], end: usize) -> usize
    requires { (length bytes.now ≤ end) × (end ≤ length room.old) }
    ensures start { result + length bytes.now ≡ end }
    ensures put { drop result room.new ≡ bytes.now ++ drop end room.old }
{
    let start = end - bytes.len();
    room[start..end].copy_from_slice(bytes);
    start
}

/// Puts a number before what begins at `end`, and returns where it begins. It takes at most 20 bytes.
#[inline(always)]
pub fn put_number(number: u64, room: &mut [u8], end: usize) -> usize
    requires { (20 ≤ end) × (end ≤ length room.old) }
    ensures within { (result ≤ end) × (end ≤ result + 20) }
    ensures put { drop result room.new ≡ decimal number ++ drop end room.old }
{
    write_digits(number, room, end)
}

ghost use Rattle.std.specs.Prelude.{◌≡◌, ◌<◌, [], ◌∷◌, length, position, IfSome, IfNone};
ghost use Rattle.std.specs.Str.Lines.{strip_carriage_return};
ghost use Rattle.host_protocol.specs.Lines.{lines_of, is_line_feed};

use crate::feed_lanes::{LANES, near_line_feed};
use memchr::memchr;

/// The first line of a file, and what is behind it.
pub fn first_line(bytes: &[u8]) -> Option<(&[u8], &[u8])>
    ensures line { let lines = lines_of bytes.now in
        IfSome result (λ found. lines ≡ found.0.now ∷ lines_of found.1.now) }
    ensures shorter { IfSome result (λ found. length found.1.now < length bytes.now) }
    ensures none { IfNone result (lines_of bytes.now ≡ []) }
{
    if bytes.is_empty() {
        return None;
    }
    match first_line_feed(bytes) {
        Some(end) => Some((without_return(&bytes[..end]), &bytes[end + 1..])),
        None => Some((without_return(bytes), &bytes[bytes.len()..])),
    }
}

/// Where the first line feed stands. Most lines are short, so it is looked for near the beginning first.
#[inline(always)]
fn first_line_feed(bytes: &[u8]) -> Option<usize>
    ensures { result ≡ position is_line_feed bytes.now }
{
    if bytes.len() < LANES {
        return far_line_feed(bytes);
    }
    match near_line_feed(bytes) {
        Some(end) => Some(end),
        None => far_line_feed(bytes),
    }
}

/// Where the first line feed stands, which may be far behind.
#[inline(never)]
#[tactic(auto, using(crate::proofs::SearchLemmas::found_first))]
fn far_line_feed(bytes: &[u8]) -> Option<usize>
    ensures { result ≡ position is_line_feed bytes.now }
{
    memchr(b'\n', bytes)
}

/// The line without a carriage return at its end.
pub fn without_return(line: &[u8]) -> &[u8]
    ensures { result.now ≡ strip_carriage_return line.now }
{
    match line {
        [front @ .., b'\r'] => front,
        _ => line,
    }
}

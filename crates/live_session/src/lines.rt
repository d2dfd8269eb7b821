//! The lines of an input.
ghost use Rattle.std.specs.Prelude.{◌≡◌, ◌≤◌, [], length, IfOk, OnOk};
ghost use Rattle.host_protocol.specs.Lines.{HasNoFeed};
ghost use Rattle.live_session.specs.Lines.{FindsFeed, ReadsOver, TakesBuffered, TakesPiece};
ghost use Rattle.live_session.specs.declared.desk.Next.TheVariants as next;

use crate::Next;
use memchr::memchr;
use std::io;
use std::io::{BufRead, ErrorKind};

/// The most bytes of a line, without its line feed.
pub const MAX_LINE_BYTES: usize = 134217728;

/// What was taken of an input.
#[derive(Clone, Copy)]
enum Taken {
    /// The bytes up to a line feed, and that.
    WithFeed,
    /// Bytes without a line feed.
    WithoutFeed,
    /// Nothing, since the input has ended.
    Nothing,
}

/// Reads the next line of an input, and puts its bytes there, without its line feed. A line with too many bytes is read
/// over, up to its line feed or to the end of the input. A last line without a line feed is not served, also not a
/// comment, so that one rule is enough.
pub fn next_line<B: BufRead>(input: &mut B, line: &mut Vec<u8>) -> io::Result<Next>
    ensures most { OnOk result (length line.new.items ≤ MAX_LINE_BYTES) }
    ensures feeds { OnOk result (HasNoFeed line.new.items) }
    ensures takes { IfOk result (λ it.
        TakesPiece (B.remaining input.old) (B.remaining input.new) it line.new.items) }
{
    line.clear();
    for _ in 0..u64::MAX {
        let taken = take_buffered(input, line)?;
        if line.len() > MAX_LINE_BYTES {
            return read_over(input, line, taken);
        }
        match taken {
            Taken::WithFeed => return Ok(Next::Line),
            Taken::WithoutFeed => {}
            Taken::Nothing if line.is_empty() => return Ok(Next::End),
            Taken::Nothing => return Ok(Next::Part),
        }
    }
    // No machine comes to this line.
    Err(io::Error::from(ErrorKind::Interrupted))
}

/// Takes what is buffered of an input, up to the first line feed, and puts the bytes before that behind a line. A read
/// that was interrupted takes no byte.
fn take_buffered<B: BufRead>(input: &mut B, line: &mut Vec<u8>) -> io::Result<Taken>
    ensures { IfOk result (λ it.
        TakesBuffered (B.remaining input.old) (B.remaining input.new) it line.old.items line.new.items) }
{
    let buffered = match input.fill_buf() {
        Ok(buffered) => buffered,
        Err(error) if error.kind() == ErrorKind::Interrupted => return Ok(Taken::WithoutFeed),
        Err(error) => return Err(error),
    };
    match find_feed(buffered) {
        Some(end) => {
            line.extend_from_slice(&buffered[..end])?;
            input.consume(end + 1);
            Ok(Taken::WithFeed)
        }
        None if buffered.is_empty() => Ok(Taken::Nothing),
        None => {
            let count = buffered.len();
            line.extend_from_slice(buffered)?;
            input.consume(count);
            Ok(Taken::WithoutFeed)
        }
    }
}

/// Where the first line feed stands.
fn find_feed(bytes: &[u8]) -> Option<usize>
    ensures { FindsFeed bytes.now result }
{
    memchr(b'\n', bytes)
}

/// Reads over what is left of a line with too many bytes, of which so much was taken.
fn read_over<B: BufRead>(input: &mut B, line: &mut Vec<u8>, taken: Taken) -> io::Result<Next>
    ensures empty { line.new.items ≡ [] }
    ensures over { IfOk result (λ it. (it ≡ next.LongLine)
        × ReadsOver (B.remaining input.old) (B.remaining input.new) taken) }
{
    line.clear();
    match taken {
        Taken::WithoutFeed => {
            input.skip_until(b'\n')?;
        }
        Taken::WithFeed | Taken::Nothing => {}
    }
    Ok(Next::LongLine)
}

ghost use Rattle.std.specs.Prelude.{◌≡◌, ℕ, List, ◌∷◌, [], ◌++◌, length, OnOk, OnErr};
ghost use Rattle.std.specs.Fmt.{decimal};
ghost use Rattle.host_protocol.specs.Replies.{line_of};
ghost use Rattle.drive_gen.specs.Counting.{IsTally};
ghost use Rattle.drive_gen.specs.Summary.{asked_words, flash_words, sum_words, summary_line, protocol_word, spaced};
ghost use Rattle.drive_gen.specs.Tally.{tally_words};

use crate::tally::{Tally, count_lines};
use crate::words::word_at;
use host_protocol::Command;
use itoa::Buffer;
use std::alloc::{AllocError, Global};
use tx_types::{Memory, Protocol};

/// Appends the line that sums up the replies to a generated list, with its line feed. What the
/// replies count to is a function of their bytes. After `Memory` the bytes are as before. The programs and erases are
/// words of the last line of `stats`, as they stand there, so no number is lost. The sum of all bytes is kept in 128
/// bits, which it cannot pass.
pub fn summary(
    alloc: Global,
    start: u64,
    count: u32,
    protocol: Protocol,
    list: &[Command],
    replies: &[u8],
    out: &mut Vec<u8>,
) -> Result<(), Memory>
    ensures ok { let line = summary_line start count protocol (length list.now) replies.now in
        OnOk result (out.new.items ≡ out.old.items ++ line) }
    ensures err { OnErr result (out.new.items ≡ out.old.items) }
{
    let mut line = Vec::new(alloc);
    add_summary(start, count, protocol, list.len(), replies, &mut line)?;
    out.extend_from_slice(&line)?;
    Ok(())
}

/// Adds the line.
fn add_summary(
    start: u64,
    count: u32,
    protocol: Protocol,
    commands: usize,
    replies: &[u8],
    line: &mut Vec<u8>,
) -> Result<(), AllocError>
    ensures { OnOk result (line.new.items
        ≡ line.old.items ++ summary_line start count protocol commands replies.now) }
{
    let (tally, stats) = count_lines(replies);
    add_counted(start, count, protocol, commands, &tally, stats, line)
}

/// Adds the line of what was counted. Behind a part for which memory is wanting the others are tried too.
pub fn add_counted(
    start: u64,
    count: u32,
    protocol: Protocol,
    commands: usize,
    tally: &Tally,
    stats: &[u8],
    line: &mut Vec<u8>,
) -> Result<(), AllocError>
    ensures { (replies : List ℕ) → IsTally replies tally.now stats.now → OnOk result (line.new.items
        ≡ line.old.items ++ summary_line start count protocol commands replies) }
{
    add_asked(start, count, protocol, commands, line)
        .and(add_counts(tally, line))
        .and(add_flash(stats, line))
        .and(add_sum(tally.sum, line))
}

/// Adds what was asked for: the beginning of the line.
fn add_asked(
    start: u64,
    count: u32,
    protocol: Protocol,
    commands: usize,
    line: &mut Vec<u8>,
) -> Result<(), AllocError>
    ensures { OnOk result (line.new.items
        ≡ line.old.items ++ spaced (asked_words start count protocol commands)) }
{
    add_word(b"drive", line)
        .and(add_word(protocol_name(protocol), line))
        .and(add_count(b"start", start, line))
        .and(add_count(b"count", u64::from(count), line))
        .and(add_count(b"commands", commands as u64, line))
}

/// The word of a protocol.
fn protocol_name(protocol: Protocol) -> &'static [u8]
    ensures { result.now ≡ protocol_word protocol }
{
    match protocol {
        Protocol::Scc => b"scc",
        Protocol::Bpcc => b"bpcc",
    }
}

/// Adds how many replies of each kind there were.
fn add_counts(tally: &Tally, line: &mut Vec<u8>) -> Result<(), AllocError>
    ensures { OnOk result (line.new.items ≡ line.old.items ++ spaced (tally_words tally.now)) }
{
    add_count(b"done", tally.done, line)
        .and(add_count(b"aborted", tally.aborted, line))
        .and(add_count(b"cut", tally.cut, line))
        .and(add_count(b"refused", tally.refused, line))
        .and(add_count(b"unknown", tally.unknown, line))
}

/// Adds the numbers of the flash, which stand in the line of the numbers of the device.
fn add_flash(stats: &[u8], line: &mut Vec<u8>) -> Result<(), AllocError>
    ensures { OnOk result (line.new.items ≡ line.old.items ++ spaced (flash_words stats.now)) }
{
    add_word(b"programs", line)
        .and(add_word(word_at(stats, 8, b"0"), line))
        .and(add_word(b"erases", line))
        .and(add_word(word_at(stats, 10, b"0"), line))
}

/// Adds the sum of the bytes of all pages, and ends the line.
fn add_sum(sum: u128, line: &mut Vec<u8>) -> Result<(), AllocError>
    ensures { OnOk result (line.new.items ≡ line.old.items ++ line_of (sum_words sum)) }
{
    let mut digits = Buffer::new();
    add_word(b"sum", line).and(add_last(digits.format(sum).as_bytes(), line))
}

/// Adds a word and a number, with a space behind each.
fn add_count(word: &[u8], count: u64, line: &mut Vec<u8>) -> Result<(), AllocError>
    ensures { OnOk result (line.new.items
        ≡ line.old.items ++ spaced (word.now ∷ decimal count ∷ [])) }
{
    let mut digits = Buffer::new();
    add_word(word, line).and(add_word(digits.format(count).as_bytes(), line))
}

/// Adds a word with a space behind it.
fn add_word(word: &[u8], line: &mut Vec<u8>) -> Result<(), AllocError>
    ensures { OnOk result (line.new.items ≡ line.old.items ++ spaced (word.now ∷ [])) }
{
    line.extend_from_slice(word)?;
    line.extend_from_slice(b" ")
}

/// Adds the last word of a line, and ends it.
fn add_last(word: &[u8], line: &mut Vec<u8>) -> Result<(), AllocError>
    ensures { OnOk result (line.new.items ≡ line.old.items ++ line_of (word.now ∷ [])) }
{
    line.extend_from_slice(word)?;
    line.extend_from_slice(b"\n")
}

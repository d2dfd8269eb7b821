ghost use Rattle.std.specs.Prelude.{◌≡◌, ◌+◌, true, false, [], ◌∷◌, codes, if◌then◌else◌, IfOk, IfSome};
ghost use Rattle.host_protocol.specs.Lines.{lines_of};
ghost use Rattle.drive_gen.specs.Counting.{AddsLine};
ghost use Rattle.drive_gen.specs.Summary.{begins_with, last_stats, page_sum, word_or};
ghost use Rattle.drive_gen.specs.Tally.{IsCounted, plus, tally_of};

use crate::hexadecimal::sum_of_bytes;
use crate::words::{leading_word, word_at};
use host_protocol::{Reply, first_line};
use tx_types::Memory;

/// What is counted of the lines of replies.
#[derive(Clone, Copy, PartialEq, Eq)]
pub struct Tally {
    /// The lines `done`.
    pub done: u64,
    /// The lines `aborted`.
    pub aborted: u64,
    /// The lines `cut`.
    pub cut: u64,
    /// The lines `refused`.
    pub refused: u64,
    /// The lines `unknown`.
    pub unknown: u64,
    /// The sum of all bytes of the lines `page`.
    pub sum: u128,
}

/// What the lines of replies count to, and the last line `stats`, empty where there is none.
pub fn count_lines(replies: &[u8]) -> (Tally, &[u8])
    ensures tally { result.0 ≡ tally_of (lines_of replies.now) }
    ensures stats { result.1.now ≡ last_stats (lines_of replies.now) }
{
    let mut tally = Tally::none();
    let mut stats = &replies[..0];
    let mut rest = replies;
    while let Some((line, behind)) = first_line(rest) {
        let word = leading_word(line);
        tally = tally.plus(tally_of(line, word));
        stats = later_stats(stats, line, word);
        rest = behind;
    }
    (tally, stats)
}

/// The line, if it is one of the numbers of a device, else the one before. `word` is its first word.
#[tactic(auto, unfolding(crate::specs::Summary::begins_with))]
fn later_stats<'a>(before: &'a [u8], line: &'a [u8], word: &[u8]) -> &'a [u8]
    requires { word.now ≡ word_or line.now 0 [] }
    ensures { let is_stats = begins_with (codes "stats") line.now in
        result.now ≡ (if is_stats then line.now else before.now) }
{
    if word == b"stats".as_slice() {
        line
    } else {
        before
    }
}

impl Tally {
    /// No line was counted.
    pub fn none() -> Tally
        ensures { result ≡ tally_of [] }
    {
        Tally {
            done: 0,
            aborted: 0,
            cut: 0,
            refused: 0,
            unknown: 0,
            sum: 0,
        }
    }

    /// Counts the line of a reply, if it is of one of the kinds that come most often, and answers whether it was
    /// counted. There is no memory for a count that is too large.
    #[inline(always)]
    pub fn add_frequent(&mut self, reply: &Reply) -> Result<bool, Memory>
        ensures counted { IfOk result (λ counted. counted ≡ true → AddsLine reply.now self.old self.new) }
        ensures other { IfOk result (λ counted. counted ≡ false → self.new ≡ self.old) }
    {
        match reply {
            Reply::Opened(_, _) => Ok(true),
            Reply::Done(_) => {
                self.done = one_more(self.done)?;
                Ok(true)
            }
            Reply::Aborted(_) => {
                self.aborted = one_more(self.aborted)?;
                Ok(true)
            }
            _ => Ok(false),
        }
    }

    /// Both counts together, unless one is too large.
    pub fn checked_plus(self, other: Tally) -> Option<Tally>
        ensures { IfSome result (λ both. both ≡ plus self other) }
    {
        Some(Tally {
            done: self.done.checked_add(other.done)?,
            aborted: self.aborted.checked_add(other.aborted)?,
            cut: self.cut.checked_add(other.cut)?,
            refused: self.refused.checked_add(other.refused)?,
            unknown: self.unknown.checked_add(other.unknown)?,
            sum: self.sum.checked_add(other.sum)?,
        })
    }

    /// Both counts together.
    fn plus(self, other: Tally) -> Tally
        requires { IsCounted (plus self other) }
        ensures { result ≡ plus self other }
    {
        Tally {
            done: self.done + other.done,
            aborted: self.aborted + other.aborted,
            cut: self.cut + other.cut,
            refused: self.refused + other.refused,
            unknown: self.unknown + other.unknown,
            sum: self.sum + other.sum,
        }
    }
}

/// One more than a count, unless it is the greatest.
fn one_more(count: u64) -> Result<u64, Memory>
    ensures { IfOk result (λ more. more ≡ count + 1) }
{
    count.checked_add(1).ok_or(Memory)
}

/// The counts of one line. `word` is its first word.
#[tactic(auto, unfolding(crate::specs::Summary::begins_with))]
fn tally_of(line: &[u8], word: &[u8]) -> Tally
    requires { word.now ≡ word_or line.now 0 [] }
    ensures { result ≡ tally_of (line.now ∷ []) }
{
    Tally {
        done: u64::from(word == b"done".as_slice()),
        aborted: u64::from(word == b"aborted".as_slice()),
        cut: u64::from(word == b"cut".as_slice()),
        refused: u64::from(word == b"refused".as_slice()),
        unknown: u64::from(word == b"unknown".as_slice()),
        sum: sum_of_page(line, word),
    }
}

/// The sum of the bytes of the line of a page, 0 for any other line. `word` is its first word.
#[tactic(auto, unfolding(crate::specs::Summary::begins_with))]
fn sum_of_page(line: &[u8], word: &[u8]) -> u128
    requires { word.now ≡ word_or line.now 0 [] }
    ensures { result ≡ page_sum line.now }
{
    if word == b"page".as_slice() {
        sum_of_bytes(word_at(line, 2, b""))
    } else {
        0
    }
}

ghost use Rattle.std.specs.Prelude.{◌≡◌, ◌<◌, ◌+◌, ◌++◌, ℕ, List, [], true, false, length, IfOk, OnOk};
ghost use Rattle.host_protocol.specs.Lines.{lines_of};
ghost use Rattle.host_protocol.specs.Replies.{text_of};
ghost use Rattle.drive_gen.specs.Counting.{EndsLine, HasCounted, IsTally};
ghost use Rattle.drive_gen.specs.Summary.{last_stats, summary_line};
ghost use Rattle.drive_gen.specs.Tally.{plus, tally_of};

use crate::line::add_counted;
use crate::tally::{Tally, count_lines};
use host_protocol::{Reply, reply_text};
use std::alloc::{AllocError, Global};
use tx_types::{Memory, Protocol};

/// What is counted of replies, one after the other.
#[derive(Drop)]
pub struct RunningTally {
    alloc: Global,
    /// How many replies were counted.
    pub replies: usize,
    /// What the lines count to that have ended.
    pub tally: Tally,
    /// The last of these lines that has the numbers of a device, empty where there is none.
    pub stats: Vec<u8>,
    /// The text behind these lines, whose line feed is to come. A report alone can leave one.
    pub open_text: Vec<u8>,
}

impl RunningTally {
    /// Nothing was counted yet.
    pub fn new(alloc: Global) -> RunningTally
        ensures counted { HasCounted [] result }
        ensures replies { result.replies ≡ 0 }
    {
        RunningTally {
            alloc,
            replies: 0,
            tally: Tally::none(),
            stats: Vec::new(alloc),
            open_text: Vec::new(alloc),
        }
    }

    /// Counts a reply. There is no memory for a count that is too large. After `Memory` nothing is to be counted any
    /// more.
    pub fn count(&mut self, reply: &Reply) -> Result<(), Memory>
        ensures counted { (bytes : List ℕ) → HasCounted bytes self.old →
            OnOk result (HasCounted (bytes ++ text_of reply.now) self.new) }
        ensures replies { OnOk result (self.new.replies ≡ self.old.replies + 1) }
    {
        self.replies = self.replies.checked_add(1).ok_or(Memory)?;
        if self.count_frequent(reply)? {
            return Ok(());
        }
        self.count_text(reply)
    }

    /// Counts a reply of one of the kinds that come most often, without its text, and answers whether it was counted.
    #[inline(always)]
    fn count_frequent(&mut self, reply: &Reply) -> Result<bool, Memory>
        ensures counted { (bytes : List ℕ) → HasCounted bytes self.old → IfOk result (λ counted.
            counted ≡ true → HasCounted (bytes ++ text_of reply.now) self.new) }
        ensures other { IfOk result (λ counted. counted ≡ false → self.new ≡ self.old) }
        ensures replies { self.new.replies ≡ self.old.replies }
    {
        if !self.open_text.is_empty() {
            return Ok(false);
        }
        self.tally.add_frequent(reply)
    }

    /// Counts a reply by its text.
    fn count_text(&mut self, reply: &Reply) -> Result<(), Memory>
        ensures counted { (bytes : List ℕ) → HasCounted bytes self.old →
            OnOk result (HasCounted (bytes ++ text_of reply.now) self.new) }
        ensures replies { self.new.replies ≡ self.old.replies }
    {
        reply_text(self.alloc, reply, &mut self.open_text)?;
        if ends_line(&self.open_text) {
            self.count_open()
        } else {
            Ok(())
        }
    }

    /// Counts the text that is open, as lines.
    fn count_open(&mut self) -> Result<(), Memory>
        ensures counted { (bytes : List ℕ) → HasCounted bytes self.old →
            OnOk result (IsTally bytes self.new.tally self.new.stats.items) }
        ensures none { OnOk result (self.new.open_text.items ≡ []) }
        ensures replies { self.new.replies ≡ self.old.replies }
    {
        add_lines(&self.open_text, &mut self.tally, &mut self.stats)?;
        self.open_text.clear();
        Ok(())
    }

    /// Appends the line that sums up the replies to commands that were drawn, with its line feed. Nothing is to be
    /// counted any more.
    pub fn add_summary(
        &mut self,
        start: u64,
        count: u32,
        protocol: Protocol,
        out: &mut Vec<u8>,
    ) -> Result<(), Memory>
        ensures { (bytes : List ℕ) → HasCounted bytes self.old → OnOk result (out.new.items
            ≡ out.old.items ++ summary_line start count protocol self.old.replies bytes) }
    {
        self.count_open()?;
        add_counted(
            start,
            count,
            protocol,
            self.replies,
            &self.tally,
            &self.stats,
            out,
        )?;
        Ok(())
    }
}

/// Adds what the lines of a text count to, and puts their last line of numbers in the place of an earlier one.
fn add_lines(text: &[u8], tally: &mut Tally, stats: &mut Vec<u8>) -> Result<(), Memory>
    ensures counts { OnOk result (tally.new ≡ plus tally.old (tally_of (lines_of text.now))) }
    ensures some { 0 < length (last_stats (lines_of text.now)) →
        OnOk result (stats.new.items ≡ last_stats (lines_of text.now)) }
    ensures none { length (last_stats (lines_of text.now)) ≡ 0 →
        OnOk result (stats.new.items ≡ stats.old.items) }
{
    let (more, last) = count_lines(text);
    *tally = tally.checked_plus(more).ok_or(Memory)?;
    replace(stats, last)?;
    Ok(())
}

/// Whether a text ends with a line feed.
fn ends_line(text: &[u8]) -> bool
    ensures { result ≡ true → EndsLine text.now }
{
    match text {
        [.., b'\n'] => true,
        _ => false,
    }
}

/// Puts bytes in the place of others, unless there are none.
fn replace(old: &mut Vec<u8>, bytes: &[u8]) -> Result<(), AllocError>
    ensures some { 0 < length bytes.now → OnOk result (old.new.items ≡ bytes.now) }
    ensures none { length bytes.now ≡ 0 → OnOk result (old.new.items ≡ old.old.items) }
{
    if bytes.is_empty() {
        return Ok(());
    }
    old.clear();
    old.extend_from_slice(bytes)
}

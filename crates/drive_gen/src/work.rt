ghost use Rattle.std.specs.Prelude.{◌≡◌, ◌<◌, ◌≤◌, ◌++◌, [], Ok, All, true, false, IfOk, OnOk};
ghost use Rattle.tx_types.specs.Config.{IsConfig, checked, shape_of};
ghost use Rattle.host_protocol.specs.Commands.{Suits};
ghost use Rattle.drive_gen.specs.Parts.{left_of, parts_left};
ghost use Rattle.drive_gen.specs.Work.{fill_batch, generated, reads};

use crate::generator::Generator;
use crate::transaction::{add_finish, add_transaction};
use host_protocol::Command;
use std::alloc::Global;
use tx_types::{Batch, Config, Memory};

/// The commands that a number gives, drawn part by part: every page is written, then come the transactions that are
/// drawn from that number, then every page is read, and last the numbers of the device are asked for.
#[derive(Drop)]
pub struct Work {
    pub config: Config,
    /// What draws the transactions that are left.
    pub generator: Generator,
    /// How many pages were written.
    pub filled: u32,
    /// How many transactions there are.
    pub count: u32,
    /// How many of them were drawn.
    pub drawn: u32,
    /// Whether the last part was given.
    pub ended: bool,
}

impl Work {
    /// The work of so many transactions that are drawn from a number.
    pub fn new(start: u64, count: u32, config: Config) -> Work
        requires { checked config ≡ Ok (shape_of config) }
        ensures left { left_of result ≡ generated start count config }
        ensures suits { All (Suits config.page_bytes) (left_of result) }
        ensures config { result.config ≡ config }
        ensures check { IsConfig result.config }
    {
        Work {
            config,
            generator: Generator { state: start },
            filled: 0,
            count,
            drawn: 0,
            ended: false,
        }
    }

    /// Adds the commands of the next part, and answers whether there was one.
    pub fn add_next(&mut self, alloc: Global, list: &mut Vec<Command>) -> Result<bool, Memory>
        requires { IsConfig self.old.config }
        ensures gives { OnOk result
            (list.new.items ++ left_of self.new ≡ list.old.items ++ left_of self.old) }
        ensures last { IfOk result (λ more. more ≡ false →
            (left_of self.old ≡ []) × (list.new.items ≡ list.old.items)) }
        ensures fewer { IfOk result (λ more. more ≡ true → parts_left self.new < parts_left self.old) }
        ensures config { self.new.config ≡ self.old.config }
    {
        if self.filled < self.config.logical {
            self.add_fill(alloc, list)?;
            return Ok(true);
        }
        if self.drawn < self.count {
            self.add_drawn(alloc, list)?;
            return Ok(true);
        }
        if self.ended {
            return Ok(false);
        }
        self.add_end(list)?;
        Ok(true)
    }

    /// Adds the write of the next page, with a first byte of its own.
    fn add_fill(&mut self, alloc: Global, list: &mut Vec<Command>) -> Result<(), Memory>
        requires config { IsConfig self.old.config }
        requires page { self.old.filled < self.old.config.logical }
        ensures gives { OnOk result
            (list.new.items ++ left_of self.new ≡ list.old.items ++ left_of self.old) }
        ensures fewer { OnOk result (parts_left self.new < parts_left self.old) }
        ensures config { self.new.config ≡ self.old.config }
    {
        let batch = fill_batch(alloc, self.config, self.filled)?;
        add_finish(0, batch, list)?;
        self.filled += 1;
        Ok(())
    }

    /// Adds the next transaction, whose tag is its number from 1 on.
    fn add_drawn(&mut self, alloc: Global, list: &mut Vec<Command>) -> Result<(), Memory>
        requires config { IsConfig self.old.config }
        requires filled { self.old.config.logical ≤ self.old.filled }
        requires some { self.old.drawn < self.old.count }
        ensures gives { OnOk result
            (list.new.items ++ left_of self.new ≡ list.old.items ++ left_of self.old) }
        ensures fewer { OnOk result (parts_left self.new < parts_left self.old) }
        ensures config { self.new.config ≡ self.old.config }
    {
        let tag = self.drawn + 1;
        add_transaction(alloc, self.config, tag, &mut self.generator, list)?;
        self.drawn = tag;
        Ok(())
    }

    /// Adds the last part: a read of every page, and the question for the numbers of the device.
    fn add_end(&mut self, list: &mut Vec<Command>) -> Result<(), Memory>
        requires filled { self.old.config.logical ≤ self.old.filled }
        requires drawn { self.old.count ≤ self.old.drawn }
        requires first { self.old.ended ≡ false }
        ensures gives { OnOk result
            (list.new.items ++ left_of self.new ≡ list.old.items ++ left_of self.old) }
        ensures fewer { OnOk result (parts_left self.new < parts_left self.old) }
        ensures config { self.new.config ≡ self.old.config }
    {
        add_reads(self.config.logical, list)?;
        list.push(Command::Stats)?;
        self.ended = true;
        Ok(())
    }
}

/// The commands that a number gives, in one list.
pub fn commands(
    alloc: Global,
    start: u64,
    count: u32,
    config: Config,
) -> Result<Vec<Command>, Memory>
    requires { checked config ≡ Ok (shape_of config) }
    ensures list { IfOk result (λ list. list.items ≡ generated start count config) }
    ensures suits { IfOk result (λ list. All (Suits config.page_bytes) list.items) }
{
    let most = most_commands(count, config.logical);
    let mut list = Vec::with_capacity(alloc, most)?;
    let mut work = Work::new(start, count, config);
    add_all(alloc, &mut work, &mut list)?;
    Ok(list)
}

/// Adds all commands that are left.
fn add_all(alloc: Global, work: &mut Work, list: &mut Vec<Command>) -> Result<(), Memory>
    requires { IsConfig work.old.config }
    ensures { OnOk result (list.new.items ≡ list.old.items ++ left_of work.old) }
{
    while work.add_next(alloc, list)? {}
    Ok(())
}

/// The most commands that this many transactions on this many pages may have, so that the list is not moved while it
/// grows.
fn most_commands(count: u32, pages: u32) -> usize {
    3 * count as usize + 3 * pages as usize + 1
}

/// What fills a page for the first time.
fn fill_batch(alloc: Global, config: Config, page: u32) -> Result<Batch, Memory>
    requires config { IsConfig config }
    requires page { page < config.logical }
    ensures { IfOk result (λ batch. batch ≡ fill_batch config page) }
{
    let mut batch = Batch::new(alloc, config.page_bytes);
    batch.add(page, &[((page + 1) % 256) as u8])?;
    Ok(batch)
}

/// Adds a read of each of this many pages.
fn add_reads(pages: u32, list: &mut Vec<Command>) -> Result<(), Memory>
    ensures { OnOk result (list.new.items ≡ list.old.items ++ reads pages) }
{
    for page in 0..pages {
        list.push(Command::Read { page })?;
    }
    Ok(())
}

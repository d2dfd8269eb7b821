ghost use Rattle.std.specs.Prelude.{◌≡◌, ◌<◌, ◌+◌, ◌%◌, ◌++◌, ◌∷◌, length, OnOk, IfOk};
ghost use Rattle.tx_types.specs.Config.{IsConfig};
ghost use Rattle.host_protocol.specs.declared.command.Command.TheVariants as command;
ghost use Rattle.drive_gen.specs.Generator.{next_state, high_bits, generator_after};
ghost use Rattle.drive_gen.specs.Work.{aborted, drawn_batch, written_at_once, most_pages, outcome_of, page_count, state_behind, transaction};

use crate::generator::Generator;
use crate::kind::Kind;
use flash_model::Outcome;
use host_protocol::Command;
use std::alloc::Global;
use tx_types::{Batch, Config, Memory};

/// Adds the commands of a transaction that is drawn, under this tag.
pub fn add_transaction(
    alloc: Global,
    config: Config,
    tag: u32,
    generator: &mut Generator,
    list: &mut Vec<Command>,
) -> Result<(), Memory>
    requires { IsConfig config }
    ensures commands { let commands = transaction config generator.old.state tag in
        OnOk result (list.new.items ≡ list.old.items ++ commands) }
    ensures state { OnOk result (generator.new.state ≡ state_behind config generator.old.state) }
{
    let batch = draw_batch(alloc, config, generator)?;
    match Kind::draw(generator) {
        Kind::Cut => add_cut(tag, batch, generator, list),
        Kind::Abort => add_abort(tag, batch, list),
        Kind::Finish => add_finish(tag, batch, list),
    }
}

/// The batch of a transaction: pages that follow one another from the one that is drawn, each with
/// a first byte that is drawn.
fn draw_batch(alloc: Global, config: Config, generator: &mut Generator) -> Result<Batch, Memory>
    requires { IsConfig config }
    ensures batch { IfOk result (λ b. b ≡ drawn_batch config generator.old.state) }
    ensures state { let draws = page_count config generator.old.state + 2 in
        OnOk result (generator.new.state ≡ generator_after generator.old.state draws) }
{
    let pages = draw_page_count(config, generator);
    let first = generator.draw(config.logical);
    let mut batch = Batch::with_room(alloc, config.page_bytes, pages as usize)?;
    for k in 0..pages {
        let page = page_behind(first, k, config.logical);
        batch.add(page, &[generator.draw(256) as u8])?;
    }
    Ok(batch)
}

/// How many pages a transaction has, which is drawn: at most three, as many as may be pending, and all.
fn draw_page_count(config: Config, generator: &mut Generator) -> u32
    requires { IsConfig config }
    ensures count { result ≡ 1 + high_bits (next_state generator.old.state) (most_pages config) }
    ensures state { generator.new.state ≡ next_state generator.old.state }
{
    1 + generator.draw(3.min(config.pending).min(config.logical))
}

/// The page that comes this many pages behind another one, where the first follows the last.
fn page_behind(first: u32, k: u32, pages: u32) -> u32
    requires { 0 < pages }
    ensures { result ≡ (first + k) % pages }
{
    ((u64::from(first) + u64::from(k)) % u64::from(pages)) as u32
}

/// Adds a transaction before which a cut is armed: when and with which outcome is drawn.
fn add_cut(
    tag: u32,
    batch: Batch,
    generator: &mut Generator,
    list: &mut Vec<Command>,
) -> Result<(), Memory>
    ensures commands { let count = 1 + high_bits (next_state generator.old.state) 4 in
        let outcome = outcome_of (high_bits (next_state (next_state generator.old.state)) 3) in
        let commands = command.Cut count outcome ∷ written_at_once tag batch in
        OnOk result (list.new.items ≡ list.old.items ++ commands) }
    ensures state { generator.new.state ≡ next_state (next_state generator.old.state) }
{
    let count = 1 + generator.draw(4);
    let outcome = outcome(generator.draw(3));
    list.push(Command::Cut { count, outcome })?;
    add_finish(tag, batch, list)
}

/// The outcome of this number.
fn outcome(number: u32) -> Outcome
    ensures { result ≡ outcome_of number }
{
    match number {
        0 => Outcome::None,
        1 => Outcome::All,
        _ => Outcome::Bad,
    }
}

/// Adds a transaction that is aborted, after its first page where it has others.
fn add_abort(tag: u32, batch: Batch, list: &mut Vec<Command>) -> Result<(), Memory>
    ensures { let commands = aborted tag batch (length batch.entries) in
        OnOk result (list.new.items ≡ list.old.items ++ commands) }
{
    let pages = batch.len();
    list.push(Command::Write { tag, batch })?;
    if pages > 1 {
        list.push(Command::Step { tag })?;
    }
    list.push(Command::Abort { tag })?;
    Ok(())
}

/// Adds a transaction that is finished.
pub fn add_finish(tag: u32, batch: Batch, list: &mut Vec<Command>) -> Result<(), Memory>
    ensures { OnOk result (list.new.items ≡ list.old.items ++ written_at_once tag batch) }
{
    list.push(Command::Write { tag, batch })?;
    list.push(Command::Finish { tag })?;
    Ok(())
}

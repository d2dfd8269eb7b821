//! What the steps of a line come to.

ghost use Rattle.std.specs.Prelude.{◌≡◌, Ok};
ghost use Rattle.tx_types.specs.Config.{checked, shape_of};
ghost use Rattle.mem_flash.specs.MemFlashState.{state_of};
ghost use Rattle.collector.specs.Matches.{Matches};

use super::pictures::{write_array, write_picture};
use super::steps::{Kept, opened, take};
use crate::building::written;
use crate::texts::is_like;
use bpcc_commit::Bpcc;
use record_list::CommitRule;
use scc_commit::Scc;
use std::alloc::Global;
use tx_types::{Config, Protocol};

/// Whether the pages of a flash read as they did before.
fn reads_as<R: CommitRule>(alloc: Global, kept: &Kept<R>, before: &str) -> bool {
    let mut now = String::new(alloc);
    write_array(kept, &mut now) && now.as_str() == before
}

/// Takes steps one after another, and says how each was answered. Returns whether the pages read the same all the
/// while.
fn are_taken<R: CommitRule>(
    alloc: Global,
    kept: &mut Kept<R>,
    steps: &str,
    before: &str,
    text: &mut String,
) -> bool
    requires matches { Matches (state_of kept.old.flash)
        kept.old.index kept.old.blocks kept.old.unsure }
    requires rule { kept.old.index.config.protocol ≡ R.protocol }
    requires page { kept.old.index.config.page_bytes ≡ 16 }
{
    for step in steps.split("; ") {
        if !take(alloc, kept, step, text) || !reads_as(alloc, kept, before) {
            return false;
        }
    }
    true
}

/// Takes steps, and says how each was answered and how the flash is then.
fn tell<R: CommitRule>(
    alloc: Global,
    kept: &mut Kept<R>,
    steps: &str,
    before: &mut String,
    text: &mut String,
) -> bool
    requires matches { Matches (state_of kept.old.flash)
        kept.old.index kept.old.blocks kept.old.unsure }
    requires rule { kept.old.index.config.protocol ≡ R.protocol }
    requires page { kept.old.index.config.page_bytes ≡ 16 }
{
    write_array(kept, before)
        && are_taken(alloc, kept, steps, before.as_str(), text)
        && text.push(' ').is_ok()
        && write_picture(kept, text).is_ok()
}

/// Whether steps come to what is wanted.
fn come_to<R: CommitRule>(alloc: Global, kept: &mut Kept<R>, steps: &str, wanted: &str) -> bool
    requires matches { Matches (state_of kept.old.flash)
        kept.old.index kept.old.blocks kept.old.unsure }
    requires rule { kept.old.index.config.protocol ≡ R.protocol }
    requires page { kept.old.index.config.page_bytes ≡ 16 }
{
    let (mut before, mut text) = (String::new(alloc), String::new(alloc));
    tell(alloc, kept, steps, &mut before, &mut text) && is_like(text.as_str(), wanted)
}

/// Whether steps on a flash with these items come to what is wanted.
fn is_so<R: CommitRule>(
    alloc: Global,
    config: Config,
    items: &str,
    steps: &str,
    wanted: &str,
) -> bool
    requires check { checked config ≡ Ok (shape_of config) }
    requires page { config.page_bytes ≡ 16 }
    requires rule { config.protocol ≡ R.protocol }
{
    let Some(flash) = written(alloc, config, items) else {
        return false;
    };
    let Some(mut kept) = opened::<R>(alloc, flash, config) else {
        return false;
    };
    let is_so = come_to(alloc, &mut kept, steps, wanted);
    drop(kept);
    is_so
}

/// Whether steps on a flash with these items come to what is wanted under the protocol of a configuration.
pub fn is_on(alloc: Global, config: Config, items: &str, steps: &str, wanted: &str) -> bool
    requires check { checked config ≡ Ok (shape_of config) }
    requires page { config.page_bytes ≡ 16 }
{
    match config.protocol {
        Protocol::Scc => is_so::<Scc>(alloc, config, items, steps, wanted),
        Protocol::Bpcc => is_so::<Bpcc>(alloc, config, items, steps, wanted),
    }
}

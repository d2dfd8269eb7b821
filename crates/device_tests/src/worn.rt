//! Commands that are served alike on a list of operations and on a flash in memory, and on a list that wears out.

ghost use Rattle.std.specs.Prelude.{◌≡◌, ◌≤◌, Ok, length};
ghost use Rattle.tx_types.specs.Config.{checked, shape_of};

use crate::building::{BACK_POINTER, SIMPLE, blank_flash};
use crate::devices::mounting::is_fit;
use crate::texts::{bytes_of, halves};
use bpcc_commit::Bpcc;
use cut_replay::{Lines, serve};
use flash_model::{Arms, Power, Wide};
use host_protocol::parse;
use list_flash::ListFlash;
use mem_flash::MemFlash;
use record_list::CommitRule;
use scc_commit::Scc;
use std::alloc::Global;
use tx_types::Config;

/// Commands, with a `;` behind each, and behind ` > ` their replies. Behind ` | ` the flash is mounted again.
pub const WORN: &str = "\
    # On both kinds of flash: a transaction that is read and given up, several that go on together, and a \
    collection.\n\
    same write 1 0=41 1=42;finish 1;read 0;write 2 0=43 2=44;step 2;read 0;abort 2;read 0;read 2; > open 1 2;done 1;\
    page 0 41000000000000000000000000000000;open 2 2;wrote 2 1 2;page 0 41000000000000000000000000000000;aborted 2;\
    page 0 41000000000000000000000000000000;blank 2;\n\
    same write 1 0=41;write 2 1=42;stepall;write 3 0=43 2=44;write 4 1=45;stepall;read 1;stepall;read 0; > open 1 1;\
    open 2 1;moved 2 finished 2;open 3 2;open 4 1;moved 2 finished 1;page 1 45000000000000000000000000000000;moved 1 \
    finished 1;page 0 43000000000000000000000000000000;\n\
    same write 1 0=41;step 1;write 2 1=42;step 2;write 3 0=43;step 3;collect;read 0;read 1;stats; > open 1 1;done 1;\
    open 2 1;done 2;open 3 1;done 3;collected;page 0 43000000000000000000000000000000;page 1 \
    42000000000000000000000000000000;stats written 2 open 0 pending 0 programs 4 erases 1 garbage 0;\n\
    # A list that bears so many operations, and wears out in the middle of a transaction, of two that go on together, \
    and of a collection, at its copy and at its erase. The last one is not cut, since it tells nothing of what is to \
    come.\n\
    worn 3 write 1 0=41 1=42;finish 1;write 2 0=43 1=44;finish 2;read 0;step 2;abort 2; > open 1 2;done 1;open 2 2;\
    fault;page 0 41000000000000000000000000000000;fault;aborted 2; | read 0;read 1;write 3 5=45;step 3;read 5; > page \
    0 41000000000000000000000000000000;page 1 42000000000000000000000000000000;open 3 1;fault;blank 5;\n\
    worn 2 write 1 0=41;finish 1;write 2 0=43;write 3 1=44;stepall;read 0; > open 1 1;done 1;open 2 1;open 3 1;\
    dropped;page 0 41000000000000000000000000000000; | read 0;read 1;finish 2; > page 0 \
    41000000000000000000000000000000;blank 1;unknown 2;\n\
    worn 3 write 1 0=41;step 1;write 2 1=42;step 2;write 3 0=43;step 3;collect;read 0; > open 1 1;done 1;open 2 1;\
    done 2;open 3 1;done 3;fault;page 0 43000000000000000000000000000000; | read 0;read 1; > page 0 \
    43000000000000000000000000000000;page 1 42000000000000000000000000000000;\n\
    worn 4 write 1 0=41;step 1;write 2 1=42;step 2;write 3 0=43;step 3;collect;read 0; > open 1 1;done 1;open 2 1;\
    done 2;open 3 1;done 3;fault;page 0 43000000000000000000000000000000; | read 0;read 1;collect; > page 0 \
    43000000000000000000000000000000;page 1 42000000000000000000000000000000;fault;\n\
    worn 1 cut 1 all;write 1 0=41;finish 1;read 0; > armed;open 1 1;done 1;page 0 41000000000000000000000000000000;";

/// Serves commands on a flash. It comes back where all were served.
fn serve_all<F: Power + Arms + Wide + Drop, R: CommitRule>(
    alloc: Global,
    flash: F,
    config: Config,
    commands: &[u8],
    lines: &mut Lines,
) -> Option<F>
    requires { length commands.now ≤ 1000 }
{
    let list = parse(alloc, commands, config.page_bytes).ok()?;
    if !is_fit::<F, R>(&flash, config) {
        return None;
    }
    let (flash, result) = serve::<F, R, Lines>(alloc, flash, config, &list, lines);
    match result {
        Ok(()) => Some(flash),
        Err(_) => None,
    }
}

/// Serves the commands of a text on a flash. It comes back where they are answered as it is wanted.
fn serve_text<F: Power + Arms + Wide + Drop, R: CommitRule>(
    alloc: Global,
    flash: F,
    config: Config,
    commands: &str,
    wanted: &str,
) -> Option<F> {
    let commands = bytes_of(alloc, commands).ok()?;
    let wanted = bytes_of(alloc, wanted).ok()?;
    if commands.len() > 1000 {
        return None;
    }
    let mut lines = Lines::new(alloc);
    let flash = serve_all::<F, R>(alloc, flash, config, &commands, &mut lines)?;
    if lines.as_slice() == wanted.as_slice() {
        Some(flash)
    } else {
        None
    }
}

/// Whether commands are answered as it is wanted.
fn are_answered<F: Power + Arms + Wide + Drop, R: CommitRule>(
    alloc: Global,
    flash: F,
    config: Config,
    text: &str,
) -> bool {
    let mut flash = flash;
    for part in text.split(" | ") {
        let (commands, wanted) = halves(part, " > ");
        match serve_text::<F, R>(alloc, flash, config, commands, wanted) {
            Some(served) => flash = served,
            None => return false,
        }
    }
    true
}

/// Whether commands are answered so on a new flash that bears so many operations.
fn are_borne<R: CommitRule>(alloc: Global, config: Config, limit: usize, text: &str) -> bool {
    let Ok(shape) = config.check() else {
        return false;
    };
    match ListFlash::new(alloc, shape, limit) {
        Ok(flash) => are_answered::<ListFlash, R>(alloc, flash, config, text),
        Err(_) => false,
    }
}

/// Whether commands are answered so on a new flash in memory.
fn are_kept<R: CommitRule>(alloc: Global, config: Config, text: &str) -> bool
    requires { checked config ≡ Ok (shape_of config) }
{
    match blank_flash(alloc, config) {
        Some(flash) => are_answered::<MemFlash, R>(alloc, flash, config, text),
        None => false,
    }
}

/// Whether they are under a rule: `same` on both kinds, and else on one that bears as many operations as stand first.
fn are_served<R: CommitRule>(alloc: Global, config: Config, kind: &str, text: &str) -> bool
    requires { checked config ≡ Ok (shape_of config) }
{
    if kind == "same" {
        return are_kept::<R>(alloc, config, text) && are_borne::<R>(alloc, config, 1000, text);
    }
    let (limit, text) = halves(text, " ");
    are_borne::<R>(alloc, config, limit.parse().unwrap_or(0), text)
}

/// Whether they are under both rules.
pub fn are_right(alloc: Global, kind: &str, text: &str) -> bool {
    are_served::<Scc>(alloc, SIMPLE, kind, text)
        && are_served::<Bpcc>(alloc, BACK_POINTER, kind, text)
}

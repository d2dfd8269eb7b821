//! Commands that are served over cuts and faults, and how many slots are read.

ghost use Rattle.std.specs.Prelude.{◌≤◌, length, None};

use crate::building::{SIMPLE, blank_flash};
use crate::texts::{bytes_of, number, number_of, word};
use cut_replay::{Lines, Watch, serve};
use flash_model::Flash;
use host_protocol::{Reply, parse};
use mem_flash::MemFlash;
use scc_commit::Scc;
use std::alloc::Global;
use tx_types::Memory;

/// Commands on a fresh flash, with a `;` behind each, and what becomes of them.
pub const SERVED: &str = "\
    # The replies. The fifth read of the mount after the cut fails, then the first read of the next one. The read of a \
    page that was never written meets no fault of its own: the device is not mounted when it comes.\n\
    served write 1 0=41;finish 1;write 2 1=42;cut 1 none;badread 5;finish 2;badread 1;read 0;read 0;read 1; \
    => open 1 1;done 1;open 2 1;armed;armed;cut;armed;fault;page 0 41000000000000000000000000000000;blank 1;\n\
    served write 1 0=41;finish 1;write 2 1=42;cut 1 none;badread 5;finish 2;badread 1;read 1;read 0;read 1; \
    => open 1 1;done 1;open 2 1;armed;armed;cut;armed;fault;page 0 41000000000000000000000000000000;blank 1;\n\
    # How many slots are read. One mount reads each of 32 slots once, and a page that was read is not read again.\n\
    reads write 1 0=41;finish 1;read 0;read 0; => 33\n\
    # How many are read up to each reply, where power is on at each. The cut falls in the first program. The device is \
    mounted again before it is told: that reads each of 32 slots, and the read of a page that was never written none.\n\
    moments write 1 0=41;cut 1 none;finish 1;read 0; => 32 32 64 64";

/// What the flash was at each reply: whether power was on, and how many reads it counted.
#[derive(Drop)]
struct Moments {
    all: Vec<(bool, u64)>,
}

impl Watch<MemFlash> for Moments {
    ghost text = { λ m. None };

    ghost kept = { λ m. None };

    ghost flashes = { λ m. None };

    fn tell(&mut self, flash: &MemFlash, reply: &Reply) -> Result<(), Memory> {
        let _ = reply;
        self.all.push((flash.live(), flash.reads()))?;
        Ok(())
    }
}

/// Serves commands on a fresh flash. It returns how many reads the flash counted.
fn served<W: Watch<MemFlash>>(alloc: Global, commands: &[u8], out: &mut W) -> Option<u64>
    requires { length commands.now ≤ 1000 }
{
    let Ok(list) = parse(alloc, commands, SIMPLE.page_bytes) else {
        return None;
    };
    let flash = blank_flash(alloc, SIMPLE)?;
    let (flash, result) = serve::<MemFlash, Scc, W>(alloc, flash, SIMPLE, &list, out);
    let reads = flash.reads();
    drop(flash);
    match result {
        Ok(()) => Some(reads),
        Err(_) => None,
    }
}

/// Serves the commands of a text. It returns how many reads the flash counted.
fn reads_of<W: Watch<MemFlash>>(alloc: Global, commands: &str, out: &mut W) -> Option<u64> {
    let commands = bytes_of(alloc, commands).ok()?;
    if commands.len() > 1000 {
        return None;
    }
    served(alloc, &commands, out)
}

/// Whether commands have the replies that are wanted.
pub fn is_answered(alloc: Global, commands: &str, wanted: &str) -> bool {
    let mut lines = Lines::new(alloc);
    let is_served = reads_of(alloc, commands, &mut lines).is_some();
    match bytes_of(alloc, wanted) {
        Ok(replies) => is_served && lines.as_slice() == replies.as_slice(),
        Err(_) => false,
    }
}

/// Whether as many slots are read for commands as are wanted.
pub fn are_reads(alloc: Global, commands: &str, wanted: &str) -> bool {
    let mut lines = Lines::new(alloc);
    reads_of(alloc, commands, &mut lines) == Some(u64::from(number_of(wanted)))
}

/// Whether power was on at all moments, and the flash counted so many reads at each.
fn were(moments: &[(bool, u64)], wanted: &str) -> bool {
    let mut at = 0;
    for (is_on, reads) in moments {
        if !*is_on || *reads != u64::from(number(wanted, at)) {
            return false;
        }
        at = at.saturating_add(1);
    }
    word(wanted, at).is_empty()
}

/// Whether the flash was as it is wanted at the replies to commands.
pub fn are_moments(alloc: Global, commands: &str, wanted: &str) -> bool {
    let mut watch = Moments {
        all: Vec::new(alloc),
    };
    reads_of(alloc, commands, &mut watch).is_some() && were(&watch.all, wanted)
}

//! A program of its own over the proved device: it mounts one over a flash in memory, changes two pages at once, and
//! prints the bytes of one of them. The status is 0, or 1 where a call of the device is not answered as it should be.
#![tactic(auto)]

ghost use Rattle.std.specs.Prelude.{◌≡◌, false};

use array_machine::{Progress, ReadAnswer};
use mem_flash::MemFlash;
use scc_commit::Scc;
use std::process::ExitCode;
use tx_engine::Device;
use tx_types::{Batch, Config, Protocol};

/// 20 pages of 16 bytes, under Simple Cyclic Commit, on two dies of 4 blocks of 4 slots.
const CONFIG: Config = Config {
    protocol: Protocol::Scc,
    page_bytes: 16,
    pages_per_block: 4,
    blocks_per_die: 4,
    dies: 2,
    logical: 20,
    pending: 7,
};

fn main(rt: HostRuntime) -> ExitCode {
    let Ok(shape) = CONFIG.check() else {
        return ExitCode::from(1);
    };
    let Ok(flash) = MemFlash::new(rt.alloc(), shape) else {
        return ExitCode::from(1);
    };
    match Device::<MemFlash, Scc>::mount(rt.alloc(), flash, CONFIG) {
        Ok(mut device) => {
            let is_done = change_two_pages(&rt, &mut device) && print_page(&rt, &mut device);
            drop(device);
            ExitCode::from(if is_done { 0 } else { 1 })
        }
        Err(_) => ExitCode::from(1),
    }
}

/// Changes pages 3 and 5 at once. A cut at any step would leave both as they were, or both changed.
fn change_two_pages<R: AllocGlobal>(rt: &R, device: &mut Device<MemFlash, Scc>) -> bool
    requires kept { device.old.dropped ≡ false }
    requires pages { device.old.config.page_bytes ≡ 16 }
    ensures kept { device.new.dropped ≡ false }
    ensures pages { device.new.config.page_bytes ≡ 16 }
{
    let mut batch = Batch::new(rt.alloc(), 16);
    if batch.add(3, b"left\n").is_err() || batch.add(5, b"right\n").is_err() {
        return false;
    }
    device.submit(1, &batch).is_ok()
        && device.step(1).is_ok()
        && device.step(1) == Ok(Progress::Done)
}

/// Prints the first bytes of page 3.
fn print_page<R: Print>(rt: &R, device: &mut Device<MemFlash, Scc>) -> bool
    requires kept { device.old.dropped ≡ false }
    requires pages { device.old.config.page_bytes ≡ 16 }
{
    let mut bytes = [0; 16];
    device.read(3, &mut bytes) == Ok(ReadAnswer::Page) && rt.write_all(&bytes[..5]).is_ok()
}

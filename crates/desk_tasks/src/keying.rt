ghost use Rattle.std.specs.Prelude.{◌≡◌, ◌≤◌, All, Ok, Some, IfOk, IfErr, length};
ghost use Rattle.durable_folder.specs.Histories.{Rests};
ghost use Rattle.desk_io.specs.Disk.{FindsBoth};
ghost use Rattle.desk_io.specs.Desk.{max_file_bytes};
ghost use Rattle.host_protocol.specs.declared.file.TheConstants.{MAX_FILE_BYTES};
ghost use Rattle.mem_flash.specs.MemFlashState.{loaded};
ghost use Rattle.page_keys.specs.Scripts.{IsScript, SuitsKeys};
ghost use Rattle.tx_types.specs.Config.{checked, shape_of};
ghost use Rattle.desk_tasks.specs.Ending.{Keyed};
ghost use Rattle.desk_tasks.specs.KeyWork.{IsKeysRun, OpensStore};
ghost use Rattle.desk_tasks.specs.Steps.{Keying, Opening};
ghost use Rattle.desk_tasks.specs.Stops.{RefusesScript, RefusesStore, StopsBy, Works, WorksTo};
ghost use Rattle.desk_tasks.specs.Request.{Keys};

use crate::loading::load_both;
use crate::output::{Failure, File, Output, Text};
use bpcc_commit::Bpcc;
use desk_io::Desk;
use image_file::into_image;
use mem_flash::MemFlash;
use page_keys::{KeyCommand, key_serve, parse_keys};
use program_base::open_image;
use record_list::CommitRule;
use scc_commit::Scc;
use std::alloc::Global;
use std::mem::forget;
use tx_types::{Config, Protocol};

/// What serving a key script leaves.
#[derive(Drop)]
struct KeptKeys {
    flash: MemFlash,
    replies: Vec<u8>,
}

/// Serves a key script on the store of an image file, which is then saved.
pub fn do_keys<'a, D: Desk>(
    alloc: Global,
    image: &'a str,
    script: &'a str,
    desk: &mut D,
) -> Result<Output<'a>, Failure<'a>>
    ensures works { Works (Some (Keys image.now script.now)) (FindsBoth (D.state desk.old) (D.disk desk.old))
        (D.state desk.old) (D.state desk.new) result }
    ensures disk { Rests (D.disk desk.old) (D.disk desk.new) }
{
    let (bytes, lines) = load_both(image, script, desk)?;
    keys_from_bytes(alloc, image, bytes, &lines)
}

/// What a key script gives, from the bytes of its files on.
fn keys_from_bytes<'a>(
    alloc: Global,
    name: &'a str,
    bytes: Vec<u8>,
    lines: &[u8],
) -> Result<Output<'a>, Failure<'a>>
    requires { length lines.now ≤ max_file_bytes }
    ensures { WorksTo (Keying name.now bytes.items lines.now) result }
{
    let (config, flash) = open_image(alloc, bytes)?;
    match read_script(alloc, lines) {
        Ok(list) => {
            let product = run_keys(alloc, name, config, flash, &list);
            leak_at_exit(list);
            product
        }
        Err(stop) => {
            drop(flash);
            Err(stop)
        }
    }
}

/// Serves a key script on the store of a flash, whose image is then saved under this name.
fn run_keys<'a>(
    alloc: Global,
    name: &'a str,
    config: Config,
    flash: MemFlash,
    list: &[KeyCommand],
) -> Result<Output<'a>, Failure<'a>>
    requires check { checked config ≡ Ok (shape_of config) }
    requires ready { flash ≡ loaded (shape_of config) flash.image flash.extras }
    requires suits { All SuitsKeys list.now }
    ensures { WorksTo (Opening config flash.image (OpensStore config flash.image
        (Keyed name.now config flash.image flash.extras list.now))) result }
{
    let KeptKeys { flash, replies } = serve_keys(alloc, flash, config, list)?;
    let saved = into_image(alloc, &config, flash)?;
    Ok(Output {
        saved: Some(File { name, bytes: saved }),
        text: Text::Other(replies),
    })
}

/// The commands of a key script.
fn read_script(alloc: Global, bytes: &[u8]) -> Result<Vec<KeyCommand>, Failure<'static>>
    requires { length bytes.now ≤ MAX_FILE_BYTES }
    ensures script { IfOk result (λ list. IsScript bytes.now list.items) }
    ensures suits { IfOk result (λ list. All SuitsKeys list.items) }
    ensures err { IfErr result (StopsBy (RefusesScript bytes.now)) }
{
    let list = parse_keys(alloc, bytes)?;
    Ok(list)
}

/// Serves the commands of a script on the store of a flash.
fn serve_keys(
    alloc: Global,
    flash: MemFlash,
    config: Config,
    list: &[KeyCommand],
) -> Result<KeptKeys, Failure<'static>>
    requires check { checked config ≡ Ok (shape_of config) }
    requires ready { flash ≡ loaded (shape_of config) flash.image flash.extras }
    requires suits { All SuitsKeys list.now }
    ensures run { IfOk result (λ s.
        IsKeysRun config flash.image list.now s.flash.image s.replies.items) }
    ensures shape { IfOk result (λ s. s.flash.shape ≡ shape_of config) }
    ensures extras { IfOk result (λ s. s.flash.extras ≡ flash.extras) }
    ensures err { IfErr result (StopsBy (RefusesStore config flash.image)) }
{
    match config.protocol {
        Protocol::Scc => serve_keys_by::<Scc>(alloc, flash, config, list),
        Protocol::Bpcc => serve_keys_by::<Bpcc>(alloc, flash, config, list),
    }
}

/// The same under a rule.
fn serve_keys_by<R: CommitRule>(
    alloc: Global,
    flash: MemFlash,
    config: Config,
    list: &[KeyCommand],
) -> Result<KeptKeys, Failure<'static>>
    requires check { checked config ≡ Ok (shape_of config) }
    requires rule { config.protocol ≡ R.protocol }
    requires ready { flash ≡ loaded (shape_of config) flash.image flash.extras }
    requires suits { All SuitsKeys list.now }
    ensures run { IfOk result (λ s.
        IsKeysRun config flash.image list.now s.flash.image s.replies.items) }
    ensures shape { IfOk result (λ s. s.flash.shape ≡ shape_of config) }
    ensures extras { IfOk result (λ s. s.flash.extras ≡ flash.extras) }
    ensures err { IfErr result (StopsBy (RefusesStore config flash.image)) }
{
    let mut replies = Vec::new(alloc);
    let (flash, done) = key_serve::<MemFlash, R>(alloc, flash, config, list, &mut replies);
    let kept = KeptKeys { flash, replies };
    match done {
        Ok(()) => Ok(kept),
        Err(error) => {
            drop(kept);
            Err(Failure::from(error))
        }
    }
}

/// Leaves the memory of commands to the end of the program, which is near: to give that of each command back would
/// take longer than to make them, and nothing is to be put there.
fn leak_at_exit<T: Drop>(list: Vec<T>) {
    forget(list);
}

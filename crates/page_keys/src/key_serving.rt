ghost use Rattle.std.specs.Prelude.{◌≡◌, Ok, true, false, All, OnOk, IfOk, IfErr, if◌then◌else◌};
ghost use Rattle.tx_types.specs.Config.{checked};
ghost use Rattle.flash_model.specs.Flash.{FlashState, IsSteady};
ghost use Rattle.flash_model.specs.Operations.{moment_of};
ghost use Rattle.page_keys.specs.KeyRuns.{arms_key_cut};
ghost use Rattle.page_keys.specs.KeyServed.{BeginsFlash, BeginsKeys, RefusesKeys, ServesScript, ServesUnopened};
ghost use Rattle.mounted_session.specs.Sessions.{is_mounted};
ghost use Rattle.page_keys.specs.KeySessions.{flash_in, Ends, Fits, IsKeyImage, ServesOne};
ghost use Rattle.page_keys.specs.Scripts.{SuitsKeys};

use crate::command::KeyCommand;
use crate::key_calls::execute;
use crate::key_error::KeyServeError;
use crate::key_reply::{KeyReply, key_reply_text};
use crate::key_session::arm_cut;
use crate::store::KeyStore;
use flash_model::{Arms, Power};
use mounted_session::{Session, begin};
use record_list::CommitRule;
use std::alloc::Global;
use tx_types::Config;

/// Serves a command that is no arm on an open store, which is closed after a fault.
fn serve_mounted<F: Power, R: CommitRule>(
    config: Config,
    session: &mut Session<F, KeyStore<F, R>>,
    command: &KeyCommand,
) -> Result<KeyReply, KeyServeError>
    requires mounted { is_mounted session.old ≡ true }
    requires rule { config.protocol ≡ R.protocol }
    requires fits { Fits F.state config session.old }
    requires no_arm { arms_key_cut command.now ≡ false }
    requires suits { SuitsKeys command.now }
    ensures served { IfOk result
        (λ r. ServesOne F.state config command.now session.old r session.new) }
    ensures ended { IfErr result (Ends config (F.state (flash_in session.old))
        (F.state (flash_in session.new))) }
{
    let Session::Mounted(store) = session else {
        unreachable!();
    };
    let reply = execute(store, command)?;
    store.config();
    let KeyReply::Fault = reply else {
        return Ok(reply);
    };
    session.unmount();
    Ok(break_reply(session.live()))
}

/// The reply to a command in which the flash met a fault, by whether power is on.
fn break_reply(live: bool) -> KeyReply
    ensures { result ≡ if live then KeyReply.Fault else KeyReply.Cut }
{
    if live { KeyReply::Fault } else { KeyReply::Cut }
}

/// Serves a command that is no arm where the store is to be opened first.
fn serve_unmounted<F: Power, R: CommitRule>(
    alloc: Global,
    config: Config,
    session: &mut Session<F, KeyStore<F, R>>,
    command: &KeyCommand,
) -> Result<KeyReply, KeyServeError>
    requires unmounted { is_mounted session.old ≡ false }
    requires rule { config.protocol ≡ R.protocol }
    requires fits { Fits F.state config session.old }
    requires no_arm { arms_key_cut command.now ≡ false }
    requires suits { SuitsKeys command.now }
    ensures served { IfOk result
        (λ r. ServesOne F.state config command.now session.old r session.new) }
    ensures ended { IfErr result (Ends config (F.state (flash_in session.old))
        (F.state (flash_in session.new))) }
{
    session.mount_again(alloc, config)?;
    if session.is_mounted() {
        serve_mounted(config, session, command)
    } else {
        Ok(break_reply(session.live()))
    }
}

/// Serves a command.
fn serve_one<F: Power + Arms, R: CommitRule>(
    alloc: Global,
    config: Config,
    session: &mut Session<F, KeyStore<F, R>>,
    command: &KeyCommand,
) -> Result<KeyReply, KeyServeError>
    requires rule { config.protocol ≡ R.protocol }
    requires fits { Fits F.state config session.old }
    requires suits { SuitsKeys command.now }
    ensures served { IfOk result
        (λ r. ServesOne F.state config command.now session.old r session.new) }
    ensures ended { IfErr result (Ends config (F.state (flash_in session.old))
        (F.state (flash_in session.new))) }
{
    match command {
        KeyCommand::Cut { count, outcome } => {
            arm_cut(session, *count, *outcome);
            Ok(KeyReply::Armed)
        }
        _ if session.is_mounted() => serve_mounted(config, session, command),
        _ => serve_unmounted(alloc, config, session, command),
    }
}

/// Serves the commands in order, and appends the line of each reply.
fn serve_all<F: Power + Arms, R: CommitRule>(
    alloc: Global,
    config: Config,
    mut session: Session<F, KeyStore<F, R>>,
    list: &[KeyCommand],
    out: &mut Vec<u8>,
) -> (F, Result<(), KeyServeError>)
    requires rule { config.protocol ≡ R.protocol }
    requires fits { Fits F.state config session }
    requires suits { All SuitsKeys list.now }
    ensures serves { (init : FlashState) → BeginsKeys F.state config init session →
        ServesScript config list.now init (F.state result.0) out.old.items out.new.items result.1 }
    ensures unopened { (init : FlashState) → (IsKeyImage config init → ⊥) →
        moment_of (F.state (flash_in session)) ≡ moment_of init →
        moment_of (F.state result.0) ≡ moment_of init }
    ensures unserved { (init : FlashState) → (IsKeyImage config init → ⊥) →
        moment_of (F.state (flash_in session)) ≡ moment_of init →
        BeginsFlash config init false (F.state (flash_in session)) →
        ServesUnopened config list.now init (F.state result.0) out.old.items out.new.items result.1 }
    ensures refuses { (init : FlashState) → (IsKeyImage config init → ⊥) →
        moment_of (F.state (flash_in session)) ≡ moment_of init →
        RefusesKeys config init result.1 }
    ensures shape { checked config ≡ Ok (F.state result.0).shape }
    ensures extras { (F.state result.0).extras ≡ (F.state (flash_in session)).extras }
{
    for command in list {
        match serve_one(alloc, config, &mut session, command) {
            Ok(reply) => {
                if key_reply_text(&reply, out).is_err() {
                    return (session.close(), Err(KeyServeError::Memory));
                }
            }
            Err(why) => return (session.close(), Err(why)),
        }
    }
    (session.close(), Ok(()))
}

/// Serves the commands of a key script in order on the store of a flash, and appends the line of each reply. The store
/// of a flash with power is opened first.
///
/// The check of the configuration gives the shape of the flash, and its protocol is that of `R`. Keys have 1 to 15
/// bytes, values at most 15, a put has fewer than 2^32 changes, and each cut counts from 1.
///
/// - After a command in which power was cut, or the flash met a fault, the store is closed. The next command that is no
///   `cut` turns power on and opens it again. Where that meets a fault the command is not done, and its reply is
///   `Fault`, or `Cut` where power is off.
/// - `Unsound` and `Bucket` come only from an opening before the first one that succeeded. The flash then comes back
///   with its image and its counts of programs and erases. Over such an image each reply before that is of an opening
///   that met a fault, or of an arm.
/// - `Memory` ends the run before a command, in it, or where its reply is to be told. The replies before it were told.
pub fn key_serve<F: Power + Arms, R: CommitRule>(
    alloc: Global,
    flash: F,
    config: Config,
    list: &[KeyCommand],
    out: &mut Vec<u8>,
) -> (F, Result<(), KeyServeError>)
    requires check { checked config ≡ Ok (F.state flash).shape }
    requires rule { config.protocol ≡ R.protocol }
    requires suits { All SuitsKeys list.now }
    ensures serves { IsKeyImage config (F.state flash) →
        ServesScript config list.now (F.state flash) (F.state result.0) out.old.items
        out.new.items result.1 }
    ensures keeps { IsKeyImage config (F.state flash) →
        IsKeyImage config (F.state result.0) }
    ensures steady { IsSteady (F.state flash) → OnOk result.1 (IsKeyImage config (F.state flash)) }
    ensures unopened { (IsKeyImage config (F.state flash) → ⊥) →
        moment_of (F.state result.0) ≡ moment_of (F.state flash) }
    ensures unserved { (IsKeyImage config (F.state flash) → ⊥) →
        ServesUnopened config list.now (F.state flash) (F.state result.0) out.old.items
        out.new.items result.1 }
    ensures refuses { (IsKeyImage config (F.state flash) → ⊥) →
        RefusesKeys config (F.state flash) result.1 }
    ensures shape { (F.state result.0).shape ≡ (F.state flash).shape }
    ensures extras { (F.state result.0).extras ≡ (F.state flash).extras }
{
    match begin(alloc, flash, config) {
        Ok(session) => serve_all::<F, R>(alloc, config, session, list, out),
        Err((flash, why)) => (flash, Err(why)),
    }
}

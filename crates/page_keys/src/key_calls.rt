ghost use Rattle.std.specs.Prelude.{◌≡◌, ◌≤◌, ◌<◌, ◌^◌, ℕ, false, length, IfOk, OnErr};
ghost use Rattle.std.specs.List.{AllByRecursion};
ghost use Rattle.page_keys.specs.KeyRuns.{key_at, arms_key_cut};
ghost use Rattle.page_keys.specs.KeySessions.{reply_of, DoesFor, MemoryLeaves};
ghost use Rattle.page_keys.specs.Puts.{IsKeyChange};
ghost use Rattle.page_keys.specs.Scripts.{SuitsKeys};

use crate::answers::PutError;
use crate::changes::{Change, Changes};
use crate::command::KeyCommand;
use crate::key_reply::KeyReply;
use crate::short_bytes::{MAX_SHORT, ShortBytes};
use crate::store::KeyStore;
use flash_model::Flash;
use record_list::CommitRule;
use tx_types::Memory;

/// Does a command that is no arm on a store. Where power was cut the reply is to be `Cut` in place of `Fault`.
pub(crate) fn execute<F: Flash, R: CommitRule>(
    store: &mut KeyStore<F, R>,
    command: &KeyCommand,
) -> Result<KeyReply, Memory>
    requires usable { store.old.broken ≡ false }
    requires no_arm { arms_key_cut command.now ≡ false }
    requires suits { SuitsKeys command.now }
    ensures ok { IfOk result (DoesFor F.state command.now store.old store.new) }
    ensures err { OnErr result (MemoryLeaves F.state store.old store.new) }
{
    match command {
        KeyCommand::Put { changes } => put(store, changes),
        KeyCommand::Get { key } => Ok(get(store, key.as_slice())),
        KeyCommand::Cut { .. } => unreachable!(),
    }
}

/// Makes changes.
fn put<F: Flash, R: CommitRule>(
    store: &mut KeyStore<F, R>,
    changes: &Changes,
) -> Result<KeyReply, Memory>
    requires usable { store.old.broken ≡ false }
    requires keys { AllByRecursion IsKeyChange changes.now }
    requires few { length changes.now < 2 ^ 32 }
    ensures ok { IfOk result (DoesFor F.state (KeyCommand.Put changes.now) store.old store.new) }
    ensures err { OnErr result (MemoryLeaves F.state store.old store.new) }
{
    store.config();
    match store.put(changes) {
        Ok(()) => Ok(KeyReply::Stored(changes.as_slice().len() as u32)),
        Err(refusal) => match put_reply(changes.as_slice(), refusal) {
            Some(reply) => Ok(reply),
            None => Err(Memory),
        },
    }
}

/// The reply of a put that was not done, none for want of memory.
fn put_reply(changes: &[Change], refusal: PutError) -> Option<KeyReply>
    ensures { result ≡ reply_of changes.now refusal }
{
    match refusal {
        PutError::Empty => Some(KeyReply::RefusedEmpty),
        PutError::Repeated(i) => Some(KeyReply::RefusedRepeated(key_at(changes, i))),
        PutError::Wide(pages) => Some(KeyReply::RefusedWide(pages)),
        PutError::Bucket(page) => Some(KeyReply::RefusedBucket(page)),
        PutError::Spent(page) => Some(KeyReply::RefusedSpent(page)),
        PutError::Fault => Some(KeyReply::Fault),
        PutError::Memory => None,
    }
}

/// The key of the change at this place, from 0.
fn key_at(changes: &[Change], i: u32) -> ShortBytes
    ensures { result ≡ key_at changes.now i }
{
    match changes.get(i as usize) {
        Some(change) => ShortBytes::new(change.key.as_slice()),
        None => ShortBytes::new(b""),
    }
}

/// Answers the value of a key.
fn get<F: Flash, R: CommitRule>(store: &mut KeyStore<F, R>, key: &[u8]) -> KeyReply
    requires usable { store.old.broken ≡ false }
    requires few { length key.now ≤ MAX_SHORT }
    ensures { DoesFor F.state (KeyCommand.Get key.now) store.old store.new result }
{
    store.config();
    let mut into = [0; MAX_SHORT];
    match store.get(key, &mut into) {
        Ok(Some(len)) => KeyReply::Value(ShortBytes::new(key), ShortBytes::new(&into[..len])),
        Ok(None) => KeyReply::Absent(ShortBytes::new(key)),
        Err(_) => KeyReply::Fault,
    }
}

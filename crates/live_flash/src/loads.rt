//! The slots of the programs that are loaded in the registers of the dies.
ghost use Rattle.std.specs.Prelude.{◌≡◌, ◌++◌, ◌<◌, ◌∷◌, ℕ, List, [], length, vec_capacity, true, false, replicate, Option, None, IfOk, IfSome};
ghost use Rattle.tx_types.specs.Config.{slots_of, IsShape};
ghost use Rattle.tx_types.specs.declared.config.Slot.{Slot};
ghost use Rattle.flash_model.specs.Operations.{die_of};
ghost use Rattle.file_flash.specs.Following.{AreProgrammed, slots_in};
ghost use Rattle.file_flash.specs.Loads.{slots_loaded, IsLoaded, AreLoaded};
ghost use Rattle.live_flash.specs.Following.{Follows};
ghost use Rattle.live_flash.specs.Loads.{AreApart};
ghost use Rattle.live_flash.specs.Waiting.{HasRoom};

use crate::Follower;
use file_flash::Store;
use mem_flash::MemFlash;
use std::alloc::{AllocError, Global};
use tx_types::{Shape, Slot};

/// A place for each die, with no slot.
pub(crate) fn no_slots(alloc: Global, dies: u32) -> Result<Vec<Option<Slot>>, AllocError>
    ensures { IfOk result (λ slots. slots.items ≡ replicate dies None) }
{
    let mut slots = Vec::new(alloc);
    for _ in 0..dies {
        slots.push(None)?;
    }
    Ok(slots)
}

/// Empties all places.
pub(crate) fn clear_slots(slots: &mut [Option<Slot>])
    ensures { slots.new ≡ replicate (length slots.old) None }
{
    slots.fill(None);
}

/// The die that a slot lies in.
pub(crate) fn die_of(shape: Shape, at: Slot) -> usize
    requires shape { IsShape shape }
    requires exists { at.0 < slots_of shape }
    ensures die { result ≡ die_of shape at.0 }
    ensures within { result < shape.dies }
{
    (at.0 / shape.pages_per_block / shape.blocks_per_die) as usize
}

/// Follows the program of this slot in memory, if there is one. It does not wait yet. Others that were
/// programmed with it may wait.
fn follow_slot<S: Store + Drop>(follower: &mut Follower<S>, memory: &MemFlash, slot: Option<Slot>)
    requires exists { IsLoaded memory.now.shape slot }
    requires programmed { AreProgrammed memory.now.image follower.old.waiting.items }
    requires places { HasRoom memory.now.shape (vec_capacity follower.old.waiting) follower.old.waiting.items }
    requires fresh { IfSome slot (λ at. slots_in follower.old.waiting.items at.0 ≡ false) }
    ensures store { follower.new.store ≡ follower.old.store }
    ensures room { follower.new.room ≡ follower.old.room }
    ensures places { HasRoom memory.now.shape (vec_capacity follower.new.waiting) follower.new.waiting.items }
    ensures programmed { AreProgrammed memory.now.image follower.new.waiting.items }
    ensures waits { (k : ℕ) → slots_in follower.new.waiting.items k ≡ true →
        slots_in (follower.old.waiting.items ++ slots_loaded (slot ∷ [])) k ≡ true }
    ensures follows { (rest : List (Option Slot)) → IfSome (S.told follower.old.store)
        (Follows memory.now.shape memory.now.image []
        (follower.old.waiting.items ++ slots_loaded (slot ∷ rest))) →
        IfSome (S.told follower.new.store)
        (Follows memory.now.shape memory.now.image [] (follower.new.waiting.items ++ slots_loaded rest)) }
{
    if let Some(at) = slot {
        follower.put(memory, at);
    }
}

/// Follows the programs of these slots in memory, one after another. No slot is there twice, and none waits yet.
pub(crate) fn follow_slots<S: Store + Drop>(
    follower: &mut Follower<S>,
    memory: &MemFlash,
    slots: &[Option<Slot>],
)
    requires exist { AreLoaded memory.now.shape slots.now }
    requires apart { AreApart slots.now }
    requires programmed { AreProgrammed memory.now.image follower.old.waiting.items }
    requires places { HasRoom memory.now.shape (vec_capacity follower.old.waiting) follower.old.waiting.items }
    requires fresh { (k : ℕ) → slots_in (slots_loaded slots.now) k ≡ true →
        slots_in follower.old.waiting.items k ≡ false }
    ensures store { follower.new.store ≡ follower.old.store }
    ensures room { follower.new.room ≡ follower.old.room }
    ensures places { HasRoom memory.now.shape (vec_capacity follower.new.waiting) follower.new.waiting.items }
    ensures programmed { AreProgrammed memory.now.image follower.new.waiting.items }
    ensures waits { (k : ℕ) → slots_in follower.new.waiting.items k ≡ true →
        slots_in (follower.old.waiting.items ++ slots_loaded slots.now) k ≡ true }
    ensures follows { IfSome (S.told follower.old.store)
        (Follows memory.now.shape memory.now.image [] (follower.old.waiting.items ++ slots_loaded slots.now)) →
        IfSome (S.told follower.new.store)
        (Follows memory.now.shape memory.now.image [] follower.new.waiting.items) }
{
    for slot in slots {
        follow_slot(follower, memory, *slot);
    }
}

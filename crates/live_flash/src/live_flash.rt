ghost use Rattle.std.specs.Prelude.{◌≡◌, ◌<◌, ◌≤◌, ◌⊎◌, ℕ, length, true, false, if◌then◌else◌, [], ◌∷◌, ◌++◌, Some, Ok, IfOk, IfSome, OnOk};
ghost use Rattle.std.specs.Result.{is_err};
ghost use Rattle.tx_types.specs.Config.{checked, shape_of, slots_of, blocks_of};
ghost use Rattle.flash_model.specs.Flash.{counted};
ghost use Rattle.flash_model.specs.Operations.{CanProgram, CanDo, program, erase, fire};
ghost use Rattle.flash_model.specs.Calls.{Reads, ReadsSpareArea, Programs, Erases, Operates};
ghost use Rattle.flash_model.specs.Arms.{TurnsOn, ArmsCut, ArmsFault, ArmsBadRead};
ghost use Rattle.flash_model.specs.Firing.{no_loads, loads_in, IsFreeAt, with_load};
ghost use Rattle.mem_flash.specs.Breaking.{broken_by, fire_broken_by, answered, operated, fired, is_read_broken, after_read};
ghost use Rattle.file_flash.specs.FileFlashState.{untold, slots_of_loads, IsFrozen, LosesPower};
ghost use Rattle.file_flash.specs.Following.{slots_in};
ghost use Rattle.image_file.specs.Spelling.{Spells};
ghost use Rattle.live_flash.specs.Losing.{LosesOnly, LosesBetween, LeavesLive};
ghost use Rattle.live_flash.specs.Flushes.{Flushes};

use crate::Follower;
use crate::cutting::{cut_erase, cut_fire, cut_program, lose_power};
use crate::loads::{clear_slots, die_of, follow_slots};
use file_flash::Store;
use flash_model::{Arms, Broken, Cached, Flash, NotDurable, Outcome, Power, Seen, Wide};
use image_file::write_image;
use mem_flash::MemFlash;
use std::alloc::Global;
use std::marker::Model;
use tx_types::{Block, Config, Memory, Shape, Slot};

/// A flash that is an image file in its live format: it shows what it has in memory, and the file follows it at each
/// flush and erase. The first call of the file that fails is the last: from then on each call is broken and changes no
/// slot, in memory or in the file. In an erase that fails so power is lost at once, and after a flush that does at the
/// next program, erase or fire.
#[derive(Drop)]
pub struct LiveFlash<S: Store + Drop> {
    pub(crate) config: Config,
    pub(crate) memory: MemFlash,
    pub(crate) follower: Follower<S>,
    /// The slot of the program that is loaded in the register of each die.
    pub(crate) loaded: Vec<Option<Slot>>,
    /// Whether a call of the file has failed.
    pub(crate) failed: bool,
}

impl<S: Store + Drop> Model for LiveFlash<S> {
    ghost use Rattle.file_flash.specs.FileFlashState.{FileFlashState};

    ghost Value = { FileFlashState };

    ghost use Rattle.live_flash.specs.LiveFlash.{live_flash_of, LiveFlashInvariant};

    ghost view = { live_flash_of S.told S.faults };

    ghost invariant = { LiveFlashInvariant S.told S.faults };
}

impl<S: Store + Drop> LiveFlash<S> {
    /// The configuration of the device whose flash it is.
    pub fn config(&self) -> Config
        ensures config { result ≡ self.now.config }
        ensures checks { checked result ≡ Ok (shape_of result) }
        ensures shape { self.now.memory.shape ≡ shape_of result }
    {
        self.config
    }

    /// Whether a call of the file has failed. Whatever a loss leaves of the file is a live file, which is opened again;
    /// until a call has failed, each slot of it is as it is in memory, or blank where it waits.
    pub fn has_failed(&self) -> bool
        ensures failed { result ≡ self.now.failed }
        ensures cause { self.now.failed ≡ true → 0 < self.now.faults }
        ensures opens { IfSome self.now.file
            (LeavesLive self.now.config self.now.memory.shape self.now.memory.extras) }
        ensures loses { self.now.failed ≡ false → IfSome self.now.file
            (LosesOnly self.now.memory.shape self.now.memory.image self.now.waiting) }
    {
        let _ = self.memory.shape();
        self.failed
    }

    /// The image file of the device: the one spelling of its configuration and of what its flash holds.
    pub fn image_file(&self, alloc: Global) -> Result<Vec<u8>, Memory>
        ensures { IfOk result (λ bytes.
            Spells bytes.items self.now.config self.now.memory.image self.now.memory.extras) }
    {
        write_image(alloc, &self.config, &self.memory)
    }

    /// The store of the file.
    pub fn into_store(self) -> S
        ensures told { S.told result ≡ self.file }
        ensures faults { S.faults result ≡ self.faults }
    {
        let follower = self.follower;
        follower.store
    }
}

impl<S: Store + Drop> Flash for LiveFlash<S> {
    ghost state = { λ f. untold f.memory };

    fn shape(&self) -> Shape {
        self.memory.shape()
    }

    fn live(&self) -> bool {
        self.memory.live()
    }

    fn programs(&self) -> u64 {
        self.memory.programs()
    }

    fn erases(&self) -> u64 {
        self.memory.erases()
    }

    /// A read of a flash whose file has failed is broken.
    fn read(&mut self, at: Slot, into: &mut [u8], spare_area: &mut [u8; 64]) -> Result<Seen, Broken>
        requires exists { at.0 < slots_of self.old.memory.shape }
        requires page { length into.old ≡ self.old.memory.shape.page_bytes }
        ensures reads { Reads (untold self.old.memory) (untold self.new.memory)
            at.0 into.new spare_area.new result }
        ensures next { self.old.failed ≡ false → self.new ≡ record self.old { memory = after_read self.old.memory } }
        ensures answer { self.old.failed ≡ false → is_err result ≡ is_read_broken self.old.memory }
        ensures failed { self.old.failed ≡ true → (is_err result ≡ true) × IsFrozen self.old self.new }
        ensures config { self.new.config ≡ self.old.config }
    {
        if self.failed {
            self.memory.arm_bad_read(1);
            return self.memory.read(at, into, spare_area);
        }
        self.memory.read(at, into, spare_area)
    }

    fn read_spare_area(
        &mut self,
        at: Slot,
        room: &mut [u8],
        spare_area: &mut [u8; 64],
    ) -> Result<Seen, Broken>
        requires exists { at.0 < slots_of self.old.memory.shape }
        requires page { length room.old ≡ self.old.memory.shape.page_bytes }
        ensures reads { ReadsSpareArea (untold self.old.memory) (untold self.new.memory)
            at.0 spare_area.new result }
        ensures next { self.old.failed ≡ false → self.new ≡ record self.old { memory = after_read self.old.memory } }
        ensures answer { self.old.failed ≡ false → is_err result ≡ is_read_broken self.old.memory }
        ensures failed { self.old.failed ≡ true → (is_err result ≡ true) × IsFrozen self.old self.new }
        ensures config { self.new.config ≡ self.old.config }
    {
        if self.failed {
            self.memory.arm_bad_read(1);
            return self.memory.read_spare_area(at, room, spare_area);
        }
        self.memory.read_spare_area(at, room, spare_area)
    }

    /// No call of the file is made: the slot waits for a flush, unless it is blank still. A loss leaves each slot as it
    /// is then, or blank where it waits.
    fn program(&mut self, at: Slot, bytes: &[u8], spare_area: &[u8; 64]) -> Result<(), Broken>
        requires blank { CanProgram self.old.memory.shape self.old.memory.image at.0 }
        requires page { length bytes.now ≡ self.old.memory.shape.page_bytes }
        ensures programs { Programs (untold self.old.memory) (untold self.new.memory)
            at.0 bytes.now spare_area.now result }

        // A flash in memory does the same, until a call of the file fails.
        ensures next { self.new.failed ≡ false →
            self.new.memory ≡ operated self.old.memory (program at.0 bytes.now spare_area.now) }
        ensures answer { self.new.failed ≡ false → result ≡ answered (broken_by self.old.memory) }
        ensures loses { self.old.failed ≡ false → IfSome self.new.file
            (LosesOnly self.new.memory.shape self.new.memory.image (at ∷ self.old.waiting)) }
        ensures waits { (k : ℕ) → slots_in self.new.waiting k ≡ true → slots_in (at ∷ self.old.waiting) k ≡ true }
        ensures config { self.new.config ≡ self.old.config }
        ensures power { LosesPower self.new result }
        ensures counts { self.old.failed ≡ false →
            self.new.faults ≡ (if self.new.failed then counted self.old.faults else self.old.faults) }
        ensures frozen { self.old.failed ≡ true → IsFrozen self.old self.new }
    {
        if self.failed {
            return cut_program(&mut self.memory, at, bytes, spare_area);
        }
        let done = self.memory.program(at, bytes, spare_area);
        let _ = self.memory.shape();
        self.follower.put(&self.memory, at);
        done
    }

    /// What waits is made durable first. Then the slots of the block are erased, by one call where all of them are, and
    /// that is made durable, so it is before any later program. A loss leaves each slot as it was, or blank where it
    /// waited; or, once none waits, each slot as it was or as it is then.
    fn erase(&mut self, block: Block) -> Result<(), Broken>
        requires { block.0 < blocks_of self.old.memory.shape }
        ensures erases { Erases (untold self.old.memory) (untold self.new.memory) block.0 result }
        ensures next { self.new.failed ≡ false → self.new.memory ≡ operated self.old.memory (erase block.0) }
        ensures answer { self.new.failed ≡ false → result ≡ answered (broken_by self.old.memory) }
        ensures none { self.new.failed ≡ false → self.new.waiting ≡ [] }
        ensures loses { self.old.failed ≡ false → IfSome self.new.file (λ file.
            LosesOnly self.old.memory.shape self.old.memory.image self.old.waiting file
            ⊎ LosesBetween self.old.memory.shape self.old.memory.image self.new.memory.image file) }
        ensures config { self.new.config ≡ self.old.config }
        ensures power { LosesPower self.new result }
        ensures counts { self.old.failed ≡ false →
            self.new.faults ≡ (if self.new.failed then counted self.old.faults else self.old.faults) }
        ensures frozen { self.old.failed ≡ true → IsFrozen self.old self.new }
    {
        let shape = self.memory.shape();
        if self.failed {
            return cut_erase(&mut self.memory, block);
        }
        if self.follower.flush(&self.memory).is_err() {
            self.failed = true;
            return cut_erase(&mut self.memory, block);
        }
        let programs = self.memory.programs();
        let erases = self.memory.erases();
        let done = self.memory.erase(block);
        let first = block.0 * shape.pages_per_block;
        let rewritten = self
            .follower
            .rewrite(&self.memory, first, shape.pages_per_block);
        if rewritten.is_err() {
            self.failed = true;
            return lose_power(&mut self.memory, programs, erases);
        }
        done
    }
}

impl<S: Store + Drop> Power for LiveFlash<S> {
    fn power_on(&mut self)
        ensures exact { self.new ≡ record self.old { memory = record self.old.memory { live = true } } }
        ensures power { TurnsOn (untold self.old.memory) (untold self.new.memory) }
    {
        self.memory.power_on();
    }
}

/// What is armed breaks the flash in memory, and the file follows.
impl<S: Store + Drop> Arms for LiveFlash<S> {
    fn arm_cut(&mut self, count: u32, outcome: Outcome)
        requires { 1 ≤ count }
        ensures exact { self.new ≡ record self.old {
          memory = record self.old.memory {
            armed = record self.old.memory.armed { cut = Some (record { count = count; outcome = outcome }) };
          };
        } }
        ensures arms { ArmsCut (untold self.old.memory) (untold self.new.memory) count outcome }
    {
        self.memory.arm_cut(count, outcome);
    }

    fn arm_fault(&mut self, count: u32, outcome: Outcome)
        requires { 1 ≤ count }
        ensures exact { self.new ≡ record self.old {
          memory = record self.old.memory {
            armed = record self.old.memory.armed { fault = Some (record { count = count; outcome = outcome }) };
          };
        } }
        ensures arms { ArmsFault (untold self.old.memory) (untold self.new.memory) count outcome }
    {
        self.memory.arm_fault(count, outcome);
    }

    fn arm_bad_read(&mut self, count: u32)
        requires { 1 ≤ count }
        ensures exact { self.new ≡ record self.old {
          memory = record self.old.memory { armed = record self.old.memory.armed { bad_read = Some count } };
        } }
        ensures arms { ArmsBadRead (untold self.old.memory) (untold self.new.memory) count }
    {
        self.memory.arm_bad_read(count);
    }
}

impl<S: Store + Drop> Cached for LiveFlash<S> {
    ghost flushes = { Flushes };

    /// The slots that wait are written, those that follow each other by one write, and then made durable by one sync. A
    /// loss leaves each slot as it is, or blank where it waited; and once this is done, each slot as it is.
    fn flush(&mut self) -> Result<(), NotDurable> {
        let _ = self.memory.shape();
        if self.failed {
            return Err(NotDurable);
        }
        let flushed = self.follower.flush(&self.memory);
        if flushed.is_err() {
            self.failed = true;
            return Err(NotDurable);
        }
        Ok(())
    }
}

impl<S: Store + Drop> Wide for LiveFlash<S> {
    ghost registers = { λ f. f.memory.registers };

    fn clear(&mut self)
        ensures exact { self.new ≡ record self.old {
          memory = record self.old.memory { registers = no_loads self.old.memory.shape };
        } }
    {
        clear_slots(&mut self.loaded);
        self.memory.clear();
    }

    fn load(&mut self, at: Slot, bytes: &[u8], spare_area: &[u8; 64])
        requires exists { at.0 < slots_of self.old.memory.shape }
        requires page { length bytes.now ≡ self.old.memory.shape.page_bytes }
        requires free { IsFreeAt self.old.memory.shape self.old.memory.registers at.0 }
        ensures exact { self.new ≡ record self.old {
          memory = record self.old.memory {
            registers = with_load self.old.memory.shape self.old.memory.registers
                (record { at = at.0; bytes = bytes.now; spare_area = spare_area.now });
          };
        } }
        ensures whole { length self.new.memory.registers ≡ self.new.memory.shape.dies }
    {
        let die = die_of(self.memory.shape(), at);
        self.loaded[die] = Some(at);
        self.memory.load(at, bytes, spare_area);
    }

    /// No call of the file is made: each of the slots waits for a flush, unless it is blank still. A loss leaves each
    /// slot as it is then, or blank where it waits.
    fn fire(&mut self) -> Result<(), Broken>
        requires { CanDo self.old.memory.shape self.old.memory.image
            (fire (loads_in self.old.memory.registers)) }
        ensures fires { Operates (untold self.old.memory) (untold self.new.memory)
            (fire (loads_in self.old.memory.registers)) result }
        ensures empty { self.new.memory.registers ≡ no_loads self.old.memory.shape }
        ensures next { self.new.failed ≡ false → self.new.memory ≡ fired self.old.memory }
        ensures answer { self.new.failed ≡ false → result ≡ answered (fire_broken_by self.old.memory) }
        ensures loses { self.old.failed ≡ false → IfSome self.new.file
            (LosesOnly self.new.memory.shape self.new.memory.image
            (self.old.waiting ++ slots_of_loads (loads_in self.old.memory.registers))) }
        ensures waits { (k : ℕ) → slots_in self.new.waiting k ≡ true →
            slots_in (self.old.waiting ++ slots_of_loads (loads_in self.old.memory.registers)) k ≡ true }
        ensures config { self.new.config ≡ self.old.config }
        ensures power { LosesPower self.new result }
        ensures counts { self.old.failed ≡ false →
            self.new.faults ≡ (if self.new.failed then counted self.old.faults else self.old.faults) }
        ensures frozen { self.old.failed ≡ true → IsFrozen self.old self.new }
    {
        if self.failed {
            clear_slots(&mut self.loaded);
            return cut_fire(&mut self.memory);
        }
        let done = self.memory.fire();
        let _ = self.memory.shape();
        follow_slots(&mut self.follower, &self.memory, &self.loaded);
        clear_slots(&mut self.loaded);
        done
    }
}

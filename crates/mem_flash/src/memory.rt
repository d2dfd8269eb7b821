ghost use Rattle.std.specs.Prelude.{◌≡◌, ◌<◌, ◌≤◌, ◌+◌, ◌*◌, length, drop, Some, true, false, is_some, IfOk, OnErr};
ghost use Rattle.std.specs.List.{flat_map};
ghost use Rattle.std.specs.Result.{is_err};
ghost use Rattle.tx_types.specs.Config.{IsShape, slots_of, blocks_of};
ghost use Rattle.tx_types.specs.Limits.{spare_bytes};
ghost use Rattle.flash_model.specs.Flash.{slot_at, IsFlash, counted};
ghost use Rattle.flash_model.specs.Operations.{CanProgram, program, erase};
ghost use Rattle.flash_model.specs.Calls.{Carries, Reads, ReadsSpareArea, Programs, Erases, seen_of};
ghost use Rattle.flash_model.specs.Arms.{TurnsOn, ArmsCut, ArmsFault, ArmsBadRead};
ghost use Rattle.flash_model.specs.Retiring.{Retires, max_allowance};
ghost use Rattle.mem_flash.specs.Slots.{cell_bytes, cell_of, image_of, AreFilled};
ghost use Rattle.mem_flash.specs.MemFlashState.{state_of, fresh, blank_flash};
ghost use Rattle.mem_flash.specs.Breaking.{broken_by, answered, met, operated, retired, after_retiring, is_read_broken, after_read};

use crate::armed::{Armed, count_down, count_read};
use crate::cells::cell_bytes;
use crate::registers::{Register, empty_registers};
use crate::slots::Slots;
use flash_model::{Arm, Arms, Broken, Flash, Outcome, Power, Retire, Seen};
use std::alloc::Global;
use std::marker::Model;
use tx_types::{Block, Memory, Shape, Slot};

/// A flash in memory. Its calls are broken exactly where an arm comes due or power is off. At most 1024 blocks may be
/// retired, so an image file can be written of each one.
#[derive(Drop)]
pub struct MemFlash {
    pub(crate) slots: Slots,
    pub(crate) live: bool,
    armed: Armed,
    pub(crate) programs: u64,
    erases: u64,
    /// Reads that were asked for while power was on.
    reads: u64,
    /// Programs, erases, retirements and fires of something that were asked for while power was on.
    started: u64,
    /// Calls that were broken.
    faults: u64,
    /// A register for each die, taken beforehand: no call of a flash takes memory.
    pub(crate) registers: Vec<Register>,
    /// Blocks that may be retired.
    allowance: u32,
    /// Blocks that are.
    retired: u32,
}

impl Model for MemFlash {
    ghost use Rattle.mem_flash.specs.MemFlashState.{MemFlashState};

    ghost Value = { MemFlashState };

    ghost use Rattle.mem_flash.specs.MemFlash.{memory_of, MemFlashInvariant};

    ghost view = { memory_of };

    ghost invariant = { MemFlashInvariant };
}

impl MemFlash {
    /// A flash of this shape. All its slots are blank, power is on, nothing is armed, and no block may be
    /// retired.
    pub fn new(alloc: Global, shape: Shape) -> Result<MemFlash, Memory>
        requires { IsShape shape }
        ensures { IfOk result (λ f. f ≡ blank_flash shape) }
    {
        let slots = shape.slots() as usize;
        let seen = vec![in alloc; Seen::Blank; slots]?;
        let cells = vec![in alloc; 0xff; slots * cell_bytes(shape)]?;
        MemFlash::from_slots(alloc, shape, seen, cells)
    }

    /// A flash of this shape whose slots read this way. `cells` has for each slot its contents and then its
    /// spare area: all 0xff where it is blank, and all 0x00 where it is damaged. Power is on, nothing is
    /// armed or loaded, and no block may be retired.
    pub fn from_slots(
        alloc: Global,
        shape: Shape,
        seen: Vec<Seen>,
        cells: Vec<u8>,
    ) -> Result<MemFlash, Memory>
        requires shape { IsShape shape }
        requires slots { length seen.items ≡ slots_of shape }
        requires bytes { length cells.items ≡ slots_of shape * cell_bytes shape.page_bytes }
        requires filled { AreFilled shape.page_bytes seen.items cells.items }
        ensures { IfOk result (λ f.
            f ≡ fresh shape (image_of shape.page_bytes seen.items cells.items)) }
    {
        MemFlash::from_bytes(alloc, shape, seen, cells, 0)
    }

    /// The same with the cells behind a head of this many bytes, which may be any.
    pub fn from_bytes(
        alloc: Global,
        shape: Shape,
        seen: Vec<Seen>,
        bytes: Vec<u8>,
        head: usize,
    ) -> Result<MemFlash, Memory>
        requires shape { IsShape shape }
        requires slots { length seen.items ≡ slots_of shape }
        requires bytes { length bytes.items ≡ head + slots_of shape * cell_bytes shape.page_bytes }
        requires filled { AreFilled shape.page_bytes seen.items (drop head bytes.items) }
        ensures { IfOk result (λ f.
            f ≡ fresh shape (image_of shape.page_bytes seen.items (drop head bytes.items))) }
    {
        Ok(MemFlash {
            slots: Slots::new(shape, seen, bytes, head),
            live: true,
            armed: Armed {
                cut: None,
                fault: None,
                bad_read: None,
            },
            programs: 0,
            erases: 0,
            reads: 0,
            started: 0,
            faults: 0,
            registers: empty_registers(alloc, shape)?,
            allowance: 0,
            retired: 0,
        })
    }

    /// Says how many blocks may be retired, and how many are.
    pub fn set_extras(&mut self, allowance: u32, retired: u32)
        requires within { retired ≤ allowance }
        requires few { allowance ≤ max_allowance }
        ensures { self.new ≡ record self.old {
          extras = record { allowance = allowance; retired = retired };
        } }
    {
        self.allowance = allowance;
        self.retired = retired;
    }

    /// How a slot reads.
    pub fn seen(&self, at: Slot) -> Seen
        requires { at.0 < slots_of self.now.shape }
        ensures { result ≡ seen_of (slot_at self.now.image at.0) }
    {
        self.slots.seen(at)
    }

    /// The contents of a slot and then its spare area: all 0xff where the slot is blank, and all 0x00
    /// where it is damaged.
    pub fn cell(&self, at: Slot) -> &[u8]
        requires { at.0 < slots_of self.now.shape }
        ensures bytes { result.now
            ≡ cell_of self.now.shape.page_bytes (slot_at self.now.image at.0) }
        ensures whole { length result.now ≡ self.now.shape.page_bytes + spare_bytes }
    {
        self.slots.cell(at)
    }

    /// The contents and the spare areas of all slots, behind a head of this many bytes, which may be any. No
    /// byte is copied where the flash was made of bytes with such a head.
    pub fn into_bytes(self, alloc: Global, head: usize) -> Result<Vec<u8>, Memory>
        ensures cells { IfOk result (λ bytes.
            drop head bytes.items ≡ flat_map (cell_of self.shape.page_bytes) self.image) }
        ensures whole { IfOk result (λ bytes. head ≤ length bytes.items) }
    {
        self.slots.into_bytes(alloc, head)
    }

    /// The number of reads that were asked for while power was on. It stands still at its type's end.
    pub fn reads(&self) -> u64
        ensures { result ≡ self.now.reads }
    {
        self.reads
    }

    /// The number of programs, erases, retirements and fires of something that were asked for while power was on. It
    /// stands still at its type's end.
    pub fn started(&self) -> u64
        ensures { result ≡ self.now.started }
    {
        self.started
    }

    /// The number of calls that were broken. It stands still at its type's end.
    pub fn faults(&self) -> u64
        ensures { result ≡ self.now.faults }
    {
        self.faults
    }

    /// Turns power off in the call that was just made, which counts as a fault. What it did stays in its slots, but
    /// neither a program nor an erase of it is counted: the counts are those from before it.
    pub fn lose_power(&mut self, programs: u64, erases: u64)
        ensures { self.new ≡ record self.old {
          live = false;
          faults = counted self.old.faults;
          programs = programs;
          erases = erases;
        } }
    {
        self.live = false;
        self.faults = self.faults.saturating_add(1);
        self.programs = programs;
        self.erases = erases;
    }

    /// The arms count a program, an erase, a retirement or a fire. Gives the outcome with which it is broken, if it is.
    pub(crate) fn meet_arms(&mut self) -> Option<Outcome>
        ensures broken { result ≡ broken_by self.old }
        ensures met { self.new ≡ met self.old }
        ensures later { self.old.faults ≤ self.new.faults }
        ensures carries { Carries (state_of self.old) (state_of self.new) (is_some result) }
    {
        if !self.live {
            self.faults = self.faults.saturating_add(1);
            return Some(Outcome::None);
        }
        self.started = self.started.saturating_add(1);
        let cut = count_down(&mut self.armed.cut);
        let fault = count_down(&mut self.armed.fault);
        self.live = cut.is_none();
        let broken = cut.or(fault);
        if broken.is_some() {
            self.faults = self.faults.saturating_add(1);
        }
        broken
    }

    /// Puts a fresh block in the place of this one, but where all is to stay.
    fn replace(&mut self, block: Block, how: Outcome)
        requires exists { block.0 < blocks_of self.old.shape }
        requires left { self.old.extras.retired < self.old.extras.allowance }
        ensures { self.new ≡ retired self.old block.0 how }
    {
        if how == Outcome::None {
            return;
        }
        self.slots.erase(block, Outcome::All);
        self.retired += 1;
    }

    /// Counts a read. Tells whether it is broken.
    fn meet_bad_read(&mut self) -> bool
        ensures broken { result ≡ is_read_broken self.old }
        ensures met { self.new ≡ after_read self.old }
        ensures later { self.old.faults ≤ self.new.faults }
    {
        let broken = !self.live || count_read(&mut self.armed.bad_read);
        if self.live {
            self.reads = self.reads.saturating_add(1);
        }
        if broken {
            self.faults = self.faults.saturating_add(1);
        }
        broken
    }
}

impl Flash for MemFlash {
    ghost state = { state_of };

    fn shape(&self) -> Shape {
        self.slots.shape()
    }

    fn live(&self) -> bool {
        self.live
    }

    fn programs(&self) -> u64 {
        self.programs
    }

    fn erases(&self) -> u64 {
        self.erases
    }

    /// A broken read leaves both buffers as they were.
    fn read(&mut self, at: Slot, into: &mut [u8], spare_area: &mut [u8; 64]) -> Result<Seen, Broken>
        requires exists { at.0 < slots_of self.old.shape }
        requires page { length into.old ≡ self.old.shape.page_bytes }
        ensures next { self.new ≡ after_read self.old }
        ensures answer { is_err result ≡ is_read_broken self.old }
        ensures kept { OnErr result ((into.new ≡ into.old) × (spare_area.new ≡ spare_area.old)) }
        ensures reads { Reads (state_of self.old) (state_of self.new)
            at.0 into.new spare_area.new result }
    {
        if self.meet_bad_read() {
            return Err(Broken);
        }
        Ok(self.slots.read(at, into, spare_area))
    }

    fn read_spare_area(
        &mut self,
        at: Slot,
        room: &mut [u8],
        spare_area: &mut [u8; 64],
    ) -> Result<Seen, Broken>
        requires exists { at.0 < slots_of self.old.shape }
        requires page { length room.old ≡ self.old.shape.page_bytes }
        ensures next { self.new ≡ after_read self.old }
        ensures answer { is_err result ≡ is_read_broken self.old }
        ensures kept { OnErr result (spare_area.new ≡ spare_area.old) }
        ensures reads { ReadsSpareArea (state_of self.old) (state_of self.new) at.0 spare_area.new result }
    {
        let _ = room;
        if self.meet_bad_read() {
            return Err(Broken);
        }
        Ok(self.slots.read_spare_area(at, spare_area))
    }

    fn program(&mut self, at: Slot, bytes: &[u8], spare_area: &[u8; 64]) -> Result<(), Broken>
        requires blank { CanProgram self.old.shape self.old.image at.0 }
        requires page { length bytes.now ≡ self.old.shape.page_bytes }
        ensures next { self.new ≡ operated self.old (program at.0 bytes.now spare_area.now) }
        ensures answer { result ≡ answered (broken_by self.old) }
        ensures programs { Programs (state_of self.old) (state_of self.new)
            at.0 bytes.now spare_area.now result }
    {
        let broken = self.meet_arms();
        let how = broken.unwrap_or(Outcome::All);
        self.slots.program(at, bytes, spare_area, how);
        if broken.is_some() {
            return Err(Broken);
        }
        self.programs = self.programs.saturating_add(1);
        Ok(())
    }

    fn erase(&mut self, block: Block) -> Result<(), Broken>
        requires { block.0 < blocks_of self.old.shape }
        ensures next { self.new ≡ operated self.old (erase block.0) }
        ensures answer { result ≡ answered (broken_by self.old) }
        ensures erases { Erases (state_of self.old) (state_of self.new) block.0 result }
    {
        let broken = self.meet_arms();
        let how = broken.unwrap_or(Outcome::All);
        self.slots.erase(block, how);
        if broken.is_some() {
            return Err(Broken);
        }
        self.erases = self.erases.saturating_add(1);
        Ok(())
    }
}

impl Power for MemFlash {
    fn power_on(&mut self)
        ensures exact { self.new ≡ record self.old { live = true } }
        ensures power { TurnsOn (state_of self.old) (state_of self.new) }
    {
        self.live = true;
    }
}

impl Arms for MemFlash {
    fn arm_cut(&mut self, count: u32, outcome: Outcome)
        requires { 1 ≤ count }
        ensures exact { self.new ≡ record self.old {
          armed = record self.old.armed {
            cut = Some (record { count = count; outcome = outcome });
          };
        } }
        ensures arms { ArmsCut (state_of self.old) (state_of self.new) count outcome }
    {
        self.armed.cut = Some(Arm { count, outcome });
    }

    fn arm_fault(&mut self, count: u32, outcome: Outcome)
        requires { 1 ≤ count }
        ensures exact { self.new ≡ record self.old {
          armed = record self.old.armed {
            fault = Some (record { count = count; outcome = outcome });
          };
        } }
        ensures arms { ArmsFault (state_of self.old) (state_of self.new) count outcome }
    {
        self.armed.fault = Some(Arm { count, outcome });
    }

    fn arm_bad_read(&mut self, count: u32)
        requires { 1 ≤ count }
        ensures exact { self.new ≡ record self.old {
          armed = record self.old.armed { bad_read = Some count };
        } }
        ensures arms { ArmsBadRead (state_of self.old) (state_of self.new) count }
    {
        self.armed.bad_read = Some(count);
    }
}

impl Retire for MemFlash {
    fn allowance(&self) -> u32
        ensures exact { result ≡ self.now.extras.allowance }
        ensures few { self.now.extras.allowance ≤ max_allowance }
    {
        self.allowance
    }

    fn retired(&self) -> u32
        ensures exact { result ≡ self.now.extras.retired }
        ensures within { self.now.extras.retired ≤ self.now.extras.allowance }
    {
        self.retired
    }

    fn retire(&mut self, block: Block) -> Result<(), Broken>
        requires exists { block.0 < blocks_of self.old.shape }
        requires left { self.old.extras.retired < self.old.extras.allowance }
        ensures next { self.new ≡ after_retiring self.old block.0 }
        ensures answer { result ≡ answered (broken_by self.old) }
        ensures retires { Retires (state_of self.old) (state_of self.new) block.0 result }
    {
        let broken = self.meet_arms();
        self.replace(block, broken.unwrap_or(Outcome::All));
        if broken.is_some() {
            return Err(Broken);
        }
        Ok(())
    }
}

ghost use Rattle.std.specs.Prelude.{◌≡◌, ◌<◌, ◌≤◌, true, false, [], ◌∷◌, length, IfOk, Err};
ghost use Rattle.std.specs.Result.{is_err};
ghost use Rattle.tx_types.specs.Config.{IsShape, slots_of, blocks_of};
ghost use Rattle.flash_model.specs.Flash.{counted};
ghost use Rattle.flash_model.specs.Operations.{CanProgram, program, erase};
ghost use Rattle.flash_model.specs.Calls.{Reads, Programs, Erases};
ghost use Rattle.list_flash.specs.ListFlashState.{state_of, moment_after, unused, worked};

use crate::entries::{Entry, append, append_program, show_at};
use crate::registers::{Register, empty_registers};
use flash_model::{Arms, Broken, Flash, Outcome, Power, Seen};
use std::alloc::Global;
use std::marker::Model;
use tx_types::{Block, Memory, Shape, Slot};

/// A flash that keeps the list of its operations, and reads a slot by the last one that set it. It bears so many
/// operations and no more: then each is broken, as it is where there is no memory, and leaves all slots. Power is
/// always on.
#[derive(Drop)]
pub struct ListFlash {
    pub(crate) shape: Shape,
    /// The operations that were done, the oldest first.
    pub(crate) list: Vec<Entry>,
    /// How many it bears.
    pub(crate) limit: usize,
    pub(crate) programs: u64,
    erases: u64,
    reads: u64,
    /// Programs, erases and fires of something.
    pub(crate) started: u64,
    /// Calls that were broken.
    faults: u64,
    /// A register for each die, taken beforehand.
    pub(crate) registers: Vec<Register>,
}

impl Model for ListFlash {
    ghost use Rattle.list_flash.specs.ListFlashState.{ListFlashState};

    ghost Value = { ListFlashState };

    ghost use Rattle.list_flash.specs.ListFlash.{list_flash_of, ListFlashInvariant};

    ghost view = { list_flash_of };

    ghost invariant = { ListFlashInvariant };
}

impl ListFlash {
    /// A flash of this shape that bears so many operations. All its slots are blank.
    pub fn new(alloc: Global, shape: Shape, limit: usize) -> Result<ListFlash, Memory>
        requires { IsShape shape }
        ensures { IfOk result (λ f. f ≡ unused shape limit) }
    {
        Ok(ListFlash {
            shape,
            list: Vec::new(alloc),
            limit,
            programs: 0,
            erases: 0,
            reads: 0,
            started: 0,
            faults: 0,
            registers: empty_registers(alloc, shape)?,
        })
    }

    /// Counts a call that was started and is broken.
    pub(crate) fn count_fault(&mut self) -> Broken
        ensures next { self.new ≡ worked self.old [] (Err result) }
        ensures later { self.old.faults ≤ self.new.faults }
    {
        self.started = self.started.saturating_add(1);
        self.faults = self.faults.saturating_add(1);
        Broken
    }
}

impl Flash for ListFlash {
    ghost state = { state_of };

    fn shape(&self) -> Shape {
        self.shape
    }

    fn live(&self) -> bool {
        true
    }

    fn programs(&self) -> u64 {
        self.programs
    }

    fn erases(&self) -> u64 {
        self.erases
    }

    /// No read is broken.
    fn read(&mut self, at: Slot, into: &mut [u8], spare_area: &mut [u8; 64]) -> Result<Seen, Broken>
        requires exists { at.0 < slots_of self.old.shape }
        requires page { length into.old ≡ self.old.shape.page_bytes }
        ensures next { self.new ≡ record self.old { reads = counted self.old.reads } }
        ensures answer { is_err result ≡ false }
        ensures reads { Reads (state_of self.old) (state_of self.new)
            at.0 into.new spare_area.new result }
    {
        self.reads = self.reads.saturating_add(1);
        Ok(show_at(&self.list, self.shape, at, into, spare_area))
    }

    fn program(&mut self, at: Slot, bytes: &[u8], spare_area: &[u8; 64]) -> Result<(), Broken>
        requires blank { CanProgram self.old.shape (state_of self.old).image at.0 }
        requires page { length bytes.now ≡ self.old.shape.page_bytes }
        ensures next { self.new
            ≡ worked self.old (program at.0 bytes.now spare_area.now ∷ []) result }
        ensures worn { self.old.limit ≤ length self.old.operations → is_err result ≡ true }
        ensures programs { Programs (state_of self.old) (state_of self.new)
            at.0 bytes.now spare_area.now result }
    {
        if !append_program(&mut self.list, self.limit, at, bytes, spare_area) {
            return Err(self.count_fault());
        }
        self.started = self.started.saturating_add(1);
        self.programs = self.programs.saturating_add(1);
        Ok(())
    }

    fn erase(&mut self, block: Block) -> Result<(), Broken>
        requires { block.0 < blocks_of self.old.shape }
        ensures next { self.new ≡ worked self.old (erase block.0 ∷ []) result }
        ensures worn { self.old.limit ≤ length self.old.operations → is_err result ≡ true }
        ensures erases { Erases (state_of self.old) (state_of self.new) block.0 result }
    {
        if !append(&mut self.list, self.limit, Entry::Erase(block)) {
            return Err(self.count_fault());
        }
        self.started = self.started.saturating_add(1);
        self.erases = self.erases.saturating_add(1);
        Ok(())
    }
}

impl Power for ListFlash {
    fn power_on(&mut self) {}
}

/// It tells nothing of what is to come, so nothing can be armed.
impl Arms for ListFlash {
    fn arm_cut(&mut self, count: u32, outcome: Outcome) {
        let _ = (count, outcome);
    }

    fn arm_fault(&mut self, count: u32, outcome: Outcome) {
        let _ = (count, outcome);
    }

    fn arm_bad_read(&mut self, count: u32) {
        let _ = count;
    }
}

ghost use Rattle.std.specs.Prelude.{◌≡◌, ◌<◌, length};
ghost use Rattle.tx_types.specs.Config.{slots_of, blocks_of};
ghost use Rattle.flash_model.specs.Flash.{FlashState, IsFlash};
ghost use Rattle.flash_model.specs.Operations.{CanProgram};
ghost use Rattle.flash_model.specs.Calls.{Reads, ReadsSpareArea, Programs, Erases};
ghost use Rattle.flash_model.specs.Readings.{reads_blank};

use tx_types::{Block, Shape, Slot};

/// The bytes of a slot's spare area.
pub const SPARE_BYTES: usize = 64;

/// How a slot reads.
#[derive(Clone, Copy, PartialEq, Eq)]
pub enum Seen {
    /// Nothing was programmed since the last erase.
    Blank,
    /// It has contents and a spare area.
    Complete,
    /// It has nothing that can be read.
    Damaged,
}

impl Seen {
    /// Whether a slot that reads so is blank.
    pub fn is_blank(self) -> bool
        ensures { result ≡ reads_blank self }
    {
        matches!(self, Seen::Blank)
    }
}

/// The call was broken: it met a fault, or power went off in it or is off.
#[derive(Clone, Copy, PartialEq, Eq)]
pub struct Broken;

/// A flash. A slot is programmed only while it and all later slots of its block are blank, and a block
/// is erased whole. The count of faults rises where a call is broken, and no other call changes it. Only
/// a broken call may turn power off. On a flash without power each call is broken and leaves all slots.
pub trait Flash {
    /// What the flash is: its shape, its slots, whether it is live, and its counts.
    ghost state: { Self → FlashState };

    /// The shape, which stays. The flash has as many slots as it says.
    fn shape(&self) -> Shape
        ensures shape { result ≡ (state self.now).shape }
        ensures whole { IsFlash (state self.now) };

    /// Whether power is on.
    fn live(&self) -> bool
        ensures { result ≡ (state self.now).live };

    /// The number of programs that were done and not broken. It stands still at its type's end.
    fn programs(&self) -> u64
        ensures { result ≡ (state self.now).programs };

    /// The number of erases that were done and not broken. It stands still at its type's end.
    fn erases(&self) -> u64
        ensures { result ≡ (state self.now).erases };

    /// Reads a slot: its contents and its spare area, all 0xff where it is blank and all 0x00 where it is
    /// damaged. A broken read leaves any bytes in both.
    fn read(&mut self, at: Slot, into: &mut [u8], spare_area: &mut [u8; 64]) -> Result<Seen, Broken>
        requires exists { at.0 < slots_of (state self.old).shape }
        requires page { length into.old ≡ (state self.old).shape.page_bytes }
        ensures { Reads (state self.old) (state self.new) at.0 into.new spare_area.new result };

    /// Reads a slot's spare area, which is a read like any other. There is room for its contents, for a flash that
    /// reads all of a slot. What is in it then is not said. By default the slot is read, so a flash need not define
    /// this.
    fn read_spare_area(
        &mut self,
        at: Slot,
        room: &mut [u8],
        spare_area: &mut [u8; 64],
    ) -> Result<Seen, Broken>
        requires exists { at.0 < slots_of (state self.old).shape }
        requires page { length room.old ≡ (state self.old).shape.page_bytes }
        ensures { ReadsSpareArea (state self.old) (state self.new) at.0 spare_area.new result }
    {
        self.read(at, room, spare_area)
    }

    /// Programs a slot with contents and a spare area. A broken program leaves the slot blank, or complete
    /// as asked for, or damaged, and all else as it was.
    fn program(&mut self, at: Slot, bytes: &[u8], spare_area: &[u8; 64]) -> Result<(), Broken>
        requires blank { CanProgram (state self.old).shape (state self.old).image at.0 }
        requires page { length bytes.now ≡ (state self.old).shape.page_bytes }
        ensures { Programs (state self.old) (state self.new) at.0 bytes.now spare_area.now result };

    /// Erases a block: all its slots are blank. A broken erase leaves the block as it was, or all its slots
    /// damaged, or all blank, and all else as it was.
    fn erase(&mut self, block: Block) -> Result<(), Broken>
        requires { block.0 < blocks_of (state self.old).shape }
        ensures { Erases (state self.old) (state self.new) block.0 result };
}

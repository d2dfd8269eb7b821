ghost use Rattle.std.specs.Prelude.{◌≡◌, ◌<◌, length, is_some};
ghost use Rattle.tx_types.specs.Config.{slots_of};
ghost use Rattle.flash_model.specs.Operations.{CanDo, fire};
ghost use Rattle.flash_model.specs.Calls.{Carries, Operates};
ghost use Rattle.flash_model.specs.Firing.{no_loads, loads_in, IsFreeAt, with_load};
ghost use Rattle.mem_flash.specs.MemFlashState.{state_of};
ghost use Rattle.mem_flash.specs.Breaking.{broken_by, answered, met, started, fire_broken_by, fired};

use crate::MemFlash;
use crate::registers::{clear, count_loaded, die_of, put, write_loaded};
use flash_model::{Broken, Outcome, Wide};
use tx_types::Slot;

impl MemFlash {
    /// Starts the programs that are loaded, of which there are so many, together, and empties the registers.
    fn start_loaded(&mut self, count: u64) -> Result<(), Broken>
        requires can { CanDo self.old.shape self.old.image (fire (loads_in self.old.registers)) }
        requires count { count ≡ length (loads_in self.old.registers) }
        ensures next { self.new ≡ started self.old }
        ensures answer { result ≡ answered (broken_by self.old) }
        ensures arms { Carries (state_of self.old) (state_of (met self.old)) (is_some (broken_by self.old)) }
    {
        let broken = self.meet_arms();
        let how = broken.unwrap_or(Outcome::All);
        write_loaded(&self.registers, &mut self.slots, how);
        clear(&mut self.registers);
        if broken.is_some() {
            return Err(Broken);
        }
        self.programs = self.programs.saturating_add(count);
        Ok(())
    }
}

/// The registers hold their programs until a fire: no other call but `clear` and `load` changes them.
impl Wide for MemFlash {
    ghost registers = { λ f. f.registers };

    fn clear(&mut self)
        ensures exact { self.new ≡ record self.old { registers = no_loads self.old.shape } }
    {
        clear(&mut self.registers);
    }

    fn load(&mut self, at: Slot, bytes: &[u8], spare_area: &[u8; 64])
        requires exists { at.0 < slots_of self.old.shape }
        requires page { length bytes.now ≡ self.old.shape.page_bytes }
        requires free { IsFreeAt self.old.shape self.old.registers at.0 }
        ensures exact { self.new ≡ record self.old {
          registers = with_load self.old.shape self.old.registers
              (record { at = at.0; bytes = bytes.now; spare_area = spare_area.now });
        } }
        ensures whole { length self.new.registers ≡ self.new.shape.dies }
    {
        let die = die_of(self.slots.shape(), at);
        put(&mut self.registers[die], at, bytes, spare_area);
    }

    fn fire(&mut self) -> Result<(), Broken>
        requires { CanDo self.old.shape self.old.image (fire (loads_in self.old.registers)) }
        ensures next { self.new ≡ fired self.old }
        ensures answer { result ≡ answered (fire_broken_by self.old) }
        ensures empty { self.new.registers ≡ no_loads self.old.shape }
        ensures fires { Operates (state_of self.old) (state_of self.new)
            (fire (loads_in self.old.registers)) result }
    {
        let count = count_loaded(&self.registers);
        if self.live && count == 0 {
            return Ok(());
        }
        self.start_loaded(count)
    }
}

ghost use Rattle.std.specs.Prelude.{◌≡◌, ◌<◌, ◌+◌, length, true};
ghost use Rattle.std.specs.Result.{is_err};
ghost use Rattle.tx_types.specs.Config.{slots_of};
ghost use Rattle.flash_model.specs.Operations.{CanDo, fire};
ghost use Rattle.flash_model.specs.Calls.{Operates};
ghost use Rattle.flash_model.specs.Firing.{no_loads, loads_in, IsFreeAt, with_load};
ghost use Rattle.list_flash.specs.ListFlashState.{state_of, fired};

use crate::ListFlash;
use crate::registers::{append_loaded, clear, count_loaded, die_of, put};
use flash_model::{Broken, Wide};
use tx_types::Slot;

/// A fire puts its programs into the list one after another, or none of them.
impl Wide for ListFlash {
    ghost registers = { λ f. f.registers };

    fn clear(&mut self)
        ensures exact { self.new ≡ record self.old { registers = no_loads self.old.shape } }
    {
        clear(&mut self.registers);
    }

    fn load(&mut self, at: Slot, bytes: &[u8], spare_area: &[u8; 64])
        requires exists { at.0 < slots_of self.old.shape }
        requires page { length bytes.now ≡ self.old.shape.page_bytes }
        requires free { IsFreeAt self.old.shape self.old.registers at.0 }
        ensures exact { self.new ≡ record self.old {
          registers = with_load self.old.shape self.old.registers
              (record { at = at.0; bytes = bytes.now; spare_area = spare_area.now });
        } }
        ensures whole { length self.new.registers ≡ self.new.shape.dies }
    {
        let die = die_of(self.shape, at);
        put(&mut self.registers[die], at, bytes, spare_area);
    }

    fn fire(&mut self) -> Result<(), Broken>
        requires { CanDo self.old.shape (state_of self.old).image
            (fire (loads_in self.old.registers)) }
        ensures next { self.new ≡ fired self.old result }
        ensures worn { self.old.limit < length self.old.operations + length (loads_in self.old.registers)
            → is_err result ≡ true }
        ensures fires { Operates (state_of self.old) (state_of self.new)
            (fire (loads_in self.old.registers)) result }
        ensures empty { self.new.registers ≡ no_loads self.old.shape }
    {
        let count = count_loaded(&self.registers);
        if count == 0 {
            return Ok(());
        }
        let is_done = append_loaded(&mut self.list, self.limit, &self.registers);
        clear(&mut self.registers);
        if !is_done {
            return Err(self.count_fault());
        }
        self.started = self.started.saturating_add(1);
        self.programs = self.programs.saturating_add(count);
        Ok(())
    }
}

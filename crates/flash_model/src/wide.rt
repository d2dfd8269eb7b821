ghost use Rattle.std.specs.Prelude.{◌≡◌, ◌<◌, List, length, Option};
ghost use Rattle.tx_types.specs.Config.{slots_of};
ghost use Rattle.flash_model.specs.Operations.{CanDo, Load, fire};
ghost use Rattle.flash_model.specs.Calls.{Operates};
ghost use Rattle.flash_model.specs.Firing.{no_loads, loads_in, IsFreeAt, with_load};

use crate::{Broken, Flash};
use tx_types::Slot;

/// A flash that can start several programs together, one in a die. Each die has a register, which holds a program
/// until it is started. What the registers hold after another call of the flash is not said.
pub trait Wide: Flash {
    /// The program in the register of each die, if there is one.
    ghost registers: { Self → List (Option Load) };

    /// Empties all registers. All else is as before.
    fn clear(&mut self)
        ensures empty { registers self.new ≡ no_loads (Self.state self.old).shape }
        ensures stays { Self.state self.new ≡ Self.state self.old };

    /// Puts a program into the register of its slot's die, which must be empty. The other registers and all else are
    /// as before. There is a register for each die.
    fn load(&mut self, at: Slot, bytes: &[u8], spare_area: &[u8; 64])
        requires exists { at.0 < slots_of (Self.state self.old).shape }
        requires page { length bytes.now ≡ (Self.state self.old).shape.page_bytes }
        requires free { IsFreeAt (Self.state self.old).shape (registers self.old) at.0 }
        ensures loaded { registers self.new ≡ with_load (Self.state self.old).shape (registers self.old)
            (record { at = at.0; bytes = bytes.now; spare_area = spare_area.now }) }
        ensures whole { length (registers self.new) ≡ (Self.state self.new).shape.dies }
        ensures stays { Self.state self.new ≡ Self.state self.old };

    /// Does all programs that are loaded, and empties the registers. Where the call is broken, each of the programs
    /// by itself leaves its slot blank, or complete as asked for, or damaged, and none is counted.
    fn fire(&mut self) -> Result<(), Broken>
        requires { CanDo (Self.state self.old).shape (Self.state self.old).image
            (fire (loads_in (registers self.old))) }
        ensures fires { Operates (Self.state self.old) (Self.state self.new)
            (fire (loads_in (registers self.old))) result }
        ensures empty { registers self.new ≡ no_loads (Self.state self.old).shape };
}

ghost use Rattle.std.specs.Prelude.{◌≡◌, Result};
ghost use Rattle.flash_model.specs.declared.cached.NotDurable.{NotDurable};

use crate::Flash;

/// What was done may not be durable: what is to keep it failed, in this flush or before.
#[derive(Clone, Copy, PartialEq, Eq)]
pub struct NotDurable;

/// A flash whose programs wait to be made durable. A loss of power leaves any part of those that wait.
pub trait Cached: Flash {
    /// What a flush does to what waits, done or failed.
    ghost flushes: { Self → Self → Result (Unit {0}) NotDurable → Type 0 };

    /// Makes durable all that was done. What the flash shows is as before, also where this fails: then a loss of
    /// power may still take what waits, and nothing may be answered that rests on it.
    fn flush(&mut self) -> Result<(), NotDurable>
        ensures same { Self.state self.new ≡ Self.state self.old }
        ensures flushes { flushes self.old self.new result };
}

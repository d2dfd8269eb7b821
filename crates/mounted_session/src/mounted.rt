ghost use Rattle.std.specs.Prelude.{◌≡◌, Ok, IfOk, IfErr};
ghost use Rattle.tx_types.specs.Config.{checked};
ghost use Rattle.tx_types.specs.declared.config.Config.{Config};
ghost use Rattle.flash_model.specs.Flash.{FlashState};
ghost use Rattle.mounted_session.specs.Mounting.{FailsToMount, IfFault, StaysQuiet};

use flash_model::Power;
use std::alloc::Global;
use tx_types::Config;

/// Why nothing was mounted on a flash.
#[derive(Drop)]
pub enum NotMounted<W> {
    /// A read met a fault.
    Fault,
    /// The flash is refused.
    Refused(W),
}

/// What can be mounted on a flash, and gives it back.
pub trait Mounted<F: Power> {
    /// Why a flash is refused.
    type Why;

    /// The flash that it stands on.
    ghost flash_of: { Self → F };

    /// With which configurations it can be mounted.
    ghost takes: { Config → Type 0 };

    /// What mounting a flash gives.
    ghost opens: { Config → F → Self → Type 0 };

    /// Which flash is refused, and why.
    ghost refuses: { Config → FlashState → Self.Why → Type 0 };

    /// What else is so of a flash on which a mount met a fault, once and now.
    ghost meets: { Config → FlashState → FlashState → Type 0 };

    /// Turns power on where it is off, and mounts the flash, which comes back where this fails.
    fn mount(alloc: Global, flash: F, config: Config) -> Result<Self, (F, NotMounted<Self::Why>)>
        requires check { checked config ≡ Ok (F.state flash).shape }
        requires takes { takes config }
        ensures mounted { IfOk result (opens config flash) }
        ensures failed { IfErr result (λ e.
            FailsToMount (refuses config (F.state flash)) (F.state flash) (F.state e.0) e.1) }
        ensures met { IfErr result (λ e. IfFault (meets config (F.state flash) (F.state e.0)) e.1) };

    /// The flash, as it stands.
    fn flash(&self) -> &F
        ensures { result.now ≡ flash_of self.now };

    /// The flash, as it stands.
    fn close(self) -> F
        ensures { result ≡ flash_of self };

    // Mounting leaves all that is on the flash, and meets no fault.
    ghost stays: { (its : Config) (flash : F) (m : Self) → opens its flash m →
        StaysQuiet (F.state flash) (F.state (flash_of m)) };
}

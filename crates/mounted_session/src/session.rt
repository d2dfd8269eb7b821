ghost use Rattle.std.specs.Prelude.{◌≡◌, Ok, true, false, IfOk, IfErr, OnOk};
ghost use Rattle.tx_types.specs.Config.{checked};
ghost use Rattle.flash_model.specs.Calls.{Carries};
ghost use Rattle.mounted_session.specs.Mounting.{IsRefused};
ghost use Rattle.mounted_session.specs.Sessions.{flash_in, is_mounted, IfAlone, Mounts, MountsFirst};
ghost use Rattle.mounted_session.specs.declared.session.Session.TheVariants as sessions;

use crate::{Mounted, NotMounted};
use core::mem::replace_with;
use flash_model::Power;
use std::alloc::Global;
use std::marker::PhantomData;
use tx_types::Config;

/// A flash that is served.
#[derive(Drop)]
pub enum Session<F, M> {
    /// With what is mounted on it.
    Mounted(M),
    /// Alone: it was not mounted yet, a mount met a fault, or it was closed.
    Unmounted(F),
}

impl<F, M> Session<F, M> {
    /// Whether something is mounted.
    pub fn is_mounted(&self) -> bool
        ensures { result ≡ is_mounted self.now }
    {
        matches!(self, Session::Mounted(_))
    }
}

impl<F: Power, M: Mounted<F>> Session<F, M> {
    /// The flash, as it stands.
    pub fn flash(&self) -> &F
        ensures { result.now ≡ flash_in M.flash_of self.now }
    {
        match self {
            Session::Mounted(mounted) => mounted.flash(),
            Session::Unmounted(flash) => flash,
        }
    }

    /// Whether power is on.
    pub fn live(&self) -> bool
        ensures { result ≡ (F.state (flash_in M.flash_of self.now)).live }
    {
        self.flash().live()
    }

    /// The flash, as it stands.
    pub fn close(self) -> F
        ensures { result ≡ flash_in M.flash_of self }
    {
        match self {
            Session::Mounted(mounted) => mounted.close(),
            Session::Unmounted(flash) => flash,
        }
    }

    /// Leaves the flash alone.
    pub fn unmount(&mut self)
        ensures { self.new ≡ sessions.Unmounted (flash_in M.flash_of self.old) }
    {
        replace_with(self, (), without_mounted)
    }

    /// Mounts the flash anew. Where it is refused, the session has the flash alone.
    pub fn mount_again(&mut self, alloc: Global, config: Config) -> Result<(), M::Why>
        requires check { checked config ≡ Ok (F.state (flash_in M.flash_of self.old)).shape }
        requires takes { M.takes config }
        ensures mounted { OnOk result (Mounts F.state (M.opens config) (flash_in M.flash_of self.old) self.new) }
        ensures failed { IfErr result (IsRefused (M.refuses config (F.state (flash_in M.flash_of self.old)))
            (F.state (flash_in M.flash_of self.old)) (F.state (flash_in M.flash_of self.new))) }
        ensures met { OnOk result (IfAlone (λ new.
            M.meets config (F.state (flash_in M.flash_of self.old)) (F.state new)) self.new) }
    {
        replace_with(self, (alloc, config, PhantomData), mount_anew)
    }
}

/// The session without what was mounted.
fn without_mounted<F: Power, M: Mounted<F>>(session: Session<F, M>, with: ()) -> (Session<F, M>, ())
    ensures { result.0 ≡ sessions.Unmounted (flash_in M.flash_of session) }
{
    (Session::Unmounted(session.close()), with)
}

/// The session of a flash that is mounted anew. The last of what it is given names the type of its result.
fn mount_anew<F: Power, M: Mounted<F>>(
    session: Session<F, M>,
    with: (Global, Config, PhantomData<M::Why>),
) -> (Session<F, M>, Result<(), M::Why>)
    requires check { checked with.1 ≡ Ok (F.state (flash_in M.flash_of session)).shape }
    requires takes { M.takes with.1 }
    ensures mounted { OnOk result.1 (Mounts F.state (M.opens with.1) (flash_in M.flash_of session) result.0) }
    ensures failed { IfErr result.1 (IsRefused (M.refuses with.1 (F.state (flash_in M.flash_of session)))
        (F.state (flash_in M.flash_of session)) (F.state (flash_in M.flash_of result.0))) }
    ensures met { OnOk result.1 (IfAlone (λ new.
        M.meets with.1 (F.state (flash_in M.flash_of session)) (F.state new)) result.0) }
{
    let (alloc, config, _) = with;
    match mount(alloc, session.close(), config) {
        Ok(mounted) => (mounted, Ok(())),
        Err((flash, why)) => (Session::Unmounted(flash), Err(why)),
    }
}

/// Turns power on where it is off, and mounts a flash. Where a read meets a fault the flash stays alone.
pub fn mount<F: Power, M: Mounted<F>>(
    alloc: Global,
    flash: F,
    config: Config,
) -> Result<Session<F, M>, (F, M::Why)>
    requires check { checked config ≡ Ok (F.state flash).shape }
    requires takes { M.takes config }
    ensures mounted { IfOk result (Mounts F.state (M.opens config) flash) }
    ensures met { IfOk result (IfAlone (λ new. M.meets config (F.state flash) (F.state new))) }
    ensures failed { IfErr result (λ e. IsRefused (M.refuses config (F.state flash)) (F.state flash) (F.state e.0) e.1) }
{
    match M::mount(alloc, flash, config) {
        Ok(mounted) => Ok(Session::Mounted(mounted)),
        Err((flash, error)) => match error {
            NotMounted::Fault => Ok(Session::Unmounted(flash)),
            NotMounted::Refused(why) => Err((flash, why)),
        },
    }
}

/// The session that serving begins with: a flash without power is mounted later.
pub fn begin<F: Power, M: Mounted<F>>(
    alloc: Global,
    flash: F,
    config: Config,
) -> Result<Session<F, M>, (F, M::Why)>
    requires check { checked config ≡ Ok (F.state flash).shape }
    requires takes { M.takes config }
    ensures begins { IfOk result (MountsFirst F.state (M.opens config) flash) }
    ensures met { (F.state flash).live ≡ true →
        IfOk result (IfAlone (λ new. M.meets config (F.state flash) (F.state new))) }
    ensures failed { IfErr result (λ e. IsRefused (M.refuses config (F.state flash)) (F.state flash) (F.state e.0) e.1) }

    // One without power is not refused.
    ensures calls { IfErr result (λ e. Carries (F.state flash) (F.state e.0) false) }
{
    if flash.live() {
        mount(alloc, flash, config)
    } else {
        Ok(Session::Unmounted(flash))
    }
}

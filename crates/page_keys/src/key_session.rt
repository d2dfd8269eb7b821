ghost use Rattle.std.specs.Prelude.{◌≡◌, ◌≤◌};
ghost use Rattle.page_keys.specs.KeySessions.{refused_device, not_opened, IsUsable, IsWhy, Opens, SetsCut};

use crate::answers::KeyError;
use crate::key_error::KeyServeError;
use crate::store::KeyStore;
use flash_model::{Arms, Outcome, Power};
use mounted_session::{Mounted, NotMounted, Refusal, Session};
use record_list::CommitRule;
use std::alloc::Global;
use tx_engine::{Device, device_facts};
use tx_types::Config;

impl<F: Power, R: CommitRule> Mounted<F> for KeyStore<F, R> {
    type Why = KeyServeError;

    ghost flash_of = { λ k. k.device.flash };

    ghost takes = { λ its. its.protocol ≡ R.protocol };

    ghost opens = { Opens F.state };

    ghost refuses = { IsWhy };

    ghost meets = { λ its old new. Unit {0} };

    fn mount(
        alloc: Global,
        flash: F,
        config: Config,
    ) -> Result<KeyStore<F, R>, (F, NotMounted<KeyServeError>)> {
        match <Device<F, R> as Mounted<F>>::mount(alloc, flash, config) {
            Ok(device) => {
                device_facts(&device);
                match KeyStore::over(alloc, device) {
                    Ok(store) => {
                        store.config();
                        Ok(store)
                    }
                    Err((device, error)) => Err((device.close(), not_opened(error))),
                }
            }
            Err((flash, error)) => Err((flash, refused_device(error))),
        }
    }

    fn flash(&self) -> &F {
        self.device.flash()
    }

    fn close(self) -> F {
        self.close().close()
    }

    ghost stays = { λ its flash k h. h.still };
}

/// Why no store was opened over the device of a flash.
fn not_opened(error: KeyError) -> NotMounted<KeyServeError>
    ensures { result ≡ not_opened error }
{
    match error {
        KeyError::Fault => NotMounted::Fault,
        KeyError::Bucket(page) => NotMounted::Refused(KeyServeError::Bucket(page)),
        KeyError::Memory => NotMounted::Refused(KeyServeError::Memory),
    }
}

/// Why a store has no device.
fn refused_device(error: NotMounted<Refusal>) -> NotMounted<KeyServeError>
    ensures { result ≡ refused_device error }
{
    match error {
        NotMounted::Fault => NotMounted::Fault,
        NotMounted::Refused(why) => match why {
            Refusal::Unsound { law, slot } => NotMounted::Refused(KeyServeError::Unsound {
                law,
                slot,
            }),
            Refusal::Memory => NotMounted::Refused(KeyServeError::Memory),
        },
    }
}

/// A program or an erase from now on, the one of this number from 1, will be cut with this outcome.
pub(crate) fn arm_cut<F: Arms, R: CommitRule>(
    session: &mut Session<F, KeyStore<F, R>>,
    count: u32,
    outcome: Outcome,
)
    requires usable { IsUsable session.old }
    requires count { 1 ≤ count }
    ensures { SetsCut F.state R.protocol count outcome session.old session.new }
{
    match session {
        Session::Mounted(store) => {
            store.arm_cut(count, outcome);
            store.config();
        }
        Session::Unmounted(flash) => flash.arm_cut(count, outcome),
    }
}

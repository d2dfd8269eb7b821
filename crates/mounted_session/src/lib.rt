//! A flash with what is mounted on it, or alone: it is mounted, unmounted, and mounted again once power was cut or a
//! read met a fault.
#![tactic(auto)]

mod device;
mod mounted;
mod session;

pub use device::Refusal;
pub use mounted::{Mounted, NotMounted};
pub use session::{Session, begin, mount};

//! What a flash is: its slots, what its calls do, and what a call leaves that is broken.
#![tactic(auto)]

mod arms;
mod cached;
mod flash;
mod outcome;
mod retire;
mod theorems;
mod wide;

pub use arms::{Arms, Power};
pub use cached::{Cached, NotDurable};
pub use flash::{Broken, Flash, SPARE_BYTES, Seen};
pub use outcome::{Arm, Outcome};
pub use retire::{MAX_ALLOWANCE, Retire};
pub use theorems::{
    calls_compose, fires_are_programs, images_stay, loads_come_in_order, operations_are_counted,
    operations_move, retiring_composes, steady_stays,
};
pub use wide::Wide;

//! A live device: the lines of an input are served one by one on the flash of an image file, which has its live format
//! meanwhile, and each is answered once what was done is durable.
#![tactic(auto)]

mod answering;
mod call;
mod desk;
mod ending;
mod lines;
mod opening;
mod real_desk;
mod session;
mod words;

pub use call::top;
pub use desk::{CallError, ClaimError, LineDesk, Next, Shown};
pub use lines::{MAX_LINE_BYTES, next_line};
pub use real_desk::RealLineDesk;

//! The array machine: pages, and transactions that change all their pages at once. It is what the product promises to a
//! host, and knows nothing of a flash or of the texts of commands. Its definitions stand in `specs/`, and what holds of
//! its calls in `theorems`.
#![tactic(auto)]

mod answers;
mod mark;
pub mod theorems;

pub use answers::{
    Aborted, Collected, Fault, Moved, Progress, ReadAnswer, ReadError, StepError, SubmitError,
};
pub use mark::Mark;

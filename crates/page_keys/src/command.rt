use crate::changes::Changes;
use crate::short_bytes::ShortBytes;
use flash_model::Outcome;

/// What a line of a key script asks for.
#[derive(Drop)]
pub enum KeyCommand {
    /// `put K=V ..`: these changes, all at once.
    Put { changes: Changes },
    /// `get K`: the value of a key.
    Get { key: ShortBytes },
    /// `cut N O`: power is cut at the N-th change of the flash from now on, counted from 1.
    Cut { count: u32, outcome: Outcome },
}

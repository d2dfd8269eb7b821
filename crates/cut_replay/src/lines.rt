ghost use Rattle.std.specs.Prelude.{◌≡◌, [], Some, None};

use crate::Watch;
use flash_model::Flash;
use host_protocol::{Reply, reply_text};
use std::alloc::Global;
use std::marker::Model;
use tx_types::Memory;

/// The lines of the replies so far. It is seen as the list of their bytes.
#[derive(Drop)]
pub struct Lines {
    alloc: Global,
    text: Vec<u8>,
}

impl Model for Lines {
    ghost use Rattle.std.specs.Prelude.{ℕ, List};

    ghost Value = { List ℕ };

    ghost use Rattle.cut_replay.specs.LinesText.{text_in};

    ghost view = { text_in };
}

impl Lines {
    /// No line.
    pub fn new(alloc: Global) -> Lines
        ensures { result ≡ [] }
    {
        Lines {
            alloc,
            text: Vec::new(alloc),
        }
    }

    /// All bytes.
    pub fn as_slice(&self) -> &[u8]
        ensures { result.now ≡ self.now }
    {
        &self.text
    }
}

impl<F: Flash> Watch<F> for Lines {
    ghost text = { λ l. Some l };

    ghost kept = { λ l. None };

    ghost flashes = { λ l. None };

    fn tell(&mut self, flash: &F, reply: &Reply) -> Result<(), Memory> {
        let _ = flash;
        reply_text(self.alloc, reply, &mut self.text)
    }
}

use flash_model::Outcome;
use tx_types::Batch;

/// What a line of a command file asks for.
#[derive(Drop)]
pub enum Command {
    /// `read P`: the contents of a page.
    Read { page: u32 },
    /// `write T P=H ..`: a transaction under a tag, of these pages with these contents.
    Write { tag: u32, batch: Batch },
    /// `step T`: one page more of an open transaction.
    Step { tag: u32 },
    /// `finish T`: all pages that an open transaction still has to write.
    Finish { tag: u32 },
    /// `abort T`: the end of an open transaction, with none of its pages changed.
    Abort { tag: u32 },
    /// `stepall`: one page more of several open transactions, in the order of their opening, written together.
    StepAll,
    /// `collect`: one block of the flash is won back.
    Collect,
    /// `stats`: the numbers of the device.
    Stats,
    /// `explain`: the verdict on each page.
    Explain,
    /// `cut N O`: power is cut at the N-th change of the flash from now on, counted from 1.
    Cut { count: u32, outcome: Outcome },
    /// `fault N O`: the N-th change of the flash from now on fails, counted from 1.
    Fault { count: u32, outcome: Outcome },
    /// `badread N`: the N-th read of the flash from now on fails, counted from 1.
    BadRead { count: u32 },
}

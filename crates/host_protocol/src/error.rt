ghost use Rattle.std.specs.Prelude.{◌≡◌};
ghost use Rattle.host_protocol.specs.Reading.{text_error};
ghost use Rattle.host_protocol.specs.declared.error.LineError.TheVariants.{Memory};
ghost use Rattle.host_protocol.specs.declared.error.TextError.TheVariants as text;

/// Why a line of a command file or a key script gave no command.
#[derive(Clone, Copy)]
pub enum LineError {
    /// The line is not in the grammar, or brings the file past a limit.
    Bad,
    /// There was no memory for the command.
    Memory,
}

/// Why a file or a script gave no commands.
#[derive(Clone, Copy, PartialEq, Eq)]
pub enum TextError {
    /// The number, from 1, of the first line that is not in the grammar or brings the file past a limit.
    Line(u32),
    /// There was no memory for the commands.
    Memory,
}

impl From<tx_types::Memory> for LineError {
    ghost from_gives = { λ _ e. e ≡ Memory };

    fn from(_: tx_types::Memory) -> Self {
        LineError::Memory
    }
}

impl LineError {
    /// The error of a file whose line of this number has this one.
    pub fn at(self, number: u32) -> TextError
        ensures { result ≡ text_error number self }
    {
        match self {
            LineError::Bad => TextError::Line(number),
            LineError::Memory => TextError::Memory,
        }
    }
}

impl From<tx_types::Memory> for TextError {
    ghost from_gives = { λ _ e. e ≡ text.Memory };

    fn from(_: tx_types::Memory) -> Self {
        TextError::Memory
    }
}

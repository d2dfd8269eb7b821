ghost use Rattle.std.specs.Prelude.{◌≡◌};
ghost use Rattle.program_base.specs.Statuses.{code};

/// The status of a program: how its call ended.
#[derive(Clone, Copy)]
pub enum Status {
    /// What the words ask for is done.
    Done,
    /// The words are not those of the program.
    BadWords,
    /// A file is missing.
    NoFile,
    /// The bytes of a file are no image file.
    BadImage,
    /// A line of a file is no command.
    BadLine,
    /// The desk met a fault.
    DeskFault,
    /// There was no memory.
    NoMemory,
    /// An image is not sound.
    Unsound,
    /// The numbers are not those of a device.
    BadConfiguration,
    /// A file is too long.
    TooLong,
    /// A page of an image is no bucket of keys.
    BadBucket,
    /// A text is not the report on an image.
    WrongLine,
    /// Two images have different arrays.
    Differ,
    /// A block is not there, or nothing is left to replace it.
    RefusedBlock,
}

impl Status {
    /// The number that the program returns.
    pub fn code(self) -> u8
        ensures { result ≡ code self }
    {
        match self {
            Status::Done => 0,
            Status::BadWords => 1,
            Status::NoFile => 2,
            Status::BadImage => 3,
            Status::BadLine => 4,
            Status::DeskFault => 5,
            Status::NoMemory => 6,
            Status::Unsound => 7,
            Status::BadConfiguration => 8,
            Status::TooLong => 9,
            Status::BadBucket => 11,
            Status::WrongLine => 12,
            Status::Differ => 13,
            Status::RefusedBlock => 14,
        }
    }
}

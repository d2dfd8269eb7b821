ghost use Rattle.std.specs.Prelude.{◌≡◌, ◌++◌, IfOk, codes};
ghost use Rattle.std.specs.Fmt.{decimal};
ghost use Rattle.std.specs.String.{string_bytes};
ghost use Rattle.program_base.specs.Refusals.{line};
ghost use Rattle.program_base.specs.Statuses.{code};
ghost use Rattle.desk_tasks.specs.Ending.{config_word, refusal_line, status};
ghost use Rattle.desk_tasks.specs.Stops.{refused};

use program_base::{ImageRefusal, Status};
use std::alloc::{AllocError, Global};
use tx_types::ConfigError;

/// Why the program saves nothing and is not content: it says one line, and answers a status.
#[derive(Clone, Copy)]
pub enum Refusal<'a> {
    /// As each program refuses a call for an image file.
    Image(ImageRefusal<'a>),
    /// The line of this number, from 1, is the first of the command file that is no command.
    BadLine(u32),
    /// The bytes of this page, the least such, are no bucket of keys.
    BadBucket(u32),
    /// The numbers are not those of a device: the first rule that they break.
    BadConfiguration(ConfigError),
    /// More blocks are to be retired than a device may allow.
    BadAllowance,
    /// There is no such block.
    NoBlock(u32),
    /// As many blocks were retired as may be, which is this many.
    Worn(u32),
    /// The text is not the report on the image: the first line, from 1, in which the two differ.
    WrongLine(u32),
    /// Two devices have not as many pages of as many bytes.
    DifferShape,
    /// This is the first page in which two arrays differ, and it is blank in one of them.
    DifferBlank(u32),
    /// This is the first page in which two arrays differ, and the first byte in it.
    DifferAt { page: u32, at: usize },
}

impl Refusal<'_> {
    /// The status that the program answers.
    pub fn status(&self) -> Status
        ensures { code result ≡ status (refused self.now) }
    {
        match self {
            Refusal::Image(refusal) => refusal.status(),
            Refusal::BadLine(_) => Status::BadLine,
            Refusal::BadConfiguration(_) | Refusal::BadAllowance => Status::BadConfiguration,
            Refusal::BadBucket(_) => Status::BadBucket,
            Refusal::WrongLine(_) => Status::WrongLine,
            Refusal::DifferShape | Refusal::DifferBlank(_) | Refusal::DifferAt { .. } =>
                Status::Differ,
            Refusal::NoBlock(_) | Refusal::Worn(_) => Status::RefusedBlock,
        }
    }

    /// The line that it says. It answers `AllocError` where there is no memory for it.
    pub fn line(&self, alloc: Global) -> Result<String, AllocError>
        ensures { IfOk result (λ line. string_bytes line ≡ refusal_line (refused self.now)) }
    {
        match self {
            Refusal::Image(refusal) => refusal.line(alloc),
            Refusal::BadLine(n) => numbered_line(alloc, "bad line", *n),
            Refusal::BadBucket(page) => numbered_line(alloc, "bad bucket", *page),
            Refusal::BadConfiguration(rule) => configuration_line(alloc, config_word(*rule)),
            Refusal::BadAllowance => configuration_line(alloc, "allowance"),
            Refusal::NoBlock(block) => numbered_line(alloc, "refused block", *block),
            Refusal::Worn(allowance) => numbered_line(alloc, "refused worn", *allowance),
            Refusal::WrongLine(k) => numbered_line(alloc, "wrong line", *k),
            Refusal::DifferShape => String::from_str(alloc, "differ shape\n"),
            Refusal::DifferBlank(page) => blank_line(alloc, *page),
            Refusal::DifferAt { page, at } => byte_line(alloc, *page, *at),
        }
    }
}

/// The line of these words with a number behind them.
fn numbered_line(alloc: Global, words: &str, n: u32) -> Result<String, AllocError>
    ensures { IfOk result (λ said. string_bytes said ≡ line (words.now ++ codes " " ++ decimal n)) }
{
    format!(in alloc; "{words} {n}\n")
}

/// The line for a configuration that breaks the rule of this word.
fn configuration_line(alloc: Global, word: &str) -> Result<String, AllocError>
    ensures { IfOk result (λ said. string_bytes said ≡ line (codes "bad configuration: " ++ word.now)) }
{
    format!(in alloc; "bad configuration: {word}\n")
}

/// The line for two arrays of which one alone is blank at this page, the first that differs.
fn blank_line(alloc: Global, page: u32) -> Result<String, AllocError>
    ensures { IfOk result (λ words. string_bytes words ≡
        line (codes "differ page " ++ decimal page ++ codes " blank")) }
{
    format!(in alloc; "differ page {page} blank\n")
}

/// The line for two arrays that differ first at this byte of this page.
fn byte_line(alloc: Global, page: u32, at: usize) -> Result<String, AllocError>
    ensures { IfOk result (λ words. string_bytes words ≡
        line (codes "differ page " ++ decimal page ++ codes " at " ++ decimal at)) }
{
    format!(in alloc; "differ page {page} at {at}\n")
}

/// The word for a rule of a configuration.
fn config_word(rule: ConfigError) -> &'static str
    ensures { result.now ≡ config_word rule }
{
    match rule {
        ConfigError::Page => "page",
        ConfigError::Pages => "pages",
        ConfigError::Blocks => "blocks",
        ConfigError::Dies => "dies",
        ConfigError::Slots => "slots",
        ConfigError::Logical => "logical",
        ConfigError::Pending => "pending",
        ConfigError::Space => "space",
    }
}

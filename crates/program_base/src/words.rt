ghost use Rattle.std.specs.Prelude.{◌≡◌, ◌⊎◌, ◌↔◌};
ghost use Rattle.program_base.specs.Statuses.{code};

use crate::status::Status;
use std::io::ErrorKind;

/// The status where the words of a call cannot be read, which may be for want of memory.
pub fn status_of_bad_args(kind: ErrorKind) -> Status
    ensures memory { (code result ≡ 6) ↔ (kind ≡ ErrorKind.OutOfMemory) }
    ensures other { (code result ≡ 6) ⊎ (code result ≡ 1) }
{
    match kind {
        ErrorKind::OutOfMemory => Status::NoMemory,
        _ => Status::BadWords,
    }
}

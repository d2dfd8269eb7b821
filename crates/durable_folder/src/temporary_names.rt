//! Where a new file is made that is to take the place of another one.
ghost use Rattle.std.specs.Prelude.{◌≡◌, IfOk};
ghost use Rattle.std.specs.Path.{path_buf_bytes};
ghost use Rattle.std.specs.String.{string_bytes};
ghost use Rattle.durable_folder.specs.Places.{IsBeside, IsOwnBeside, folder_of};

use std::alloc::{AllocError, Global};
use std::path::{Path, PathBuf};

/// How many names are tried for a new file.
pub const MAX_TRIES: u32 = 99;

/// The most bytes of a file's own name that stay in a name beside it. With `.saving99` these are
/// the 255 bytes that a system takes.
const MAX_KEPT: usize = 246;

/// The folder in which the file of this name stands.
pub fn folder_of(name: &str) -> &str
    ensures { result.now ≡ folder_of name.now }
{
    match Path::new(name).parent() {
        Some(folder) if !folder.as_str().is_empty() => folder.as_str(),
        _ => ".",
    }
}

/// A file's own name with `.saving`, or that with a number, with the front of a long name.
fn own_temporary_name(alloc: Global, own: &str, number: u32) -> Result<String, AllocError>
    ensures { IfOk result (λ text. IsOwnBeside own.now number (string_bytes text)) }
{
    let front = &own[..own.floor_char_boundary(MAX_KEPT)];
    if number > 1 {
        return format!(in alloc; "{front}.saving{number}");
    }
    format!(in alloc; "{front}.saving")
}

/// The name of a new file beside this one: NAME.saving, then NAME.saving2 and so on.
pub fn temporary_name(alloc: Global, name: &str, number: u32) -> Result<PathBuf, AllocError>
    ensures { IfOk result (λ path. IsBeside name.now number (path_buf_bytes path)) }
{
    let path = Path::new(name);
    let beside = own_temporary_name(alloc, path.file_name().unwrap_or(""), number)?;
    path.with_file_name(alloc, beside.as_str())
}

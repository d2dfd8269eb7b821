//! What a folder holds, by the changes that were made to it.
ghost use Rattle.std.specs.Prelude.{◌≡◌, ℕ, List, [], ◌∷◌, Option, None};
ghost use Rattle.durable_folder.specs.FolderState.{newest};
ghost use Rattle.mem_folder.specs.Changes.{IsSeen, held, held_after, named, named_after};

use crate::change::{Change, Left};

/// What there is now, and what a loss of power leaves if it leaves no more than what was synced.
#[derive(Drop)]
pub struct Seen<T> {
    pub now: T,
    pub kept: T,
}

/// What a name has after a change.
fn name_after(seen: Seen<Option<u64>>, change: &Change, name: &str) -> Seen<Option<u64>>
    ensures { (had : List (Option ℕ)) → IsSeen had seen.now seen.kept →
        IsSeen (named_after name.now change.now had) result.now result.kept }
{
    match change {
        Change::Made(it, file) | Change::Linked(it, file) if it.as_str() == name => Seen {
            now: Some(*file),
            kept: seen.kept,
        },
        Change::Removed(it) if it.as_str() == name => Seen {
            now: None,
            kept: seen.kept,
        },
        Change::Moved(from, _, _) if from.as_str() == name => Seen {
            now: None,
            kept: seen.kept,
        },
        Change::Moved(_, to, file) if to.as_str() == name => Seen {
            now: Some(*file),
            kept: seen.kept,
        },
        Change::SyncedNames | Change::Lost(Left::Newest, _) => Seen {
            now: seen.now,
            kept: seen.now,
        },
        Change::Lost(Left::Synced, _) => Seen {
            now: seen.kept,
            kept: seen.kept,
        },
        _ => seen,
    }
}

/// The file that a name has now.
pub fn file_of(changes: &[Change], name: &str) -> Option<u64>
    ensures { result ≡ newest None (named changes.now name.now) }
{
    let mut seen = Seen {
        now: None,
        kept: None,
    };
    for change in changes {
        seen = name_after(seen, change, name);
    }
    seen.now
}

/// What a file holds after a change.
fn bytes_after<'a>(seen: Seen<&'a [u8]>, change: &'a Change, file: u64) -> Seen<&'a [u8]>
    ensures { (had : List (List ℕ)) → IsSeen had seen.entry.now.now seen.entry.kept.now →
        IsSeen (held_after file change.now had) result.now.now result.kept.now }
{
    match change {
        Change::Made(_, it) if *it == file => Seen {
            now: &[],
            kept: &[],
        },
        Change::Wrote(it, bytes) if *it == file => Seen {
            now: bytes.as_slice(),
            kept: seen.kept,
        },
        Change::Synced(it) if *it == file => Seen {
            now: seen.now,
            kept: seen.now,
        },
        Change::Lost(_, Left::Newest) => Seen {
            now: seen.now,
            kept: seen.now,
        },
        Change::Lost(_, Left::Synced) => Seen {
            now: seen.kept,
            kept: seen.kept,
        },
        _ => seen,
    }
}

/// What is read of a file now.
pub fn bytes_of(changes: &[Change], file: u64) -> &[u8]
    ensures { result.now ≡ newest [] (held changes.now file) }
{
    let mut seen: Seen<&[u8]> = Seen {
        now: &[],
        kept: &[],
    };
    for change in changes {
        seen = bytes_after(seen, change, file);
    }
    seen.now
}

ghost use Rattle.std.specs.Prelude.{◌≡◌, ◌≤◌, length, is_some, option_map, option_copied, OnOk, OnErr};
ghost use Rattle.page_cache.specs.Entries.{pages_in};
ghost use Rattle.page_cache.specs.PageCacheState.{cached_page, max_cached, promoted, kept};

use lru::LruCache;
use tx_types::Memory;

/// A logical page at one of its versions.
#[derive(Clone, Copy, PartialEq, Eq, Hash)]
pub struct Key {
    pub page: u32,
    pub version: u64,
}

/// Pages by their keys, in the order of use.
pub type Entries = LruCache<Key, Vec<u8>>;

/// The bytes of a page at a version, where it is held.
#[tactic(auto, using(crate::proofs::LookUps::entries))]
pub fn bytes_of(pages: &Entries, page: u32, version: u64) -> Option<&[u8]>
    ensures { option_copied result ≡
        option_map (λ e. e.bytes) (cached_page page version (pages_in pages.now)) }
{
    let bytes = pages.peek(&Key { page, version })?;
    Some(bytes.as_slice())
}

/// Brings the entry of a page at a version to the front, and says whether it is held.
#[tactic(auto, using(crate::proofs::LookUps::entries))]
pub fn promote(pages: &mut Entries, page: u32, version: u64) -> bool
    ensures held { result ≡ is_some (cached_page page version (pages_in pages.old)) }
    ensures front { pages_in pages.new ≡ promoted page version (pages_in pages.old) }
    ensures capacity { pages.new.cap ≡ pages.old.cap }
{
    pages.promote(&Key { page, version })
}

/// Puts a page at a version in front, in place of its entry, and drops the last of 17 entries.
#[tactic(auto, using(crate::proofs::LookUps::entries))]
pub fn put(pages: &mut Entries, page: u32, version: u64, bytes: Vec<u8>) -> Result<(), Memory>
    requires capacity { pages.old.cap ≡ max_cached }
    requires most { length (pages_in pages.old) ≤ max_cached }
    ensures ok { OnOk result (
        pages_in pages.new ≡ kept page version bytes.items (pages_in pages.old)) }
    ensures err { OnErr result (pages.new ≡ pages.old) }
    ensures capacity { pages.new.cap ≡ pages.old.cap }
{
    pages.put(Key { page, version }, bytes)?;
    Ok(())
}

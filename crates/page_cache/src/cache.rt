ghost use Rattle.std.specs.Prelude.{◌≡◌, [], length, is_some, IfOk, OnOk, OnErr};
ghost use Rattle.std.specs.Option.{option_map_or};
ghost use Rattle.page_cache.specs.PageCacheState.{IsPageCacheState, cached_page, promoted, kept};

use crate::entries::{Entries, bytes_of, promote, put};
use lru::LruCache;
use std::alloc::Global;
use std::marker::Model;
use std::num::NonZeroUsize;
use tx_types::Memory;

/// The most pages that are kept.
const MAX_PAGES: usize = 16;

/// The pages that were read last, at most 16, each under its page and version. It is seen as the bytes
/// of a page and the list of its entries, the latest used first.
#[derive(Drop)]
pub struct PageCache {
    alloc: Global,
    page_bytes: u32,
    pages: Entries,
}

impl Model for PageCache {
    ghost use Rattle.page_cache.specs.PageCacheState.{PageCacheState};

    ghost Value = { PageCacheState };

    ghost use Rattle.page_cache.specs.PageCache.{pages_of, PageCacheInvariant};

    ghost view = { pages_of };

    ghost invariant = { PageCacheInvariant };
}

impl PageCache {
    /// A cache without entries, for pages of this many bytes. `Memory`: there is none for its table.
    #[tactic(auto, unfolding(crate::specs::Entries::pages_in))]
    pub fn new(alloc: Global, page_bytes: u32) -> Result<PageCache, Memory>
        ensures { IfOk result (λ c. c ≡ record { page_bytes = page_bytes; entries = [] }) }
    {
        let pages = LruCache::new(alloc, NonZeroUsize::new(MAX_PAGES).unwrap())?;
        Ok(PageCache {
            alloc,
            page_bytes,
            pages,
        })
    }

    /// Whether a page is held at a version. Its bytes, as many as a page has, are then copied into `into`, and its
    /// entry comes to the front. Where it is not held the cache and `into` stay as they were. The map is asked twice,
    /// for the bytes and to bring the entry to the front: so each call on it is one equation on the list of pages, and
    /// no loan stays open in between.
    #[tactic(auto, using(crate::proofs::Pages::look_ups))]
    pub fn find(&mut self, page: u32, version: u64, into: &mut [u8]) -> bool
        requires { length into.old ≡ self.old.page_bytes }
        ensures found { result ≡ is_some (cached_page page version self.old.entries) }
        ensures front { self.new ≡ record self.old {
          entries = promoted page version self.old.entries;
        } }
        ensures bytes { into.new ≡
            option_map_or (λ e. e.bytes) (cached_page page version self.old.entries) into.old }
        ensures cache { IsPageCacheState self.new }
    {
        let Some(bytes) = bytes_of(&self.pages, page, version) else {
            return false;
        };
        into.copy_from_slice(bytes);
        promote(&mut self.pages, page, version)
    }

    /// Puts a page at a version in front, with a copy of the bytes of the whole page, in place of its entry if it has
    /// one. Where there would be more than 16 entries, the last one goes. Where there is no memory the cache stays as
    /// it was.
    #[tactic(auto, using(crate::proofs::Pages::puts))]
    pub fn keep(&mut self, page: u32, version: u64, bytes: &[u8]) -> Result<(), Memory>
        requires { length bytes.now ≡ self.old.page_bytes }
        ensures ok { OnOk result (self.new ≡ record self.old {
          entries = kept page version bytes.now self.old.entries;
        }) }
        ensures err { OnErr result (self.new ≡ self.old) }
        ensures cache { IsPageCacheState self.new }
    {
        let copy = Vec::from_slice(self.alloc, bytes)?;
        put(&mut self.pages, page, version, copy)
    }

    /// Takes all entries out. It takes no memory, so a mount cannot fail for the cache.
    #[tactic(auto, unfolding(crate::specs::Entries::pages_in))]
    pub fn clear(&mut self)
        ensures { self.new ≡ record self.old { entries = [] } }
    {
        self.pages.clear();
    }
}

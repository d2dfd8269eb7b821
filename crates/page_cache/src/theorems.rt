//! What holds of the pages that are kept. The function does nothing: it is there for what it ensures.
ghost use Rattle.std.specs.Prelude.{◌≡◌, ℕ, List, Some};
ghost use Rattle.page_cache.specs.PageCacheState.{CachedPage, cached_page, kept};

/// A page that was kept at a version is found there, with its bytes.
pub fn kept_pages_are_found()
    ensures { (page version : ℕ) (bytes : List ℕ) (entries : List CachedPage) →
        cached_page page version (kept page version bytes entries)
        ≡ Some (record { page = page; version = version; bytes = bytes }) }
{}

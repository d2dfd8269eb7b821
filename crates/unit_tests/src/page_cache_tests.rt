//! Which pages a cache holds.
ghost use Rattle.std.specs.Prelude.{◌≡◌};

use crate::samples::{link, word};
use page_cache::PageCache;
use std::alloc::Global;
use tx_types::Link;

/// Whether the pages below this one are kept at version 1, the bytes of each its number.
fn are_kept(cache: &mut PageCache, pages: u8) -> bool
    requires { cache.old.page_bytes ≡ 4 }
    ensures { cache.new.page_bytes ≡ 4 }
{
    for page in 0..pages {
        if cache.keep(u32::from(page), 1, &[page; 4]).is_err() {
            return false;
        }
    }
    true
}

/// Whether a page is found at a version, each of its bytes this one, or is not found and nothing is copied.
fn is_found(cache: &mut PageCache, at: Link, is_there: bool, byte: u8) -> bool
    requires { cache.old.page_bytes ≡ 4 }
    ensures { cache.new.page_bytes ≡ 4 }
{
    let mut into = [0xee; 4];
    cache.find(at.page, at.version, &mut into) == is_there && into == [byte; 4]
}

/// The byte at a place of a text, 0 where there is none.
fn byte_at(text: &str, at: usize) -> u8 {
    word(text, at).parse::<u8>().unwrap_or(0)
}

/// Whether the step of a line is done: `keep`, `find` or `miss` with a page, its version and each of its bytes,
/// `below N`, which keeps the pages below N, or `clear`.
fn is_done(cache: &mut PageCache, line: &str) -> bool
    requires { cache.old.page_bytes ≡ 4 }
    ensures { cache.new.page_bytes ≡ 4 }
{
    let byte = byte_at(line, 2);
    match (word(line, 0), link(word(line, 1))) {
        ("keep", Some(at)) => cache.keep(at.page, at.version, &[byte; 4]).is_ok(),
        ("find", Some(at)) => is_found(cache, at, true, byte),
        ("miss", Some(at)) => is_found(cache, at, false, 0xee),
        ("below", _) => are_kept(cache, byte_at(line, 1)),
        ("clear", _) => {
            cache.clear();
            true
        }
        _ => false,
    }
}

/// Neither the page nor the version is enough to be found. An entry of the same name is replaced.
const NAMES: &str = "\
miss 5.1
keep 5.1 81
find 5.1 81
miss 5.2
miss 1.1
miss 1.5
keep 5.2 82
find 5.1 81
find 5.2 82
keep 5.1 97
find 5.1 97
find 5.2 82
clear
miss 5.1
miss 5.2";

/// Of 16 pages none goes. Page 0 is used, so that page 1 is the first to go. A page that is kept once more pushes none
/// out, and is then the latest. Of 17 pages at once the first one goes.
const ORDER: &str = "\
below 16
find 0.1 0
keep 16.1 16
miss 1.1
find 2.1 2
find 0.1 0
keep 3.1 51
find 4.1 4
keep 17.1 17
miss 5.1
keep 18.1 18
miss 6.1
find 3.1 51
find 7.1 7
find 17.1 17
below 17
miss 0.1
miss 18.1
find 1.1 1
find 16.1 16";

/// Whether the steps of a text are done, one after the other.
fn are_done(cache: &mut PageCache, steps: &str) -> bool
    requires { cache.old.page_bytes ≡ 4 }
    ensures { cache.new.page_bytes ≡ 4 }
{
    for line in steps.split('\n') {
        if !is_done(cache, line) {
            return false;
        }
    }
    true
}

/// Whether the steps of both texts are done by a new cache.
pub fn is_held(alloc: Global) -> bool {
    match PageCache::new(alloc, 4) {
        Ok(mut cache) => {
            let is_so = are_done(&mut cache, NAMES) && are_done(&mut cache, ORDER);
            drop(cache);
            is_so
        }
        Err(_) => false,
    }
}

ghost use Rattle.std.specs.Prelude.{◌≡◌, ◌<◌, ◌≤◌, ◌^◌, ◌⊎◌, [], Some, None, length, IfOk, IfErr, OnOk};
ghost use Rattle.page_keys.specs.KeyMaps.{is_touched, pages_of};
ghost use Rattle.page_keys.specs.Pages.{with_page};
ghost use Rattle.page_keys.specs.Puts.{early_refusal};

use crate::answers::PutError;
use crate::changes::Change;
use crate::hashing::bucket;
use crate::repeats::first_repeated;
use std::alloc::Global;
use std::collections::BTreeSet;
use tx_types::{Config, Memory};

/// Up to this many changes their pages are listed without a set.
const FEW: usize = 16;

/// The pages of the keys of a put, in ascending order, unless its changes alone are refused. `Memory` comes only where
/// they are not.
pub(crate) fn check_changes(
    alloc: Global,
    config: Config,
    changes: &[Change],
) -> Result<Vec<u32>, PutError>
    requires exist { 0 < config.logical }
    requires few { length changes.now < 2 ^ 32 }
    ensures pages { IfOk result (λ v. v.items ≡ pages_of config.logical changes.now) }
    ensures taken { IfOk result (λ v. early_refusal config changes.now ≡ None) }
    ensures refused { IfErr result (λ e. (early_refusal config changes.now ≡ Some e)
        ⊎ ((e ≡ PutError.Memory) × (early_refusal config changes.now ≡ None))) }
{
    if changes.is_empty() {
        return Err(PutError::Empty);
    }
    if let Some(refusal) = first_repeated(alloc, changes) {
        return Err(refusal);
    }
    let pages = pages(alloc, config.logical, changes);
    let count = match &pages {
        Ok(pages) => pages.len() as u32,
        Err(_) => count_pages(config.logical, changes),
    };
    if count > config.pending {
        return Err(PutError::Wide(count));
    }
    Ok(pages?)
}

/// The pages of the keys of changes, in ascending order.
fn pages(alloc: Global, logical: u32, changes: &[Change]) -> Result<Vec<u32>, Memory>
    requires { 0 < logical }
    ensures pages { IfOk result (λ v. v.items ≡ pages_of logical changes.now) }
    ensures few { IfOk result (λ v. length v.items ≤ logical) }
{
    if changes.len() > FEW {
        return Ok(list_pages(alloc, &page_set(alloc, logical, changes)?)?);
    }
    let mut pages = Vec::new(alloc);
    for change in changes {
        add_page(&mut pages, bucket(change.key.as_slice(), logical))?;
    }
    Ok(pages)
}

/// Adds a page among pages in ascending order, unless it is there.
fn add_page(pages: &mut Vec<u32>, page: u32) -> Result<(), Memory>
    ensures { OnOk result (pages.new.items ≡ with_page page pages.old.items) }
{
    for i in 0..pages.len() {
        let found = pages[i];
        if found == page {
            return Ok(());
        }
        if page < found {
            pages.insert(i, page)?;
            return Ok(());
        }
    }
    pages.push(page)?;
    Ok(())
}

/// The set of the pages of the keys of changes.
fn page_set(alloc: Global, logical: u32, changes: &[Change]) -> Result<BTreeSet<u32>, Memory>
    requires { 0 < logical }
    ensures { IfOk result (λ s. s.keys ≡ pages_of logical changes.now) }
{
    let mut pages = BTreeSet::new(alloc);
    for change in changes {
        pages.insert(bucket(change.key.as_slice(), logical))?;
    }
    Ok(pages)
}

/// The pages of a set, in ascending order.
fn list_pages(alloc: Global, pages: &BTreeSet<u32>) -> Result<Vec<u32>, Memory>
    ensures { IfOk result (λ v. v.items ≡ pages.now.keys) }
{
    let mut list = Vec::new(alloc);
    for page in pages {
        list.push(*page)?;
    }
    Ok(list)
}

/// How many pages the keys of changes fall in, without memory.
fn count_pages(logical: u32, changes: &[Change]) -> u32
    requires { 0 < logical }
    ensures { result ≡ length (pages_of logical changes.now) }
{
    let mut count = 0;
    for page in 0..logical {
        if is_touched(logical, changes, page) {
            count += 1;
        }
    }
    count
}

/// Whether the key of some change falls in a page.
fn is_touched(logical: u32, changes: &[Change], page: u32) -> bool
    requires { 0 < logical }
    ensures { result ≡ is_touched logical changes.now page }
{
    for change in changes {
        if bucket(change.key.as_slice(), logical) == page {
            return true;
        }
    }
    false
}

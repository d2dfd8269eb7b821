ghost use Rattle.std.specs.Prelude.{◌≡◌, ◌<◌, ℕ, count_by, IfOk};
ghost use Rattle.std.specs.List.Sorted.{IsNonDecreasingBy};
ghost use Rattle.page_keys.specs.Groups.{IsByPage, at_page, changes_of, puts_value};
ghost use Rattle.page_keys.specs.KeyMaps.{of_page};

use crate::changes::Change;
use crate::hashing::bucket;
use std::alloc::Global;
use tx_types::Memory;

/// The page that a key falls in, with the change of that key.
pub(crate) type Placed<'a> = (u32, &'a Change);

/// The changes in ascending order of the pages of their keys. Those of one page stay in their order.
pub(crate) fn by_page<'a>(
    alloc: Global,
    logical: u32,
    changes: &'a [Change],
) -> Result<Vec<Placed<'a>>, Memory>
    requires { 0 < logical }
    ensures { IfOk result (λ v. IsByPage logical changes.now v.items) }
{
    let mut placed = pair_with_pages(alloc, logical, changes)?;
    placed.sort_by_key(|one| one.0)?;
    Ok(placed)
}

/// The changes in their order, each with the page of its key.
fn pair_with_pages<'a>(
    alloc: Global,
    logical: u32,
    changes: &'a [Change],
) -> Result<Vec<Placed<'a>>, Memory>
    requires { 0 < logical }
    ensures { IfOk result (λ v. (page : ℕ) →
        changes_of (at_page page v.items) ≡ of_page logical page changes.now) }
{
    let mut placed = Vec::new(alloc);
    for change in changes {
        placed.push((bucket(change.key.as_slice(), logical), change))?;
    }
    Ok(placed)
}

/// How many changes put a value.
pub(crate) fn count_values(changes: &[Placed<'_>]) -> usize
    ensures { result ≡ count_by puts_value (changes_of changes.now) }
{
    let mut count = 0;
    for placed in changes {
        if placed.1.value.is_some() {
            count += 1;
        }
    }
    count
}

/// The changes of a page, among changes in ascending order of their pages.
pub(crate) fn of_page<'a, 'b>(placed: &'b [Placed<'a>], page: u32) -> &'b [Placed<'a>]
    requires { IsNonDecreasingBy (λ p. p.0) placed.now }
    ensures { result.now ≡ at_page page placed.now }
{
    let from = placed.partition_point(|one| one.0 < page);
    let to = placed.partition_point(|one| one.0 <= page);
    &placed[from..to]
}

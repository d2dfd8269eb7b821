ghost use Rattle.std.specs.List.{list_any};
ghost use Rattle.std.specs.Prelude.{◌≡◌, ◌≤◌, ◌==◌, ◌<◌, [], length, take, All};
ghost use Rattle.open_table.specs.PendingWrites.{owned_page};
ghost use Rattle.array_machine.specs.Submit.{is_of, or_else, empty, range, repeated, full};

use crate::pending_writes::Transaction;
use array_machine::SubmitError;
use tx_types::Batch;

/// The refusal of a batch that is empty, has a page which is not below the number of logical pages,
/// or has a page twice.
pub fn batch_refusal(batch: &Batch, logical: usize) -> Option<SubmitError>
    ensures { result ≡ or_else (empty batch.now.entries)
        (or_else (range logical batch.now.entries) (repeated [] batch.now.entries)) }
{
    if batch.is_empty() {
        return Some(SubmitError::Empty);
    }
    if let Some(refusal) = out_of_range(batch, logical) {
        return Some(refusal);
    }
    first_repeated(batch)
}

/// The refusal of the first page that is not below the number of logical pages.
fn out_of_range(batch: &Batch, logical: usize) -> Option<SubmitError>
    ensures { result ≡ range logical batch.now.entries }
{
    for i in 0..batch.len() {
        let page = batch.page(i);
        if page as usize >= logical {
            return Some(SubmitError::Range(page));
        }
    }
    None
}

/// The refusal of the first page that stood earlier in the batch.
fn first_repeated(batch: &Batch) -> Option<SubmitError>
    ensures { result ≡ repeated [] batch.now.entries }
{
    for i in 0..batch.len() {
        let page = batch.page(i);
        if stands_before(batch, i, page) {
            return Some(SubmitError::Repeated(page));
        }
    }
    None
}

/// Whether a page is among the first ones of a batch.
fn stands_before(batch: &Batch, count: usize, page: u32) -> bool
    requires { count ≤ length batch.now.entries }
    ensures { result ≡ list_any (is_of page) (take count batch.now.entries) }
{
    for k in 0..count {
        if batch.page(k) == page {
            return true;
        }
    }
    false
}

/// Whether an open transaction has this tag.
pub fn is_tag_used(all: &[Transaction], tag: u32) -> bool
    ensures { result ≡ list_any (λ o. o.tag == tag) all.now }
{
    all.iter().any(|o| o.tag == tag)
}

/// The refusal of the first page of a batch that belongs to an open transaction.
pub fn first_overlap(batch: &Batch, owners: &[Option<u32>]) -> Option<SubmitError>
    requires { All (λ w. w.page < length owners.now) batch.now.entries }
    ensures { result ≡ owned_page owners.now batch.now.entries }
{
    for i in 0..batch.len() {
        let page = batch.page(i);
        if let Some(tag) = owners[page as usize] {
            return Some(SubmitError::Overlap { page, tag });
        }
    }
    None
}

/// The refusal of a batch with more pages than may be pending yet.
pub fn too_many(batch: &Batch, free: u32) -> Option<SubmitError>
    ensures { result ≡ full free batch.now.entries }
{
    (batch.len() > free as usize).then_some(SubmitError::Full { free })
}

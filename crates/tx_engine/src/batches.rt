ghost use Rattle.std.specs.Prelude.{◌≡◌, ◌<◌, ◌≤◌, false, length, vec_capacity};
ghost use Rattle.flash_model.specs.Operations.{fire};
ghost use Rattle.tx_engine.specs.BatchCalls.{CanAcknowledgeAll, CanLoadAll, CanMove, CanNoteEach, CanWriteAll, AcknowledgesAll, LoadsEach, StepsTogether, MovesFirst, NotesEach, WritesAll, finished_by, is_due_clear};
ghost use Rattle.tx_engine.specs.Batches.{chosen_in, jobs_of};
ghost use Rattle.tx_engine.specs.Calls.{CanAdvance, IsReady};
ghost use Rattle.open_table.specs.OpenTransactionsState.{transaction_at};
ghost use Rattle.tx_engine.specs.declared.jobs.TheConstants.{MOST_DIES};

use crate::advancing::{acknowledge_page, advance, must_program};
use crate::jobs::Job;
use crate::settling::note_next;
use crate::store::Store;
use crate::writing::next_record;
use array_machine::{Moved, Progress};
use collector::theorems;
use flash_model::{Broken, Wide, loads_come_in_order};
use open_table::OpenTransactions;
use record_list::CommitRule;

/// Open transactions of a settled device go on together.
pub(crate) fn step_together<F: Wide, R: CommitRule>(
    store: &mut Store<F, R>,
    transactions: &mut OpenTransactions,
    jobs: &mut Vec<Job>,
) -> Result<Moved, Broken>
    requires can { CanMove F.state R.protocol store.old transactions.old }
    requires room { MOST_DIES ≤ vec_capacity jobs.old }
    ensures moves { StepsTogether F.state store.old store.new transactions.old transactions.new result }
    ensures room { vec_capacity jobs.old ≤ vec_capacity jobs.new }
{
    if transactions.count() == 0 {
        return Ok(Moved {
            moved: 0,
            finished: 0,
        });
    }
    plan(store, transactions, jobs);
    if jobs.is_empty() {
        return step_first(store, transactions);
    }
    write_all(store, transactions, jobs)?;
    Ok(acknowledge_all(store, transactions, jobs.len() as u32))
}

/// The programs of the first transactions that are ready, each in a die of its own.
fn plan<F: Wide, R: CommitRule>(
    store: &mut Store<F, R>,
    transactions: &OpenTransactions,
    jobs: &mut Vec<Job>,
)
    requires ready { IsReady F.state R.protocol store.old transactions.now }
    requires room { MOST_DIES ≤ vec_capacity jobs.old }
    ensures jobs { jobs.new.items ≡ jobs_of store.old.noted
        (chosen_in store.old.noted store.old.table transactions.now.all) }
    ensures stays { store.new ≡ store.old }
    ensures room { vec_capacity jobs.old ≤ vec_capacity jobs.new }
{
    jobs.clear();
    for die in 0..store.dies() {
        let Some(slot) = store.slot_in(die) else {
            continue;
        };
        let at = jobs.len();
        if at == transactions.count() as usize || !is_ready(store, transactions, at) {
            return;
        }
        let rec = next_record(store, transactions, at);
        jobs.push(Job { slot, rec }).unwrap();
    }
}

/// Whether the next page of the transaction at an index is to be written, and no record must go before.
fn is_ready<F: Wide, R: CommitRule>(
    store: &Store<F, R>,
    transactions: &OpenTransactions,
    at: usize,
) -> bool
    requires ready { IsReady F.state R.protocol store.now transactions.now }
    requires at { at < length transactions.now.all }
    ensures { result ≡ is_due_clear store.now.noted (transaction_at transactions.now at) }
{
    if !must_program(transactions, at) {
        return false;
    }
    let name = transactions.name(at, transactions.done_count(at));
    store.index().must_go(name.page, name.version).is_none()
}

/// The first open transaction of a settled device takes a step.
fn step_first<F: Wide, R: CommitRule>(
    store: &mut Store<F, R>,
    transactions: &mut OpenTransactions,
) -> Result<Moved, Broken>
    requires { CanAdvance F.state R.protocol store.old transactions.old 0 }
    ensures { MovesFirst F.state store.old store.new transactions.old transactions.new result }
{
    let progress = advance(store, transactions, 0)?;
    Ok(Moved {
        moved: 1,
        finished: one_if_done(progress),
    })
}

/// One where a transaction is done, else none.
fn one_if_done(progress: Progress) -> u32
    ensures { result ≡ finished_by progress }
{
    match progress {
        Progress::Done => 1,
        Progress::Wrote { .. } => 0,
    }
}

/// Writes the next page of each of the first transactions at once, and notes their records.
fn write_all<F: Wide, R: CommitRule>(
    store: &mut Store<F, R>,
    transactions: &mut OpenTransactions,
    jobs: &[Job],
) -> Result<(), Broken>
    requires { CanWriteAll F.state R.protocol store.old transactions.old jobs.now }
    ensures { WritesAll F.state store.old store.new transactions.old transactions.new jobs.now result }
{
    theorems::image_is_sound::<R>();
    theorems::noting_keeps::<R>();
    theorems::array_stays::<R>();
    load_all(store, transactions, jobs);
    store.fire()?;
    note_all(store, transactions, jobs);
    Ok(())
}

/// Loads each of these programs.
fn load_all<F: Wide, R: CommitRule>(
    store: &mut Store<F, R>,
    transactions: &OpenTransactions,
    jobs: &[Job],
)
    requires { CanLoadAll F.state store.old transactions.now jobs.now }
    ensures { LoadsEach F.state F.registers store.old store.new transactions.now jobs.now }
{
    loads_come_in_order();
    store.clear_registers();
    for at in 0..jobs.len() {
        store.load(
            jobs[at],
            transactions.bytes(at, transactions.done_count(at)),
        );
    }
}

/// Notes each of these records.
fn note_all<F: Wide, R: CommitRule>(
    store: &mut Store<F, R>,
    transactions: &mut OpenTransactions,
    jobs: &[Job],
)
    requires { CanNoteEach store.old.noted store.old.table transactions.old 0 jobs.now }
    ensures { NotesEach store.old store.new transactions.old transactions.new jobs.now }
{
    for at in 0..jobs.len() {
        store.note(jobs[at]);
        note_next(transactions, at);
    }
}

/// Moves the first `moved` transactions, whose next pages are noted, on without the flash.
fn acknowledge_all<F: Wide, R: CommitRule>(
    store: &mut Store<F, R>,
    transactions: &mut OpenTransactions,
    moved: u32,
) -> Moved
    requires { CanAcknowledgeAll F.state R.protocol store.old transactions.old moved }
    ensures { AcknowledgesAll F.state store.old store.new transactions.old transactions.new moved result }
{
    let mut gone = 0;
    for turn in 0..moved {
        let at = (turn - gone) as usize;
        gone += one_if_done(acknowledge_page(store, transactions, at));
    }
    Moved {
        moved,
        finished: gone,
    }
}

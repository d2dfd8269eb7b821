ghost use Rattle.std.specs.Prelude.{◌≡◌, ℕ, false, Err, IfOk};
ghost use Rattle.tx_engine.specs.Always.{HoldsAlways};
ghost use Rattle.cut_replay.specs.Mounted.{ServesHere};
ghost use Rattle.array_runs.specs.Run.{submit_reply, step_reply, abort_reply, collect_reply};

use flash_model::Flash;
use host_protocol::{Command, Reply};
use record_list::CommitRule;
use std::alloc::Global;
use tx_engine::{
    Aborted, Collected, Device, Fault, Progress, StepError, SubmitError, device_facts,
};
use tx_types::{Batch, Bytes, Memory};
use verdict_report::explain;

/// Opens a transaction.
pub fn write<F: Flash, R: CommitRule>(device: &mut Device<F, R>, tag: u32, batch: &Batch) -> Reply
    requires page { batch.now.page_bytes ≡ device.old.config.page_bytes }
    requires always { HoldsAlways F.state R.protocol device.old }
    ensures serves { ServesHere F.state (Command.Write tag batch.now) device.old device.new result }
    ensures always { HoldsAlways F.state R.protocol device.new }
{
    device.config();
    let answer = device.submit(tag, batch);
    device_facts(device);
    match answer {
        Ok(()) => Reply::Opened(tag, batch.len() as u32),
        Err(refusal) => submit_reply(tag, refusal),
    }
}

/// The reply of a refusal.
fn submit_reply(tag: u32, refusal: SubmitError) -> Reply
    ensures { (pages : ℕ) → result ≡ submit_reply tag pages (Err refusal) }
{
    match refusal {
        SubmitError::Empty => Reply::RefusedEmpty,
        SubmitError::Range(page) => Reply::RefusedRange(page),
        SubmitError::Repeated(page) => Reply::RefusedRepeated(page),
        SubmitError::Tag => Reply::RefusedTag(tag),
        SubmitError::Overlap { page, tag } => Reply::RefusedOverlap(page, tag),
        SubmitError::Full { free } => Reply::RefusedFull(free),
        SubmitError::Spent(page) => Reply::RefusedSpent(page),
    }
}

/// Goes on with a transaction by a page.
pub fn step<F: Flash, R: CommitRule>(device: &mut Device<F, R>, tag: u32) -> Reply
    requires { HoldsAlways F.state R.protocol device.old }
    ensures serves { ServesHere F.state (Command.Step tag) device.old device.new result }
    ensures always { HoldsAlways F.state R.protocol device.new }
{
    device.config();
    let answer = device.step(tag);
    device_facts(device);
    step_reply(tag, answer)
}

/// The reply of a step.
pub fn step_reply(tag: u32, answer: Result<Progress, StepError>) -> Reply
    ensures { result ≡ step_reply tag answer }
{
    match answer {
        Ok(Progress::Wrote { done, all }) => Reply::Wrote(tag, done, all),
        Ok(Progress::Done) => Reply::Done(tag),
        Err(StepError::Unknown) => Reply::Unknown(tag),
        Err(StepError::Fault) => Reply::Fault,
    }
}

/// Gives a transaction up.
pub fn abort<F: Flash, R: CommitRule>(device: &mut Device<F, R>, tag: u32) -> Reply
    requires { HoldsAlways F.state R.protocol device.old }
    ensures serves { ServesHere F.state (Command.Abort tag) device.old device.new result }
    ensures always { HoldsAlways F.state R.protocol device.new }
{
    let answer = device.abort(tag);
    device_facts(device);
    abort_reply(tag, answer)
}

/// The reply of an abort.
fn abort_reply(tag: u32, answer: Result<Aborted, StepError>) -> Reply
    ensures { result ≡ abort_reply tag answer }
{
    match answer {
        Ok(Aborted::Gone) => Reply::Aborted(tag),
        Ok(Aborted::Late) => Reply::Late(tag),
        Err(StepError::Unknown) => Reply::Unknown(tag),
        Err(StepError::Fault) => Reply::Fault,
    }
}

/// Wins a block back.
pub fn collect<F: Flash, R: CommitRule>(device: &mut Device<F, R>) -> Reply
    requires { HoldsAlways F.state R.protocol device.old }
    ensures serves { ServesHere F.state Command.Collect device.old device.new result }
    ensures always { HoldsAlways F.state R.protocol device.new }
{
    let answer = device.collect();
    device_facts(device);
    collect_reply(answer)
}

/// The reply of a collection.
fn collect_reply(answer: Result<Collected, Fault>) -> Reply
    ensures { result ≡ collect_reply answer }
{
    match answer {
        Ok(Collected::One) => Reply::Collected,
        Ok(Collected::Nothing) => Reply::Nothing,
        Err(Fault) => Reply::Fault,
    }
}

/// Tells the numbers of a device.
pub fn stats<F: Flash, R: CommitRule>(device: &Device<F, R>) -> Reply
    requires kept { device.now.dropped ≡ false }
    ensures { ServesHere F.state Command.Stats device.now device.now result }
{
    Reply::Stats(device.stats())
}

/// Tells the verdict on each page.
pub fn report<F: Flash, R: CommitRule>(
    alloc: Global,
    device: &Device<F, R>,
) -> Result<Reply, Memory>
    requires kept { device.now.dropped ≡ false }
    ensures { IfOk result (λ r. ServesHere F.state Command.Explain device.now device.now r) }
{
    let logical = device_facts(device).logical;
    let found = device.noted_records()?;
    let mut text = Vec::new(alloc);
    explain::<R>(alloc, &found, logical, &mut text)?;
    let mut bytes = Bytes::new(alloc);
    bytes.extend(&text)?;
    Ok(Reply::Report(bytes))
}

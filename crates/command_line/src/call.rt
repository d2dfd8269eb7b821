ghost use Rattle.std.specs.Prelude.{◌≡◌};
ghost use Rattle.std.specs.Option.{option_map};
ghost use Rattle.durable_folder.specs.Histories.{Rests};
ghost use Rattle.desk_io.specs.Desk.{Rose};
ghost use Rattle.desk_io.specs.Disk.{FindsBoth};
ghost use Rattle.program_base.specs.Statuses.{code};
ghost use Rattle.desk_tasks.specs.Stops.{Works, file_saved, output_of};
ghost use Rattle.command_line.specs.Disk.{DeliversOnDisk, EndsOnDisk, PutsFile, PutsOnDisk};
ghost use Rattle.command_line.specs.Top.{Delivers, EndsCall, IsExact, LeavesFiles};
ghost use Rattle.command_line.specs.Words.{request_by};

use crate::words::{Task, parse_words};
use desk_io::{Desk, SinkError};
use desk_tasks::{
    Failure, File, MAX_TRANSACTIONS, Output, Refusal, do_check, do_compare, do_drive, do_explain,
    do_format, do_keys, do_retire, do_run, do_try,
};
use program_base::{ImageRefusal, Status, desk_fault, no_memory, refuse, say};
use std::alloc::Global;

// What the clauses cite by name.
const _: () = prove!(host_protocol::MAX_COMMANDS == 65536 && host_protocol::MAX_ENTRIES == 262144);

const _: () = prove!(host_protocol::MAX_FILE_BYTES == desk_io::MAX_FILE_BYTES);

const _: () = prove!(MAX_TRANSACTIONS == 100000);

/// Does what the words ask for, and answers the status: 0 where it is done, 1 for words that are not
/// in the table, 2 for a file that is missing, 3 for bytes that are no image file, 4 for a line that
/// is no command, 5 for a fault of the desk, 6 for want of memory, 7 for an image that is not sound,
/// 8 for numbers of no device, 9 for a file that is too long, 11 for an image of which a page is no bucket
/// of keys, 12 for a text that is not the report on an image, 13 for images of different arrays, and 14 for a
/// block that is not there or that nothing is left to replace.
pub fn top<D: Desk>(alloc: Global, words: &[String], desk: &mut D) -> u8
    ensures ends { EndsCall (request_by words.now) (D.state desk.old) (D.state desk.new) result }
    ensures exact { IsExact (request_by words.now) (D.state desk.old) (D.state desk.new) result }
    ensures fault { result ≡ 5 → Rose (D.state desk.old).faults (D.state desk.new).faults }
    ensures files { LeavesFiles (request_by words.now) (D.state desk.old) (D.state desk.new) result }
    ensures disk { EndsOnDisk D.state D.disk (request_by words.now) desk.old desk.new result }
{
    run(alloc, words, desk).code()
}

/// The same, by how it ends.
fn run<D: Desk>(alloc: Global, words: &[String], desk: &mut D) -> Status
    ensures ends { EndsCall (request_by words.now) (D.state desk.old) (D.state desk.new) (code result) }
    ensures disk { EndsOnDisk D.state D.disk (request_by words.now) desk.old desk.new (code result) }
{
    match work(alloc, words, desk) {
        Ok(product) => deliver(desk, &product),
        Err(Failure::Refused(refusal)) => refuse(desk, refusal.line(alloc), refusal.status()),
        Err(Failure::Fault) => desk_fault(desk),
        Err(Failure::Memory) => no_memory(desk),
    }
}

/// What the work that the words ask for gives.
fn work<'a, D: Desk>(
    alloc: Global,
    words: &'a [String],
    desk: &mut D,
) -> Result<Output<'a>, Failure<'a>>
    ensures works { Works (request_by words.now) (FindsBoth (D.state desk.old) (D.disk desk.old))
        (D.state desk.old) (D.state desk.new) result }
    ensures disk { Rests (D.disk desk.old) (D.disk desk.new) }
{
    match parse_words(words) {
        Some(Task::Try { commands }) => do_try(alloc, commands, desk),
        Some(
            Task::Format {
                image,
                config,
                allowance,
            },
        ) => do_format(alloc, image, config, allowance),
        Some(Task::Run { image, commands }) => do_run(alloc, image, commands, desk),
        Some(Task::Explain { image }) => do_explain(alloc, image, desk),
        Some(
            Task::Drive {
                start,
                count,
                protocol,
            },
        ) => do_drive(alloc, start, count, protocol),
        Some(Task::Check { image, report }) => do_check(alloc, image, report, desk),
        Some(Task::Compare { first, second }) => do_compare(alloc, first, second, desk),
        Some(Task::Keys { image, script }) => do_keys(alloc, image, script, desk),
        Some(Task::Retire { image, block }) => do_retire(alloc, image, block, desk),
        None => Err(Failure::Refused(Refusal::Image(ImageRefusal::BadWords))),
    }
}

/// Saves a file, if there is one.
fn put<D: Desk>(desk: &mut D, saved: &Option<File>) -> Result<(), SinkError>
    ensures puts { PutsFile (option_map file_saved saved.now) result (D.state desk.old) (D.state desk.new) }
    ensures disk { PutsOnDisk (option_map file_saved saved.now) result (D.disk desk.old) (D.disk desk.new) }
{
    match saved {
        Some(file) => desk.save(file.name, &file.bytes),
        None => Ok(()),
    }
}

/// Saves a file, if there is one, and then says a text. The status is `Done` where both are done.
fn deliver<D: Desk>(desk: &mut D, product: &Output) -> Status
    ensures delivers { Delivers (D.state desk.old) (D.state desk.new) (output_of product.now) 0 (code result) }
    ensures disk { DeliversOnDisk D.state D.disk (output_of product.now) desk.old desk.new (code result) }
{
    match put(desk, &product.saved) {
        Ok(()) => say(desk, product.text.as_slice(), Status::Done),
        Err(SinkError::Failed) => desk_fault(desk),
        Err(SinkError::Memory) => no_memory(desk),
    }
}

//! One history of commands with a cut, a fault or a failed read armed in every place: the replies are those of a small
//! array of pages in which a transaction changes all its pages at once. And after each transaction that is done power
//! is cut, and the pages are read.
use crate::calls::is_done;
use crate::known::Known;
use crate::words::{halves, line_at, number_of};
use desk_io::MemDesk;
use std::alloc::Global;

/// No byte is written twice, so that it is seen whose pages are there. What a fault leaves open is finished, aborted or
/// collected over by a later command, which finds nothing open where all went well.
const HISTORY: &str = "\
    write 1 0=11 1=12\n\
    finish 1\n\
    finish 1\n\
    write 2 1=21 2=22\n\
    step 2\n\
    write 3 0=31\n\
    finish 3\n\
    abort 3\n\
    read 1\n\
    step 2\n\
    read 2\n\
    write 4 2=41 3=42\n\
    step 4\n\
    abort 4\n\
    collect\n\
    read 2\n\
    write 5 3=51 0=52 2=53\n\
    finish 5\n\
    finish 2\n\
    stats";

/// All pages are read.
const READS: &str = "read 0\nread 1\nread 2\nread 3";

/// Power is cut at the next program, which is that of another transaction, and all pages are read.
const CUT: &str =
    "badread 4294967295\nwrite 9 0=99\ncut 1 none\nfinish 9\nread 0\nread 1\nread 2\nread 3";

/// A line for each kind of arm under each protocol, on a device of ten slots: how this is formatted, what stands before
/// the arm's number and behind it, how many of the first numbers come due for sure, and how many replies are `cut` and
/// how many are `fault` where one does. The history has nine programs, and two reads of pages that were not read
/// before.
const ARMS: &str = "\
    format d.img scc 16 2 5 1 4 3;cut ; none;9;1;0\n\
    format d.img scc 16 2 5 1 4 3;cut ; all;9;1;0\n\
    format d.img scc 16 2 5 1 4 3;cut ; bad;9;1;0\n\
    format d.img scc 16 2 5 1 4 3;fault ; none;9;0;1\n\
    format d.img scc 16 2 5 1 4 3;fault ; all;9;0;1\n\
    format d.img scc 16 2 5 1 4 3;fault ; bad;9;0;1\n\
    format d.img scc 16 2 5 1 4 3;badread ;;2;0;1\n\
    format d.img bpcc 16 2 5 1 4 3;cut ; none;9;1;0\n\
    format d.img bpcc 16 2 5 1 4 3;cut ; all;9;1;0\n\
    format d.img bpcc 16 2 5 1 4 3;cut ; bad;9;1;0\n\
    format d.img bpcc 16 2 5 1 4 3;fault ; none;9;0;1\n\
    format d.img bpcc 16 2 5 1 4 3;fault ; all;9;0;1\n\
    format d.img bpcc 16 2 5 1 4 3;fault ; bad;9;0;1\n\
    format d.img bpcc 16 2 5 1 4 3;badread ;;2;0;1";

/// Whether a device is formatted, the commands are run, and then all pages are read on the image that was saved.
fn is_run(alloc: Global, format: &str, text: &str, desk: &mut MemDesk) -> bool {
    desk.put_file("c.txt", text.as_bytes()).is_ok()
        && desk.put_file("e.txt", READS.as_bytes()).is_ok()
        && is_done(alloc, format, desk)
        && is_done(alloc, "run d.img c.txt", desk)
        && is_done(alloc, "run d.img e.txt", desk)
}

/// All that was said on a desk.
fn said_on(desk: &MemDesk) -> &str {
    str::from_utf8(desk.said()).unwrap_or("")
}

/// Whether the replies to commands are possible, the first of which stands at a place.
fn are_possible<'a>(text: &'a str, said: &str, first: usize, known: &mut Known<'a>) -> bool {
    let mut at = first;
    for line in text.split('\n') {
        if !known.take(line, line_at(said, at)) {
            return false;
        }
        at = at.saturating_add(1);
    }
    true
}

/// Whether a blank device may give the replies to commands, and to the reads after them. The first line is that of the
/// format.
fn are_taken<'a>(text: &'a str, said: &str, known: &mut Known<'a>) -> bool {
    let count = text.split('\n').count();
    if !said.ends_with('\n') || said.split('\n').count() != count.saturating_add(6) {
        return false;
    }
    if !are_possible(text, said, 1, known) {
        return false;
    }
    known.reopen();
    are_possible(READS, said, count.saturating_add(1), known)
}

/// The same of any blank device.
fn is_possible(alloc: Global, text: &str, said: &str) -> bool {
    match Known::new(alloc) {
        Some(known) => {
            let mut known = known;
            are_taken(text, said, &mut known)
        }
        None => false,
    }
}

/// Whether the pages are there after commands that end with a cut, on a desk of their own.
fn stands_on(alloc: Global, format: &str, text: &str, desk: &mut MemDesk) -> bool {
    is_run(alloc, format, text, desk)
        && said_on(desk).contains("\nopen 9 1\narmed\ncut\n")
        && is_possible(alloc, text, said_on(desk))
}

/// Whether the pages are there after some commands, each with its line feed, and a cut.
fn stands_after_a_cut(alloc: Global, format: &str, done: &str) -> bool {
    match format!(in alloc; "{done}{CUT}") {
        Ok(text) => {
            let mut desk = MemDesk::new(alloc, Vec::new(alloc));
            let stands = stands_on(alloc, format, text.as_str(), &mut desk);
            drop(desk);
            stands
        }
        Err(_) => false,
    }
}

/// Whether the pages are there after a cut behind each command by which a transaction is done.
fn stands_behind_each(alloc: Global, format: &str, text: &str, said: &str) -> bool {
    let mut end: usize = 0;
    let mut at: usize = 0;
    for line in text.split('\n') {
        end = end.saturating_add(line.len()).saturating_add(1);
        at = at.saturating_add(1);
        let reply = line_at(said, at);
        let changes = reply.starts_with("done") || reply.starts_with("late");
        if changes && !stands_after_a_cut(alloc, format, text.get(..end).unwrap_or(text)) {
            return false;
        }
    }
    true
}

/// How many replies are this word.
fn count_of(said: &str, word: &str) -> usize {
    let mut count: usize = 0;
    for line in said.split('\n') {
        if line == word {
            count = count.saturating_add(1);
        }
    }
    count
}

/// How many replies to commands are `cut` and how many are `fault` on a desk, or nothing where a reply is not possible.
fn counts_on(
    alloc: Global,
    format: &str,
    text: &str,
    desk: &mut MemDesk,
) -> Option<(usize, usize)> {
    if !is_run(alloc, format, text, desk) {
        return None;
    }
    let said = said_on(desk);
    if is_possible(alloc, text, said) && stands_behind_each(alloc, format, text, said) {
        Some((count_of(said, "cut"), count_of(said, "fault")))
    } else {
        None
    }
}

/// The same of the history with an arm.
fn counts_with(alloc: Global, format: &str, arm: &str) -> Option<(usize, usize)> {
    match format!(in alloc; "{arm}\n{HISTORY}") {
        Ok(text) => {
            let mut desk = MemDesk::new(alloc, Vec::new(alloc));
            let counts = counts_on(alloc, format, text.as_str(), &mut desk);
            drop(desk);
            counts
        }
        Err(_) => None,
    }
}

/// The same of an arm of this number.
fn counts_at(
    alloc: Global,
    format: &str,
    arm: (&str, &str),
    number: usize,
) -> Option<(usize, usize)> {
    let (front, behind) = arm;
    match format!(in alloc; "{front}{number}{behind}") {
        Ok(arm) => counts_with(alloc, format, arm.as_str()),
        Err(_) => None,
    }
}

/// Whether a kind of arms is answered in each place as its line says. A later arm than one that does not come due does
/// not come due either.
fn is_right(alloc: Global, line: &str) -> bool {
    let (format, rest) = halves(line, ";");
    let (front, rest) = halves(rest, ";");
    let (behind, rest) = halves(rest, ";");
    let (due, counts) = halves(rest, ";");
    let (cuts, faults) = halves(counts, ";");
    let wanted = (number_of(cuts), number_of(faults));
    for number in 1..33 {
        match counts_at(alloc, format, (front, behind), number) {
            Some((0, 0)) => return number > number_of(due),
            got if got == Some(wanted) => {}
            _ => return false,
        }
    }
    true
}

#[test]
fn each_arm_in_each_place(rt: HostRuntime) {
    for line in ARMS.split('\n') {
        assert!(rt; is_right(rt.alloc(), line), "{line}");
    }
}

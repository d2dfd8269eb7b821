//! Generated lists of commands, and the summaries of replies.
use crate::command_lines::lines_of;
use crate::protocol_lines::reply_of;
use crate::samples::{halves, has_version, number, number_at, protocol_of, version, word};
use crate::texts::{are_bytes_of, bytes_of};
use drive_gen::{RunningTally, commands, summary};
use host_protocol::Command;
use std::alloc::Global;
use tx_types::{Config, Protocol};

/// The device that the program drives.
const USUAL: Config = Config {
    protocol: Protocol::Scc,
    page_bytes: 16,
    pages_per_block: 4,
    blocks_per_die: 4,
    dies: 2,
    logical: 20,
    pending: 7,
};

/// Fewer pages than a transaction may have.
const FEW_PAGES: Config = Config {
    protocol: Protocol::Bpcc,
    page_bytes: 32,
    pages_per_block: 4,
    blocks_per_die: 4,
    dies: 2,
    logical: 2,
    pending: 9,
};

/// More than 256 pages, of which one may be pending.
const MANY_PAGES: Config = Config {
    protocol: Protocol::Bpcc,
    page_bytes: 16,
    pages_per_block: 16,
    blocks_per_die: 16,
    dies: 2,
    logical: 300,
    pending: 1,
};

/// The list of a device and a start, `usual 1 6`.
fn made(alloc: Global, text: &str) -> Option<Vec<Command>> {
    let config = match word(text, 0) {
        "usual" => USUAL,
        "few" => FEW_PAGES,
        _ => MANY_PAGES,
    };
    match (version(word(text, 1)), number_at(text, 2)) {
        (Some(start), Some(count)) => match config.check() {
            Ok(_) => commands(alloc, start, count, config).ok(),
            Err(_) => None,
        },
        _ => None,
    }
}

/// A number that all bytes of a text change.
fn digest(text: &str) -> u64 {
    let mut digest: u64 = 0;
    for byte in text.bytes() {
        digest = digest
            .wrapping_mul(1099511628211)
            .wrapping_add(u64::from(byte) + 1);
    }
    digest
}

/// What is generated and summed up.
pub const DRIVES: &str = "\
    # Lists of a device from a start on, of so many transactions: how many commands there are, and a sum over their \
    lines, as a second program makes them.\n\
    made usual 1 0 => 61 9929810481322906342\n\
    made usual 18446744073709551557 5 => 71 11779533443064827245\n\
    made usual 7 200 => 489 13186946179926253153\n\
    made usual 12345678901234567890 1000 => 2161 17910442465952835765\n\
    made usual 0 20000 => 41790 7449287161162735624\n\
    made few 99 300 => 631 10142257825993847075\n\
    made many 3 300 => 1508 997634164607678974\n\
    # The commands from the 41st to the 54th.\n\
    lines usual 1 6 => write 1 13=cc000000000000000000000000000000 14=e6000000000000000000000000000000 \
    15=5a000000000000000000000000000000;finish 1;write 2 2=29000000000000000000000000000000 \
    3=ba000000000000000000000000000000 4=fb000000000000000000000000000000;step 2;abort 2;write 3 \
    0=ba000000000000000000000000000000;finish 3;write 4 15=d4000000000000000000000000000000 \
    16=35000000000000000000000000000000;finish 4;write 5 6=62000000000000000000000000000000 \
    7=3d000000000000000000000000000000;finish 5;write 6 12=51000000000000000000000000000000;finish 6;read 0;\n\
    # Summaries: of a write of every page, a read of every page and a last question for the numbers, to a list of \
    the usual device; of all replies; and of none.\n\
    summary scc 1 0 61 | open 0 1;done 0;open 0 1;done 0;open 0 1;done 0;open 0 1;done 0;open 0 1;done 0;open 0 1;\
    done 0;open 0 1;done 0;open 0 1;done 0;open 0 1;done 0;open 0 1;done 0;open 0 1;done 0;open 0 1;done 0;open 0 1;\
    done 0;open 0 1;done 0;open 0 1;done 0;open 0 1;done 0;open 0 1;done 0;open 0 1;done 0;open 0 1;done 0;open 0 1;\
    done 0;page 0 01000000000000000000000000000000;page 1 02000000000000000000000000000000;page 2 \
    03000000000000000000000000000000;page 3 04000000000000000000000000000000;page 4 \
    05000000000000000000000000000000;page 5 06000000000000000000000000000000;page 6 \
    07000000000000000000000000000000;page 7 08000000000000000000000000000000;page 8 \
    09000000000000000000000000000000;page 9 0a000000000000000000000000000000;page 10 \
    0b000000000000000000000000000000;page 11 0c000000000000000000000000000000;page 12 \
    0d000000000000000000000000000000;page 13 0e000000000000000000000000000000;page 14 \
    0f000000000000000000000000000000;page 15 10000000000000000000000000000000;page 16 \
    11000000000000000000000000000000;page 17 12000000000000000000000000000000;page 18 \
    13000000000000000000000000000000;page 19 14000000000000000000000000000000;stats written 20 open 0 pending 0 \
    programs 20 erases 0 garbage 0; => >drive scc start 1 count 0 commands 61 done 20 aborted 0 cut 0 refused 0 \
    unknown 0 programs 20 erases 0 sum 210;\n\
    summary bpcc 18446744073709551615 100000 2 | stats written 1 open 0 pending 0 programs 7 erases 8 garbage 9;\
    open 1 2;wrote 1 1 2;done 1;armed;cut;refused empty;refused overlap 5 1;refused full 7;unknown 3;unknown 4;\
    unknown 5;unknown 6;aborted 2;aborted 3;late 2;done 9;done 0;done 4;done 5;fault;collected;nothing;blank 3;page \
    0 00ff10a9;page 19 ffffffffffffffffffffffffffffffff;cut;stats written 20 open 3 pending 5 programs \
    18446744073709551615 erases 18446744073709551614 garbage 6;page 7 0102030405060708090a0b0c0d0e0f10; => >drive \
    bpcc start 18446744073709551615 count 100000 commands 2 done 5 aborted 2 cut 2 refused 3 unknown 4 programs \
    18446744073709551615 erases 18446744073709551614 sum 4656;\n\
    summary scc 0 4294967295 0 |  => >drive scc start 0 count 4294967295 commands 0 done 0 aborted 0 cut 0 refused \
    0 unknown 0 programs 0 erases 0 sum 0;\n\
    # Replies that are counted one by one, by their numbers. A report without a line feed takes the next line with it.\n\
    running scc 5 3 | 3 3 22 21 4 11 6 19 14 23 3 24 3 22 3 => >drive scc start 5 count 3 commands 15 done 4 aborted 1 \
    cut 1 refused 2 unknown 1 programs 18446744073709551615 erases 10 sum 682;\n\
    running bpcc 0 0 | 24 => >drive bpcc start 0 count 0 commands 1 done 0 aborted 0 cut 0 refused 0 unknown 0 programs \
    0 erases 0 sum 0;\n\
    running bpcc 1 1 | 24 21 0 1 2 5 7 8 9 10 12 13 15 16 17 18 20 => >drive bpcc start 1 count 1 commands 17 done 0 \
    aborted 0 cut 0 refused 5 unknown 0 programs 0 erases 0 sum 0;";

/// Whether commands are so many, and their lines have this sum.
fn has_sum(alloc: Global, list: &[Command], want: &str) -> bool {
    match lines_of(alloc, list) {
        Ok(lines) => {
            has_version(want, 0, list.len() as u64) && has_version(want, 1, digest(lines.as_str()))
        }
        Err(_) => false,
    }
}

/// Whether the commands from the 41st to the 54th have these lines.
fn has_lines(alloc: Global, list: &[Command], want: &str) -> bool {
    let part = list.get(40..54).unwrap_or(&[]);
    match lines_of(alloc, part) {
        Ok(lines) => are_bytes_of(want, lines.as_bytes()),
        Err(_) => false,
    }
}

/// Whether the list of a line has the sum, or the lines, that the line says.
pub fn is_list_right(alloc: Global, kind: &str, line: &str) -> bool {
    let (text, want) = halves(line, " => ");
    match made(alloc, text) {
        Some(list) => {
            if kind == "made" {
                has_sum(alloc, &list, want)
            } else {
                has_lines(alloc, &list, want)
            }
        }
        None => false,
    }
}

/// Whether replies to the first of some commands are summed up so. The head has the protocol, the start, the number of
/// transactions, and that of the commands.
fn is_summed_up(alloc: Global, list: &[Command], head: &str, replies: &[u8], want: &str) -> bool {
    let protocol = protocol_of(word(head, 0));
    let list = match number_at(head, 3) {
        Some(length) => list.get(..length as usize).unwrap_or(&[]),
        None => &[],
    };
    let mut out = Vec::new(alloc);
    match (version(word(head, 1)), number_at(head, 2)) {
        (Some(start), Some(count)) => {
            out.push(b'>').is_ok()
                && summary(alloc, start, count, protocol, list, replies, &mut out).is_ok()
                && are_bytes_of(want, &out)
        }
        _ => false,
    }
}

/// Whether the replies of a line are summed up as the line says.
pub fn is_summary_right(alloc: Global, line: &str) -> bool {
    let (given, want) = halves(line, " => ");
    let (head, replies) = halves(given, " | ");
    match (bytes_of(alloc, replies), made(alloc, "usual 1 0")) {
        (Ok(bytes), Some(list)) => is_summed_up(alloc, &list, head, &bytes, want),
        _ => false,
    }
}

/// Counts the replies of these numbers. Returns whether there was memory for each.
fn count_replies(alloc: Global, numbers: &str, tally: &mut RunningTally) -> bool {
    for digits in numbers.split(' ') {
        let is_counted = match reply_of(alloc, number(digits).unwrap_or(0)) {
            Some(reply) => tally.count(&reply).is_ok(),
            None => false,
        };
        if !is_counted {
            return false;
        }
    }
    true
}

/// Whether what was counted is summed up so. The head has the protocol, the start and the number of transactions.
fn is_total(alloc: Global, tally: &mut RunningTally, head: &str, want: &str) -> bool {
    let protocol = protocol_of(word(head, 0));
    let mut out = Vec::new(alloc);
    match (version(word(head, 1)), number_at(head, 2)) {
        (Some(start), Some(count)) => {
            out.push(b'>').is_ok()
                && tally.add_summary(start, count, protocol, &mut out).is_ok()
                && are_bytes_of(want, &out)
        }
        _ => false,
    }
}

/// Whether the replies of a line, counted one by one, are summed up as the line says.
pub fn is_running_right(alloc: Global, line: &str) -> bool {
    let (given, want) = halves(line, " => ");
    let (head, numbers) = halves(given, " | ");
    let mut tally = RunningTally::new(alloc);
    count_replies(alloc, numbers, &mut tally) && is_total(alloc, &mut tally, head, want)
}

//! Reports on small lists of records, and texts that are checked against such lists. In a text `;` stands for a line
//! feed.

use crate::samples::{
    halves, has_its_pages, has_number, has_word, is_scanned, number, protocol_of, records,
};
use crate::texts::{are_bytes_of, bytes_of};
use bpcc_commit::Bpcc;
use record_list::Found;
use scc_commit::Scc;
use std::alloc::Global;
use tx_types::{Memory, Protocol};
use verdict_check::check_report;
use verdict_report::explain;

/// What is checked and reported.
pub const REPORTS: &str = "\
    # Texts that are checked against lists of 20 pages: reports, and texts that are none: with another word, \
    without the last line or the last line feed, with nothing at all or more than there is, and the report on \
    another list and under the other protocol. The last but two has three links into one page, of which two are \
    straddled, each by another record. Then a transaction over 17 pages, of which a walk names 16 links.\n\
    check scc 0:0.1>1.1 16:1.1>2.1 | verdict 0 newest 1 uncommitted absent current 0 walk 1:1 2:1;verdict 1 newest \
    1 uncommitted absent current 0 walk 2:1;explained 2; => 2 pages\n\
    check bpcc 0:0.1>1.1 16:1.1>2.1 | verdict 0 newest 1 uncommitted absent current 0 walk 1:1 2:1;verdict 1 newest \
    1 uncommitted absent current 0 walk 2:1;explained 2; => 2 pages\n\
    check scc 0:0.1>1.1 16:1.1>2.1 | verdict 0 newest 1 committed absent current 0 walk 1:1 2:1; => 1 wrong\n\
    check scc 0:0.1>1.1 16:1.1>2.1 | verdict 0 newest 1 uncommitted absent current 0 walk 1:1 2:1;verdict 1 newest \
    1 uncommitted absent current 0 walk 2:1; => 3 wrong\n\
    check scc 0:0.1>1.1 16:1.1>2.1 | verdict 0 newest 1 uncommitted absent current 0 walk 1:1 2:1;verdict 1 newest \
    1 uncommitted absent current 0 walk 2:1;explained 2 => 3 wrong\n\
    check scc 0:0.1>1.1 16:1.1>2.1 |  => 1 wrong\n\
    check scc | explained 0;; => 2 wrong\n\
    check bpcc | explained 0; => 0 pages\n\
    check scc 0:0.1>1.1 1:2.1>0.1 16:1.1>2.1 17:2.2>2.2 | verdict 0 newest 1 committed passed current 1 walk 1:1 \
    2:1;verdict 1 newest 1 committed passed current 1 walk 2:1;verdict 2 newest 2 committed cycle current 2 walk \
    2:2;explained 3; => 3 pages\n\
    check scc 0:0.1>1.1 1:2.1>0.1 16:1.1>2.1 17:2.2>2.2 | verdict 0 newest 1 uncommitted absent current 0 walk 1:1 \
    2:1;verdict 1 newest 1 uncommitted absent current 0 walk 2:1;explained 2; => 1 wrong\n\
    check bpcc 0:0.1>1.1 1:1.2>1.2 2:1.3>1.3/2 | verdict 0 newest 1 uncommitted straddled 2 current 0 walk 1:1;\
    verdict 1 newest 3 committed cycle current 3 walk 1:3;explained 2; => 2 pages\n\
    check scc 0:0.1>1.1 1:1.2>1.2 2:1.3>1.3/2 | verdict 0 newest 1 uncommitted straddled 2 current 0 walk 1:1;\
    verdict 1 newest 3 committed cycle current 3 walk 1:3;explained 2; => 1 wrong\n\
    check bpcc 0:0.1>1.1 1:1.2>1.2 2:2.1>1.3 3:3.1>1.2 4:1.4>1.4/2 5:1.5>1.5/4 | verdict 0 newest 1 uncommitted \
    straddled 2 current 0 walk 1:1;verdict 1 newest 5 committed cycle current 5 walk 1:5;verdict 2 newest 1 \
    uncommitted straddled 4 current 0 walk 1:3;verdict 3 newest 1 committed passed current 1 walk 1:2;explained 4; \
    => 4 pages\n\
    check scc cycle 17 | verdict 0 newest 1 committed cycle current 1 walk 1:1 2:1 3:1 4:1 5:1 6:1 7:1 8:1 9:1 10:1 \
    11:1 12:1 13:1 14:1 15:1 16:1 more 1;verdict 1 newest 1 committed cycle current 1 walk 2:1 3:1 4:1 5:1 6:1 7:1 \
    8:1 9:1 10:1 11:1 12:1 13:1 14:1 15:1 16:1 0:1 more 1;verdict 2 newest 1 committed cycle current 1 walk 3:1 4:1 \
    5:1 6:1 7:1 8:1 9:1 10:1 11:1 12:1 13:1 14:1 15:1 16:1 0:1 1:1 more 1;verdict 3 newest 1 committed cycle \
    current 1 walk 4:1 5:1 6:1 7:1 8:1 9:1 10:1 11:1 12:1 13:1 14:1 15:1 16:1 0:1 1:1 2:1 more 1;verdict 4 newest 1 \
    committed cycle current 1 walk 5:1 6:1 7:1 8:1 9:1 10:1 11:1 12:1 13:1 14:1 15:1 16:1 0:1 1:1 2:1 3:1 more 1;\
    verdict 5 newest 1 committed cycle current 1 walk 6:1 7:1 8:1 9:1 10:1 11:1 12:1 13:1 14:1 15:1 16:1 0:1 1:1 \
    2:1 3:1 4:1 more 1;verdict 6 newest 1 committed cycle current 1 walk 7:1 8:1 9:1 10:1 11:1 12:1 13:1 14:1 15:1 \
    16:1 0:1 1:1 2:1 3:1 4:1 5:1 more 1;verdict 7 newest 1 committed cycle current 1 walk 8:1 9:1 10:1 11:1 12:1 \
    13:1 14:1 15:1 16:1 0:1 1:1 2:1 3:1 4:1 5:1 6:1 more 1;verdict 8 newest 1 committed cycle current 1 walk 9:1 \
    10:1 11:1 12:1 13:1 14:1 15:1 16:1 0:1 1:1 2:1 3:1 4:1 5:1 6:1 7:1 more 1;verdict 9 newest 1 committed cycle \
    current 1 walk 10:1 11:1 12:1 13:1 14:1 15:1 16:1 0:1 1:1 2:1 3:1 4:1 5:1 6:1 7:1 8:1 more 1;verdict 10 newest \
    1 committed cycle current 1 walk 11:1 12:1 13:1 14:1 15:1 16:1 0:1 1:1 2:1 3:1 4:1 5:1 6:1 7:1 8:1 9:1 more 1;\
    verdict 11 newest 1 committed cycle current 1 walk 12:1 13:1 14:1 15:1 16:1 0:1 1:1 2:1 3:1 4:1 5:1 6:1 7:1 8:1 \
    9:1 10:1 more 1;verdict 12 newest 1 committed cycle current 1 walk 13:1 14:1 15:1 16:1 0:1 1:1 2:1 3:1 4:1 5:1 \
    6:1 7:1 8:1 9:1 10:1 11:1 more 1;verdict 13 newest 1 committed cycle current 1 walk 14:1 15:1 16:1 0:1 1:1 2:1 \
    3:1 4:1 5:1 6:1 7:1 8:1 9:1 10:1 11:1 12:1 more 1;verdict 14 newest 1 committed cycle current 1 walk 15:1 16:1 \
    0:1 1:1 2:1 3:1 4:1 5:1 6:1 7:1 8:1 9:1 10:1 11:1 12:1 13:1 more 1;verdict 15 newest 1 committed cycle current \
    1 walk 16:1 0:1 1:1 2:1 3:1 4:1 5:1 6:1 7:1 8:1 9:1 10:1 11:1 12:1 13:1 14:1 more 1;verdict 16 newest 1 \
    committed cycle current 1 walk 0:1 1:1 2:1 3:1 4:1 5:1 6:1 7:1 8:1 9:1 10:1 11:1 12:1 13:1 14:1 15:1 more 1;\
    explained 17; => 17 pages\n\
    check scc cycle 17 | verdict 0 newest 1 committed cycle current 1 walk 1:1 2:1 3:1 4:1 5:1 6:1 7:1 8:1 9:1 10:1 \
    11:1 12:1 13:1 14:1 15:1 16:1 more 2;verdict 1 newest 1 committed cycle current 1 walk 2:1 3:1 4:1 5:1 6:1 7:1 \
    8:1 9:1 10:1 11:1 12:1 13:1 14:1 15:1 16:1 0:1 more 2;verdict 2 newest 1 committed cycle current 1 walk 3:1 4:1 \
    5:1 6:1 7:1 8:1 9:1 10:1 11:1 12:1 13:1 14:1 15:1 16:1 0:1 1:1 more 2;verdict 3 newest 1 committed cycle \
    current 1 walk 4:1 5:1 6:1 7:1 8:1 9:1 10:1 11:1 12:1 13:1 14:1 15:1 16:1 0:1 1:1 2:1 more 2;verdict 4 newest 1 \
    committed cycle current 1 walk 5:1 6:1 7:1 8:1 9:1 10:1 11:1 12:1 13:1 14:1 15:1 16:1 0:1 1:1 2:1 3:1 more 2;\
    verdict 5 newest 1 committed cycle current 1 walk 6:1 7:1 8:1 9:1 10:1 11:1 12:1 13:1 14:1 15:1 16:1 0:1 1:1 \
    2:1 3:1 4:1 more 2;verdict 6 newest 1 committed cycle current 1 walk 7:1 8:1 9:1 10:1 11:1 12:1 13:1 14:1 15:1 \
    16:1 0:1 1:1 2:1 3:1 4:1 5:1 more 2;verdict 7 newest 1 committed cycle current 1 walk 8:1 9:1 10:1 11:1 12:1 \
    13:1 14:1 15:1 16:1 0:1 1:1 2:1 3:1 4:1 5:1 6:1 more 2;verdict 8 newest 1 committed cycle current 1 walk 9:1 \
    10:1 11:1 12:1 13:1 14:1 15:1 16:1 0:1 1:1 2:1 3:1 4:1 5:1 6:1 7:1 more 2;verdict 9 newest 1 committed cycle \
    current 1 walk 10:1 11:1 12:1 13:1 14:1 15:1 16:1 0:1 1:1 2:1 3:1 4:1 5:1 6:1 7:1 8:1 more 2;verdict 10 newest \
    1 committed cycle current 1 walk 11:1 12:1 13:1 14:1 15:1 16:1 0:1 1:1 2:1 3:1 4:1 5:1 6:1 7:1 8:1 9:1 more 2;\
    verdict 11 newest 1 committed cycle current 1 walk 12:1 13:1 14:1 15:1 16:1 0:1 1:1 2:1 3:1 4:1 5:1 6:1 7:1 8:1 \
    9:1 10:1 more 2;verdict 12 newest 1 committed cycle current 1 walk 13:1 14:1 15:1 16:1 0:1 1:1 2:1 3:1 4:1 5:1 \
    6:1 7:1 8:1 9:1 10:1 11:1 more 2;verdict 13 newest 1 committed cycle current 1 walk 14:1 15:1 16:1 0:1 1:1 2:1 \
    3:1 4:1 5:1 6:1 7:1 8:1 9:1 10:1 11:1 12:1 more 2;verdict 14 newest 1 committed cycle current 1 walk 15:1 16:1 \
    0:1 1:1 2:1 3:1 4:1 5:1 6:1 7:1 8:1 9:1 10:1 11:1 12:1 13:1 more 2;verdict 15 newest 1 committed cycle current \
    1 walk 16:1 0:1 1:1 2:1 3:1 4:1 5:1 6:1 7:1 8:1 9:1 10:1 11:1 12:1 13:1 14:1 more 2;verdict 16 newest 1 \
    committed cycle current 1 walk 0:1 1:1 2:1 3:1 4:1 5:1 6:1 7:1 8:1 9:1 10:1 11:1 12:1 13:1 14:1 15:1 more 2;\
    explained 17; => 1 wrong\n\
    # Reports, behind a byte that was there before. A transaction of three pages, whole; two records of such a one; \
    the whole one and a later write; an aborted rewrite, in two slots, of a page that has older versions; and no \
    records.\n\
    report scc 20 0:0.1>1.1 1:2.1>0.1 16:1.1>2.1 => 3 >verdict 0 newest 1 committed cycle current 1 walk 1:1 2:1 \
    0:1;verdict 1 newest 1 committed cycle current 1 walk 2:1 0:1 1:1;verdict 2 newest 1 committed cycle current 1 \
    walk 0:1 1:1 2:1;explained 3;\n\
    report scc 20 0:0.1>1.1 16:1.1>2.1 => 2 >verdict 0 newest 1 uncommitted absent current 0 walk 1:1 2:1;verdict 1 \
    newest 1 uncommitted absent current 0 walk 2:1;explained 2;\n\
    report scc 20 0:0.1>1.1 1:2.1>0.1 16:1.1>2.1 17:2.2>2.2 => 3 >verdict 0 newest 1 committed passed current 1 \
    walk 1:1 2:1;verdict 1 newest 1 committed passed current 1 walk 2:1;verdict 2 newest 2 committed cycle current \
    2 walk 2:2;explained 3;\n\
    report scc 20 0:3.1>3.1 1:3.4>5.9 2:3.2>3.2 3:3.4>5.9 => 1 >verdict 3 newest 4 uncommitted absent current 2 \
    walk 5:9;explained 1;\n\
    report scc 20 => 0 >explained 0;\n\
    # An aborted write of pages 0 and 1, and later writes of single pages, the first of them copied; and a link \
    that two records straddle, beside one that is passed.\n\
    report bpcc 20 0:0.1>1.1 1:1.3>1.3/2 2:3.1>3.1 3:4.1>4.1 28:1.2>1.2 29:2.3>2.3/2 => 5 >verdict 0 newest 1 \
    uncommitted straddled 2 current 0 walk 1:1;verdict 1 newest 3 committed cycle current 3 walk 1:3;verdict 2 \
    newest 3 committed cycle current 3 walk 2:3;verdict 3 newest 1 committed cycle current 1 walk 3:1;verdict 4 \
    newest 1 committed cycle current 1 walk 4:1;explained 5;\n\
    report bpcc 20 0:0.7>1.3/4 1:1.4>1.4/2 2:1.6>1.6/1 3:1.8>1.8/6 4:2.1>1.6 => 3 >verdict 0 newest 7 uncommitted \
    straddled 6 current 4 walk 1:3;verdict 1 newest 8 committed cycle current 8 walk 1:8;verdict 2 newest 1 \
    committed passed current 1 walk 1:6;explained 3;\n\
    # Transactions over 16, 17 and 300 pages; and a list in which page 0 leads to a cycle of others, whose walk \
    takes one link more than there are pages.\n\
    report scc 16 cycle 16 => 16 >verdict 0 newest 1 committed cycle current 1 walk 1:1 2:1 3:1 4:1 5:1 6:1 7:1 8:1 \
    9:1 10:1 11:1 12:1 13:1 14:1 15:1 0:1; .. ;explained 16;\n\
    report scc 17 cycle 17 => 17 >verdict 0 newest 1 committed cycle current 1 walk 1:1 2:1 3:1 4:1 5:1 6:1 7:1 8:1 \
    9:1 10:1 11:1 12:1 13:1 14:1 15:1 16:1 more 1; .. ;explained 17;\n\
    report scc 300 cycle 300 => 300 >verdict 0 newest 1 committed cycle current 1 walk 1:1 2:1 3:1 4:1 5:1 6:1 7:1 \
    8:1 9:1 10:1 11:1 12:1 13:1 14:1 15:1 16:1 more 284; .. ;explained 300;\n\
    report scc 3 0:0.1>1.1 1:1.1>2.1 2:2.1>1.1 => 3 >verdict 0 newest 1 uncommitted absent current 0 walk 1:1 2:1 \
    1:1 2:1;verdict 1 newest 1 committed cycle current 1 walk 2:1 1:1;verdict 2 newest 1 committed cycle current 1 \
    walk 1:1 2:1;explained 3;";

/// Whether the check of a text against a list of 20 pages ends so, as `2 pages` or `1 wrong`.
fn is_checked(list: &[Found], protocol: Protocol, text: &[u8], answer: &str) -> bool {
    if !is_scanned(list) || !has_its_pages(list, 20) {
        return false;
    }
    let (number, word) = match check_report(list, protocol, 20, text) {
        Ok(pages) => (pages, "pages"),
        Err(line) => (line, "wrong"),
    };
    has_number(answer, 0, number) && has_word(answer, 1, word)
}

/// Whether the line `PROTOCOL LIST | TEXT => ANSWER` is right.
pub fn is_check_right(alloc: Global, line: &str) -> bool {
    let (given, answer) = halves(line, " => ");
    let (list, text) = halves(given, "| ");
    let (protocol, list) = halves(list, " ");
    match (bytes_of(alloc, text), records(alloc, list.trim())) {
        (Ok(bytes), Some(list)) => is_checked(&list, protocol_of(protocol), &bytes, answer),
        _ => false,
    }
}

/// Writes the report on a list of this many pages.
fn report(
    alloc: Global,
    list: &[Found],
    protocol: Protocol,
    logical: u32,
    out: &mut Vec<u8>,
) -> Result<u32, Memory> {
    match protocol {
        Protocol::Scc => explain::<Scc>(alloc, list, logical, out),
        Protocol::Bpcc => explain::<Bpcc>(alloc, list, logical, out),
    }
}

/// Whether the report on a list explains so many pages and has this text, as `2 TEXT`, behind a byte that was there.
fn is_report(alloc: Global, list: &[Found], protocol: Protocol, logical: u32, want: &str) -> bool {
    let (pages, text) = halves(want, " ");
    let mut out = Vec::new(alloc);
    out.push(b'>').is_ok()
        && report(alloc, list, protocol, logical, &mut out).ok() == number(pages)
        && are_bytes_of(text, &out)
}

/// Whether the line `PROTOCOL PAGES LIST => COUNT TEXT` is right.
pub fn is_report_right(alloc: Global, line: &str) -> bool {
    let (given, want) = halves(line, " => ");
    let (protocol, rest) = halves(given, " ");
    let (logical, list) = halves(rest, " ");
    match (number(logical), records(alloc, list)) {
        (Some(logical), Some(list)) => {
            is_report(alloc, &list, protocol_of(protocol), logical, want)
        }
        _ => false,
    }
}

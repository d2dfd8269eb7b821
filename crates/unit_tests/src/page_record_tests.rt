ghost use Rattle.page_record.specs.Spelling.{CanBeSpelled};

use crate::samples::{change, halves, has_word, protocol_of, rec, sides, word};
use page_record::{SpareError, read_spare, write_spare};
use std::alloc::Global;
use tx_types::Protocol::{Bpcc, Scc};
use tx_types::{Link, Protocol, Rec};

/// Page 0 at version 1 under Simple Cyclic Commit, with a link to page 1 at version 1.
const SCC: [u8; 64] = [
    0x54, 0x58, 0x46, 0x52, 1, 1, 0, 0, // mark, format, protocol, flags
    0, 0, 0, 0, 1, 0, 0, 0, // page, link page
    1, 0, 0, 0, 0, 0, 0, 0, // version
    1, 0, 0, 0, 0, 0, 0, 0, // link version
    0, 0, 0, 0, 0, 0, 0, 0, // back version
    0, 0, 0, 0, 0, 0, 0, 0, 0, 0, 0, 0, 0, 0, 0, 0, 0, 0, 0, 0, 0, 0, 0, 0, // rest
];

/// Page 1 at version 3 under Back Pointer Cyclic Commit, with a link to itself and back version 2.
const BPCC: [u8; 64] = [
    0x54, 0x58, 0x46, 0x52, 1, 2, 0, 0, // mark, format, protocol, flags
    1, 0, 0, 0, 1, 0, 0, 0, // page, link page
    3, 0, 0, 0, 0, 0, 0, 0, // version
    3, 0, 0, 0, 0, 0, 0, 0, // link version
    2, 0, 0, 0, 0, 0, 0, 0, // back version
    0, 0, 0, 0, 0, 0, 0, 0, 0, 0, 0, 0, 0, 0, 0, 0, 0, 0, 0, 0, 0, 0, 0, 0, // rest
];

/// Page 0 at version 1 under Simple Cyclic Commit, with a link to itself: a discard of one page.
const DISCARD: [u8; 64] = [
    0x54, 0x58, 0x46, 0x52, 2, 1, 1, 0, // mark, format, protocol, flags
    0, 0, 0, 0, 0, 0, 0, 0, // page, link page
    1, 0, 0, 0, 0, 0, 0, 0, // version
    1, 0, 0, 0, 0, 0, 0, 0, // link version
    0, 0, 0, 0, 0, 0, 0, 0, // back version
    1, 0, 0, 0, // count
    0, 0, 0, 0, 0, 0, 0, 0, 0, 0, 0, 0, 0, 0, 0, 0, 0, 0, 0, 0, // rest
];

/// Numbers whose bytes all differ, under Back Pointer Cyclic Commit.
const WIDE: [u8; 64] = [
    0x54, 0x58, 0x46, 0x52, 1, 2, 0, 0, // mark, format, protocol, flags
    4, 3, 2, 1, 0xf8, 0xf7, 0xf6, 0xf5, // page, link page
    0x18, 0x17, 0x16, 0x15, 0x14, 0x13, 0x12, 0x11, // version
    0x28, 0x27, 0x26, 0x25, 0x24, 0x23, 0x22, 0x21, // link version
    0x38, 0x37, 0x36, 0x35, 0x34, 0x33, 0x32, 0x10, // back version
    0, 0, 0, 0, 0, 0, 0, 0, 0, 0, 0, 0, 0, 0, 0, 0, 0, 0, 0, 0, 0, 0, 0, 0, // rest
];

/// The record of `SCC`.
const FIRST: Rec = Rec {
    page: 0,
    version: 1,
    next: Link {
        page: 1,
        version: 1,
    },
    back: 0,
    count: 0,
    discard: false,
};

/// The record of `BPCC`.
const ALONE: Rec = Rec {
    page: 1,
    version: 3,
    next: Link {
        page: 1,
        version: 3,
    },
    back: 2,
    count: 0,
    discard: false,
};

/// The record of `WIDE`.
const FAR: Rec = Rec {
    page: 0x01020304,
    version: 0x1112131415161718,
    next: Link {
        page: 0xf5f6f7f8,
        version: 0x2122232425262728,
    },
    back: 0x1032333435363738,
    count: 0,
    discard: false,
};

/// The record of `DISCARD`.
const EMPTY: Rec = Rec {
    page: 0,
    version: 1,
    next: Link {
        page: 0,
        version: 1,
    },
    back: 0,
    count: 1,
    discard: true,
};

/// Whether a record is written so over what stands in the area.
fn writes(rec: Rec, protocol: Protocol, area: &mut [u8; 64], want: &[u8; 64]) -> bool
    requires { CanBeSpelled protocol rec }
{
    write_spare(rec, protocol, area);
    *area == *want
}

/// Whether each record is written over the one before it.
fn writes_all(area: &mut [u8; 64]) -> bool {
    writes(FIRST, Scc, area, &SCC)
        && writes(ALONE, Bpcc, area, &BPCC)
        && writes(FAR, Bpcc, area, &WIDE)
        && writes(EMPTY, Scc, area, &DISCARD)
}

/// Spare areas that are read or written.
pub const AREAS: &str = "\
    # Areas, the protocol that each is read for, what is changed in it, as `PLACE=BYTE` with the byte in hex, and \
    the rule that is broken.\n\
    area scc scc 3=0 4=0 5=3 7=1 31=80 32=1 63=1 => mark -- every rule is broken, and then one rule fewer at each \
    line\n\
    area scc scc 4=0 5=3 7=1 31=80 32=1 63=1 => format\n\
    area scc scc 5=3 7=1 31=80 32=1 63=1 => protocol\n\
    area scc scc 7=1 31=80 32=1 63=1 => flags\n\
    area scc scc 31=80 32=1 63=1 => version\n\
    area scc scc 32=1 63=1 => back\n\
    area scc scc 63=1 => rest\n\
    area discard scc 6=2 31=80 32=1 40=0 63=1 => flags -- the same in format 2, where the count comes before the \
    rest\n\
    area discard scc 31=80 32=1 40=0 63=1 => version\n\
    area discard scc 32=1 40=0 63=1 => back\n\
    area discard scc 40=0 63=1 => count\n\
    area discard scc 63=1 => rest\n\
    area scc scc 4=2 => count -- counts 0, one above the greatest, and one far above; each end of the rest\n\
    area discard scc 40=1 41=1 => count\n\
    area discard scc 43=1 => count\n\
    area discard scc 44=1 => rest\n\
    area discard scc 4=1 40=0 => flags -- a flag without a count, another flag, and one in the second byte\n\
    area discard scc 6=3 => flags\n\
    area discard scc 7=1 => flags\n\
    area scc scc 0=74 => mark -- the mark in lower case, another format, flags\n\
    area scc scc 4=3 => format\n\
    area scc scc 6=1 => flags\n\
    area scc bpcc => protocol -- the other protocol, and none\n\
    area bpcc scc => protocol\n\
    area scc scc 5=0 => protocol\n\
    area scc scc 16=0 => version -- versions 0, and one above the greatest\n\
    area scc scc 23=40 => version\n\
    area scc scc 24=0 => version\n\
    area scc scc 31=40 => version\n\
    area scc scc 32=1 => back -- back versions\n\
    area scc scc 39=1 => back\n\
    area scc bpcc 5=2 32=1 => back\n\
    area bpcc bpcc 32=3 => back\n\
    area bpcc bpcc 39=1 => back\n\
    area scc scc 40=1 => rest -- each end of the rest\n\
    area bpcc bpcc 63=80 => rest\n\
    area scc scc 0=ff 1=ff 2=ff 3=ff => mark -- nothing was programmed, or all bits were\n\
    area scc scc 0=0 1=0 2=0 3=0 => mark\n\
    # Areas, and the record that is read from each.\n\
    area scc scc => 0.1>1.1\n\
    area bpcc bpcc => 1.3>1.3/2\n\
    area wide bpcc => 16909060.1230066625199609624>4126603256.2387509390608836392/1167051552766441272\n\
    area discard scc => 0.1>0.1#1 discard -- a discard, and pages that are none, of transactions of one page, of \
    two and of the most\n\
    area discard scc 6=0 => 0.1>0.1#1\n\
    area scc scc 4=2 40=2 => 0.1>1.1#2\n\
    area bpcc bpcc 4=2 6=1 41=1 => 1.3>1.3/2#256 discard\n\
    area scc scc 16=0 23=40 => 0.4611686018427387904>1.1 -- the greatest versions\n\
    area scc scc 24=0 31=40 => 0.1>1.4611686018427387904\n\
    area bpcc bpcc 32=0 => 1.3>1.3 -- no back version, and any page and link page\n\
    area scc scc 8=ff 11=ff 12=ff 15=ff => 4278190335.1>4278190335.1\n\
    # Each record is written over the one before it; and the rules as they are printed.\n\
    written\n\
    broken names";

/// The spare area of a name.
fn area(name: &str) -> [u8; 64] {
    match name {
        "scc" => SCC,
        "bpcc" => BPCC,
        "wide" => WIDE,
        _ => DISCARD,
    }
}

/// The name of a rule.
fn name(rule: SpareError) -> &'static str {
    match rule {
        SpareError::Mark => "mark",
        SpareError::Format => "format",
        SpareError::Protocol => "protocol",
        SpareError::Flags => "flags",
        SpareError::Version => "version",
        SpareError::Back => "back",
        SpareError::Count => "count",
        SpareError::Rest => "rest",
    }
}

/// Whether the text is a record, with `discard` behind it where it is one.
fn is_record(text: &str, read: Rec) -> bool {
    let discard = has_word(text, 1, "discard");
    match rec(word(text, 0)) {
        Some(rec) => read == Rec { discard, ..rec },
        None => false,
    }
}

/// Whether this is the record of a text, or the rule that it names.
fn is_answer(read: Result<Rec, SpareError>, want: &str) -> bool {
    match read {
        Ok(read) => is_record(want, read),
        Err(rule) => want == name(rule),
    }
}

/// Whether a rule is printed as its name.
fn is_named(alloc: Global, rule: SpareError) -> bool {
    match rule.to_string(alloc) {
        Ok(text) => text.as_str() == name(rule),
        Err(_) => false,
    }
}

/// Whether each rule is printed as its name.
fn are_named(alloc: Global) -> bool {
    is_named(alloc, SpareError::Mark)
        && is_named(alloc, SpareError::Format)
        && is_named(alloc, SpareError::Protocol)
        && is_named(alloc, SpareError::Flags)
        && is_named(alloc, SpareError::Version)
        && is_named(alloc, SpareError::Back)
        && is_named(alloc, SpareError::Count)
        && is_named(alloc, SpareError::Rest)
}

/// Whether a line is right of spare areas: the record that is read, or the rule that is broken.
pub fn is_area_right(alloc: Global, kind: &str, line: &str) -> bool {
    if kind == "broken" {
        return are_named(alloc);
    }
    let (left, want) = sides(line);
    let (name, rest) = halves(left, " ");
    let (protocol, changes) = halves(rest, " ");
    let mut area = area(name);
    if kind == "written" {
        return writes_all(&mut area);
    }
    change(&mut area, changes) && is_answer(read_spare(&area, protocol_of(protocol)), want)
}

//! Command files and replies as text.
use crate::command_lines::lines_of;
use crate::samples::{halves, is_number, is_version, number};
use crate::texts::{are_bytes_of, bytes_of};
use host_protocol::{Command, MAX_FILE_BYTES, Reply, TextError, parse, reply_text};
use std::alloc::{AllocError, Global};
use tx_types::{Bytes, Stats};

/// Command files.
pub const COMMANDS: &str = "\
    # Lines of command files, and the commands in one way of spelling, or the first bad line.\n\
    file ; => nothing\n\
    file  => nothing\n\
    file ^ => nothing\n\
    file  `;;^;step 2; => step 2;\n\
    file read 19; => read 19;\n\
    file ` read ` 19  ; => read 19;\n\
    file read 19^;read 20^ => read 19;read 20;\n\
    file read 19^^; => bad line 1\n\
    file # => nothing\n\
    file   #read 1;read 1 => read 1;\n\
    file read #1 => bad line 1\n\
    file read 1;# two;;raed 4;raed 5 => bad line 4\n\
    file finish 007;abort 0000000001 => finish 7;abort 1;\n\
    file step 4294967295 => step 4294967295;\n\
    file step 4294967296 => bad line 1\n\
    file step 00000000001 => bad line 1\n\
    file read +1 => bad line 1\n\
    file read 1 2 => bad line 1\n\
    file read => bad line 1\n\
    file READ 1 => bad line 1\n\
    file read % => bad line 1\n\
    file ? => bad line 1\n\
    file collect;stats;explain => collect;stats;explain;\n\
    file collect 1 => bad line 1\n\
    file stepall;stepall => stepall;stepall;\n\
    file stepall 1 => bad line 1\n\
    file cut 1 bad;fault 2 none => cut 1 bad;fault 2 none;\n\
    file cut 003 all => cut 3 all;\n\
    file cut 0 all => bad line 1\n\
    file fault 1 All => bad line 1\n\
    file cut 1 all 1 => bad line 1\n\
    file badread 3 => badread 3;\n\
    file badread 1 x => bad line 1\n\
    # Writes.\n\
    file write => bad line 1\n\
    file write x 0=- => bad line 1\n\
    file write 1 => write 1;\n\
    file write 1 0=- => write 1 0=00000000000000000000000000000000;\n\
    file write 1 0=aA => write 1 0=aa000000000000000000000000000000;\n\
    file write 2 7=000102030405060708090a0b0c0d0e0f 007=10 => write 2 7=000102030405060708090a0b0c0d0e0f \
    7=10000000000000000000000000000000;\n\
    file write 1 0=000102030405060708090a0b0c0d0e0f10 => bad line 1\n\
    file write 1 0= => bad line 1\n\
    file write 1 =41 => bad line 1\n\
    file write 1 0=4 => bad line 1\n\
    file write 1 0=4G => bad line 1\n\
    file write 1 0=4142 1 => bad line 1\n\
    file write 1 0=41=42 => bad line 1\n\
    file write 1 0==41 => bad line 1\n\
    file write 1 0=-- => bad line 1\n\
    file write 1 0=~ => write 1 0=~;\n\
    file write 1 3=~ 4=- 3=~ => write 1 3=~ 4=00000000000000000000000000000000 3=~;\n\
    file write 1 0=~~ => bad line 1\n\
    file write 1 0=~00 => bad line 1\n\
    file write 1 0=-~ => bad line 1\n\
    file write 1 0 = 41 => bad line 1\n\
    file write 1 4294967296=41 => bad line 1\n\
    file write 1 0=41`1=4B  2=4142 3=5 => bad line 1\n\
    file write 1 0=41`1=4B  2=4142 => write 1 0=41000000000000000000000000000000 \
    1=4b000000000000000000000000000000 2=41420000000000000000000000000000;\n\
    file write`1`0=41;write 1x 0=41 => bad line 2\n\
    # Lines that end within the next 32 bytes of the file, and lines that do not.\n\
    file step 1;abort 2^;# this one ends behind more than 32 bytes;finish 3;collect^^;step 4;;;;;;;;;;;;;;;;;;;;;;;;;; \
    => bad line 5\n\
    file step 1;abort 2^;# this one ends behind more than 32 bytes;finish 3;  ^;step 4;collect;;;;;;;;;;;;;;;;;;;;;;; \
    => step 1;abort 2;finish 3;step 4;collect;\n\
    # Files of many commands, of which there may be 65536, and of many entries, of which there may be 262144: a \
    head, how often a piece stands behind it, the piece, and the end.\n\
    long # one;;|65536|stats;| => 65536 commands\n\
    long # one;;|65536|stats;|;# two; => 65536 commands\n\
    long # one;;|65536|stats;|;# two;stats => bad line 65541\n\
    long write 1|262144| 0=-|;write 2; => 2 commands\n\
    long write 1|262144| 0=-|;write 2;write 3 1=- => bad line 3\n\
    long write 1|262145| 0=-| => bad line 1";

/// Whether the text spells the commands in one way, tells their number as `3 commands`, or is `nothing` where there are
/// none.
fn spells(alloc: Global, text: &str, list: &[Command]) -> bool {
    if list.is_empty() {
        return text == "nothing";
    }
    if let Some(count) = text.strip_suffix(" commands") {
        return is_version(count, list.len() as u64);
    }
    match lines_of(alloc, list) {
        Ok(lines) => are_bytes_of(text, lines.as_bytes()),
        Err(_) => false,
    }
}

/// Whether a file has the commands of the text, or its first bad line, as `bad line 2`.
fn is_read(alloc: Global, file: &[u8], want: &str) -> bool {
    if file.len() > MAX_FILE_BYTES {
        return false;
    }
    match parse(alloc, file, 16) {
        Ok(list) => spells(alloc, want, &list),
        Err(TextError::Line(line)) => match want.strip_prefix("bad line ") {
            Some(digits) => is_number(digits, line),
            None => false,
        },
        Err(TextError::Memory) => false,
    }
}

/// Whether the file of a line has the commands that the line says.
pub fn is_file_right(alloc: Global, line: &str) -> bool {
    let (text, want) = halves(line, " => ");
    match bytes_of(alloc, text) {
        Ok(file) => is_read(alloc, &file, want),
        Err(_) => false,
    }
}

/// The file `HEAD|TIMES|PIECE|END`.
fn long_file(alloc: Global, text: &str) -> Result<Vec<u8>, AllocError> {
    let (head, rest) = halves(text, "|");
    let (count, rest) = halves(rest, "|");
    let (piece, end) = halves(rest, "|");
    let mut all = String::new(alloc);
    all.push_str(head)?;
    for _ in 0..number(count).unwrap_or(0) {
        all.push_str(piece)?;
    }
    all.push_str(end)?;
    bytes_of(alloc, all.as_str())
}

/// Whether the long file of a line has the commands that the line says.
pub fn is_long_file_right(alloc: Global, line: &str) -> bool {
    let (text, want) = halves(line, " => ");
    match long_file(alloc, text) {
        Ok(file) => is_read(alloc, &file, want),
        Err(_) => false,
    }
}

/// The numbers of a device.
const STATS: Stats = Stats {
    written: 1,
    tags: 2,
    pending: 3,
    programs: 18446744073709551615,
    erases: 10,
    garbage: 6,
};

/// The reply of a number, of which two have contents.
fn reply_at(line: u32, contents: Bytes) -> Reply {
    match line {
        0 => Reply::Blank(19),
        1 => Reply::Opened(1, 7),
        2 => Reply::Wrote(4294967295, 2, 3),
        3 => Reply::Done(1),
        4 => Reply::Aborted(2),
        5 => Reply::Late(3),
        6 => Reply::Unknown(0),
        7 => Reply::Moved(4294967295, 2),
        8 => Reply::Collected,
        9 => Reply::Nothing,
        10 => Reply::Armed,
        11 => Reply::Cut,
        12 => Reply::Fault,
        13 => Reply::Dropped,
        14 => Reply::RefusedEmpty,
        15 => Reply::RefusedRange(20),
        16 => Reply::RefusedRepeated(5),
        17 => Reply::RefusedTag(1),
        18 => Reply::RefusedOverlap(5, 1),
        19 => Reply::RefusedFull(7),
        20 => Reply::RefusedSpent(0),
        21 => Reply::Stats(STATS),
        22 => Reply::Page(0, contents),
        _ => Reply::Report(contents),
    }
}

/// What is said of each reply.
pub const REPLIES: &str = "\
    # Replies, by their number, behind a byte that was there before.\n\
    reply 0 = >blank 19;\n\
    reply 1 = >open 1 7;\n\
    reply 2 = >wrote 4294967295 2 3;\n\
    reply 3 = >done 1;\n\
    reply 4 = >aborted 2;\n\
    reply 5 = >late 3;\n\
    reply 6 = >unknown 0;\n\
    reply 7 = >moved 4294967295 finished 2;\n\
    reply 8 = >collected;\n\
    reply 9 = >nothing;\n\
    reply 10 = >armed;\n\
    reply 11 = >cut;\n\
    reply 12 = >fault;\n\
    reply 13 = >dropped;\n\
    reply 14 = >refused empty;\n\
    reply 15 = >refused range 20;\n\
    reply 16 = >refused repeated 5;\n\
    reply 17 = >refused tag 1;\n\
    reply 18 = >refused overlap 5 1;\n\
    reply 19 = >refused full 7;\n\
    reply 20 = >refused spent 0;\n\
    reply 21 = >stats written 1 open 2 pending 3 programs 18446744073709551615 erases 10 garbage 6;\n\
    reply 22 = >page 0 41ff00000a0b;\n\
    reply 23 = >verdict 0;explained 1;\n\
    reply 24 = >open";

/// The reply of a number with its contents, nothing where there is no memory for them. The last one has no line feed.
pub fn reply_of(alloc: Global, number: u32) -> Option<Reply> {
    let mut contents = Bytes::new(alloc);
    let bytes: &[u8] = match number {
        22 => b"\x41\xff\0\0\x0a\x0b",
        24 => b"open",
        _ => b"verdict 0\nexplained 1\n",
    };
    match contents.extend(bytes) {
        Ok(()) => Some(reply_at(number, contents)),
        Err(_) => None,
    }
}

/// Whether a reply is said so, behind a byte that was there before.
fn is_said(alloc: Global, reply: &Reply, text: &str) -> bool {
    let mut out = Vec::new(alloc);
    out.push(b'>').is_ok() && reply_text(alloc, reply, &mut out).is_ok() && are_bytes_of(text, &out)
}

/// Whether the reply `NUMBER = TEXT` is said so.
pub fn is_reply_right(alloc: Global, line: &str) -> bool {
    let (number_of, text) = halves(line, " = ");
    match reply_of(alloc, number(number_of).unwrap_or(0)) {
        Some(reply) => is_said(alloc, &reply, text),
        None => false,
    }
}

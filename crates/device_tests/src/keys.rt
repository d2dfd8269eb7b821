//! Scripts of keys as they are read and as they are served over cuts, and the buckets of keys.

ghost use Rattle.std.specs.Prelude.{◌≡◌, ◌≤◌, length, Ok};
ghost use Rattle.tx_types.specs.Config.{checked};

use crate::building::blank_flash;
use crate::texts::{bytes_of, number_of};
use bpcc_commit::Bpcc;
use host_protocol::TextError;
use mem_flash::MemFlash;
use page_keys::{bucket, key_serve, parse_keys};
use std::alloc::Global;
use tx_types::{Config, Protocol};

const SMALL: Config = Config {
    protocol: Protocol::Bpcc,
    page_bytes: 64,
    pages_per_block: 4,
    blocks_per_die: 4,
    dies: 2,
    logical: 20,
    pending: 7,
};

/// Scripts and keys, and what becomes of them.
pub const KEYS: &str = "\
    # The bucket of a key of one byte, where there are 20.\n\
    bucket 97 => 17\n\
    bucket 117 => 17\n\
    bucket 137 => 17\n\
    # How many commands a script has, or its first bad line.\n\
    script put; => 1\n\
    script  => 0\n\
    script put 61=- 61=~ 62=0F => 1\n\
    script get 000102030405060708090a0b0c0d0e => 1\n\
    script get 000102030405060708090a0b0c0d0e0f => bad line 1\n\
    script ;# one;get 61;get; => bad line 4\n\
    script get 61 62 => bad line 1\n\
    script get 6 => bad line 1\n\
    script get 6g => bad line 1\n\
    script get - => bad line 1\n\
    script put 61 => bad line 1\n\
    script put =01 => bad line 1\n\
    script put 61= => bad line 1\n\
    script put 61=01=02 => bad line 1\n\
    script cut 1 all;cut 0 all => bad line 2\n\
    script fault 1 all => bad line 1\n\
    # The replies to a script.\n\
    keys put 61=01 62=02;get 61;put 75=03;put 89=04 62=05;get 62;put 89=04 61=~;get 61;get 89; \
    => stored 2;value 61 01;stored 1;refused bucket 17;value 62 02;stored 2;absent 61;value 89 04;\n\
    keys put 61=01 62=02;cut 2 bad;put 61=07 62=08;get 61;get 62; \
    => stored 2;armed;cut;value 61 01;value 62 02;\n\
    keys put 61=01 62=02;cut 2 all;put 61=07 62=08;get 61;get 62; \
    => stored 2;armed;cut;value 61 07;value 62 08;\n\
    keys # A put\r;; put;put 61=- 61=01;put 01=01 02=01 03=01 04=01 05=01 06=01 07=01 08=01;put 0A=-;get 0a;\
    put 01=~ 02=~ 03=~ 04=~ 05=~ 06=~ 07=~ 08=~ 09=~ 0b=~ 0c=~ 0d=~ 0e=~ 0f=~ 10=~ 11=~ 12=~ 0c=~; \
    => refused empty;refused repeated 61;refused wide 8;stored 1;value 0a -;refused repeated 0c;";

/// Whether a key of one byte has a bucket among 20.
pub fn is_bucket(byte: &str, wanted: &str) -> bool {
    match byte.parse::<u8>() {
        Ok(byte) => bucket(&[byte], 20) == number_of(wanted),
        Err(_) => false,
    }
}

/// Whether a script has the number of commands, or the first bad line, that a text says.
fn tells(alloc: Global, script: &[u8], wanted: &str) -> bool {
    if script.len() > 1000 {
        return false;
    }
    match parse_keys(alloc, script) {
        Ok(list) => list.len() == number_of(wanted) as usize,
        Err(TextError::Line(line)) => {
            number_of(wanted.strip_prefix("bad line ").unwrap_or("")) == line
        }
        Err(TextError::Memory) => false,
    }
}

/// Whether a script reads as it is wanted.
pub fn is_read(alloc: Global, script: &str, wanted: &str) -> bool {
    match bytes_of(alloc, script) {
        Ok(bytes) => tells(alloc, &bytes, wanted),
        Err(_) => false,
    }
}

/// Serves a script on a fresh device. Returns whether it could.
fn is_served(alloc: Global, script: &[u8], replies: &mut Vec<u8>) -> bool
    requires { length script.now ≤ 1000 }
{
    let Ok(list) = parse_keys(alloc, script) else {
        return false;
    };
    let Some(flash) = blank_flash(alloc, SMALL) else {
        return false;
    };
    let (flash, result) = key_serve::<MemFlash, Bpcc>(alloc, flash, SMALL, &list, replies);
    drop(flash);
    result.is_ok()
}

/// Whether a script has these replies.
fn has_replies(alloc: Global, script: &[u8], wanted: &[u8]) -> bool {
    if script.len() > 1000 {
        return false;
    }
    let mut replies = Vec::new(alloc);
    is_served(alloc, script, &mut replies) && replies.as_slice() == wanted
}

/// Whether a script is served with the replies that are wanted.
pub fn is_answered(alloc: Global, script: &str, wanted: &str) -> bool {
    match (bytes_of(alloc, script), bytes_of(alloc, wanted)) {
        (Ok(script), Ok(replies)) => has_replies(alloc, &script, &replies),
        _ => false,
    }
}

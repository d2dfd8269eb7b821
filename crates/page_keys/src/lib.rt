//! A store of short keys over a device: a finite map of which a put changes all its keys at once.
#![tactic(auto)]

mod answers;
mod changes;
mod command;
mod entries;
mod grouping;
mod hashing;
mod key_calls;
mod key_error;
mod key_line;
mod key_reply;
mod key_serving;
mod key_session;
mod key_verb;
mod key_words;
mod pages;
mod putting;
mod reading;
mod refusals;
mod repeats;
mod script;
mod short_bytes;
mod store;
mod theorems;
mod writing;

pub use answers::{KeyError, PutError};
pub use changes::{Change, Changes};
pub use command::KeyCommand;
pub use hashing::bucket;
pub use key_error::KeyServeError;
pub use key_reply::{KeyReply, key_reply_text};
pub use key_serving::key_serve;
pub use script::parse_keys;
pub use short_bytes::{MAX_SHORT, ShortBytes};
pub use store::KeyStore;
pub use theorems::{arrays_show_maps, puts_are_whole, runs_leave_maps};

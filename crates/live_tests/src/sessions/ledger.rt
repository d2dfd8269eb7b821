//! What a device holds, by the lines of commands and of their replies alone.
use crate::lines::{number_at, word};
use std::alloc::Global;

/// What the three pages of a device begin with, and 0 for a page that is blank.
#[derive(Clone, Copy, PartialEq, Eq)]
pub struct Array {
    pub bytes: [u8; 3],
}

/// An open transaction.
#[derive(Clone, Copy)]
struct Open {
    tag: u32,
    /// How many of its pages are not written.
    left: u32,
    /// What each page begins with that it writes.
    writes: [Option<u8>; 3],
}

/// The byte of two hexadecimal digits, and 0 where there are none.
fn byte_of(digits: &str) -> u8 {
    u8::from_str_radix(digits, 16).unwrap_or(0)
}

impl Open {
    /// The transaction of a write.
    fn new(command: &str) -> Open {
        let mut open = Open {
            tag: number_at(command, 1),
            left: 0,
            writes: [None; 3],
        };
        for entry in command.split(' ').skip(2) {
            open.add(entry);
        }
        open
    }

    /// Adds a page and what it begins with.
    fn add(&mut self, entry: &str) {
        let (page, digits) = entry.split_once('=').unwrap_or((entry, ""));
        let page = page.parse::<usize>().unwrap_or(3);
        if page < 3 {
            self.writes[page] = Some(byte_of(digits));
            self.left = self.left.saturating_add(1);
        }
    }

    /// An array with the pages that it writes.
    fn over(&self, array: Array) -> Array {
        let mut array = array;
        for page in 0..3 {
            if let Some(byte) = self.writes[page] {
                array.bytes[page] = byte;
            }
        }
        array
    }

    /// Whether a command may write the last of its pages.
    fn is_completed_by(&self, command: &str) -> bool {
        let is_named = self.tag == number_at(command, 1);
        match word(command, 0) {
            "finish" => is_named,
            "step" => is_named && self.left <= 1,
            "stepall" => self.left <= 1,
            _ => false,
        }
    }
}

/// The arrays that a device may have, and what is open.
#[derive(Drop)]
pub struct Ledger {
    arrays: Vec<Array>,
    open: Vec<Open>,
    /// How many of the arrays it may have without the command in hand.
    without: usize,
}

/// Adds to some arrays each of them with the pages of a transaction.
fn add_over(arrays: &mut Vec<Array>, open: Open) -> bool {
    for at in 0..arrays.len() {
        if let Some(array) = arrays.get(at).copied()
            && arrays.push(open.over(array)).is_err()
        {
            return false;
        }
    }
    true
}

impl Ledger {
    /// A device with this array, on which nothing is open.
    pub fn new(alloc: Global, array: Array) -> Option<Ledger> {
        let mut arrays = Vec::new(alloc);
        match arrays.push(array) {
            Ok(()) => Some(Ledger {
                arrays,
                open: Vec::new(alloc),
                without: 1,
            }),
            Err(_) => None,
        }
    }

    /// Notes a command and its reply. Returns whether it may be answered so.
    pub fn note(&mut self, command: &str, reply: &str) -> bool {
        let is_right = self.end(command, reply) && self.go_on(command, reply);
        self.without = self.arrays.len();
        is_right
    }

    /// Notes a reply that says what became of a transaction, or of all.
    fn end(&mut self, command: &str, reply: &str) -> bool {
        match word(reply, 0) {
            "done" | "late" => self.complete(number_at(reply, 1)),
            "aborted" => self.take(number_at(reply, 1)).is_some(),
            "fault" => self.doubt(command),
            "cut" | "dropped" => {
                let is_right = self.doubt(command);
                self.open.clear();
                is_right
            }
            _ => true,
        }
    }

    /// Notes a reply that says how a transaction goes on, or what a page holds.
    fn go_on(&mut self, command: &str, reply: &str) -> bool {
        match word(reply, 0) {
            "open" => self.open.push(Open::new(command)).is_ok(),
            "wrote" => self.advance(number_at(reply, 1)),
            "moved" => self.advance_first(number_at(reply, 1)) == number_at(reply, 3),
            "page" => self.keep(number_at(reply, 1), first_byte(reply)),
            "blank" => self.keep(number_at(reply, 1), 0),
            _ => true,
        }
    }

    /// The command in hand is not answered: it may have completed what it can complete, or not.
    pub fn break_off(&mut self, command: &str) -> bool {
        self.without = self.arrays.len();
        self.doubt(command)
    }

    /// Whether the device may have an array, and whether it has it by what the command in hand completed.
    pub fn find(&self, array: Array) -> Option<bool> {
        let place = self.arrays.iter().position(|other| *other == array)?;
        Some(place >= self.without)
    }

    /// Where the transaction with a tag stands.
    fn place_of(&self, tag: u32) -> Option<usize> {
        self.open.iter().position(|open| open.tag == tag)
    }

    /// Takes out the transaction with a tag.
    fn take(&mut self, tag: u32) -> Option<Open> {
        match self.place_of(tag) {
            Some(at) if at < self.open.len() => Some(self.open.remove(at)),
            _ => None,
        }
    }

    /// The transaction with a tag is there.
    fn complete(&mut self, tag: u32) -> bool {
        match self.take(tag) {
            Some(open) => {
                self.lay(open);
                true
            }
            None => false,
        }
    }

    /// Each array has the pages of a transaction.
    fn lay(&mut self, open: Open) {
        for at in 0..self.arrays.len() {
            self.arrays[at] = open.over(self.arrays[at]);
        }
    }

    /// The transaction with a tag has one page less to write.
    fn advance(&mut self, tag: u32) -> bool {
        match self.take(tag) {
            Some(open) => {
                let left = open.left.saturating_sub(1);
                self.open.push(Open { left, ..open }).is_ok()
            }
            None => false,
        }
    }

    /// The first transactions have one page less to write. Returns how many are there then.
    fn advance_first(&mut self, count: u32) -> u32 {
        let mut done = 0u32;
        for _ in 0..count {
            if self.open.is_empty() {
                return u32::MAX;
            }
            let open = self.open.remove(0);
            if open.left <= 1 {
                self.lay(open);
                done = done.saturating_add(1);
            } else if self
                .open
                .push(Open {
                    left: open.left - 1,
                    ..open
                })
                .is_err()
            {
                return u32::MAX;
            }
        }
        done
    }

    /// Each transaction that a command may complete is there or not.
    fn doubt(&mut self, command: &str) -> bool {
        for at in 0..self.open.len() {
            let open = self.open[at];
            if open.is_completed_by(command) && !add_over(&mut self.arrays, open) {
                return false;
            }
        }
        true
    }

    /// Keeps the arrays in which a page begins so. Returns whether there are any.
    fn keep(&mut self, page: u32, byte: u8) -> bool {
        let page = page as usize;
        if page >= 3 {
            return false;
        }
        self.arrays.retain(|array| array.bytes[page] == byte);
        !self.arrays.is_empty()
    }
}

/// What the page of a reply begins with.
fn first_byte(reply: &str) -> u8 {
    byte_of(word(reply, 2).get(0..2).unwrap_or(""))
}

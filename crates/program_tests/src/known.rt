//! Which devices are possible after the replies to some commands. A command has a verb, mostly a tag, and entries.
use crate::words::{begins_with, digit, halves, has_words, word};
use crate::worlds::{BLANK, Mark, NONE, Open, World};
use std::alloc::Global;

/// Of a page all digits but the first two.
const ZEROS: &str = "000000000000000000000000000000";

/// The devices that a reply leaves possible, and what it was given under.
#[derive(Drop)]
struct Fitting<'a, 'r> {
    reply: &'r str,
    /// The command that set the arm, if one is set.
    arm: &'a str,
    worlds: Vec<World<'a>>,
    /// Whether there was no memory for a device.
    is_short: bool,
}

impl<'a, 'r> Fitting<'a, 'r> {
    /// Takes a device in.
    fn keep(&mut self, world: World<'a>) {
        self.is_short |= self.worlds.push(world).is_err();
    }

    /// Takes a device in where the reply has these words.
    fn offer(&mut self, words: &[&str], world: World<'a>) {
        if has_words(self.reply, words) {
            self.keep(world);
        }
    }

    /// Takes in a device of a command in that the arm came due, if there is one.
    fn break_in(&mut self, world: World<'a>) {
        if self.arm.starts_with("cut") {
            self.offer(&["cut"], world.reopened());
        } else if !self.arm.is_empty() {
            self.offer(&["fault"], world);
        }
    }

    /// Takes in what a command may leave of a device.
    fn answer(&mut self, line: &'a str, world: World<'a>) {
        let (verb, rest) = halves(line, " ");
        match verb {
            "write" => self.write(rest, world),
            "step" | "finish" | "abort" => self.go_on(verb, rest, world),
            "read" => self.read(rest, world),
            "collect" => self.collect(world.settled()),
            "stats" => self.count(world),
            _ if line == self.arm => self.offer(&["armed"], world),
            _ => {}
        }
    }

    /// Takes in what a collection leaves of a device.
    fn collect(&mut self, world: World<'a>) {
        self.offer(&["collected"], world);
        self.offer(&["nothing"], world);
        self.break_in(world);
    }

    /// Takes a device in where the reply is its numbers, of which the first three are known.
    fn count(&mut self, world: World<'a>) {
        let (tags, pages) = world.pending();
        let is_so = begins_with(
            self.reply,
            &[
                "stats",
                "written",
                digit(world.written()),
                "open",
                digit(tags),
                "pending",
                digit(pages),
                "programs",
            ],
        );
        if is_so {
            self.keep(world);
        }
    }

    /// Takes a device in where the reply is that of a read of a page.
    fn read(&mut self, page: &str, world: World<'a>) {
        let digits = world.digits(page);
        if digits.is_empty() {
            return self.offer(&["blank", page], world);
        }
        let bytes = word(self.reply, 2);
        if bytes.strip_prefix(digits) == Some(ZEROS) {
            self.offer(&["page", page, bytes], world);
        }
        if self.arm.starts_with("badread") {
            self.break_in(world);
        }
    }

    /// Takes in what a write may leave of a device.
    fn write(&mut self, rest: &'a str, world: World<'a>) {
        let (tag, pages) = halves(rest, " ");
        if world.find(tag).is_some() {
            return self.offer(&["refused", "tag", tag], world);
        }
        for entry in pages.split(' ') {
            let (page, _) = halves(entry, "=");
            let owner = world.owner(page);
            if !owner.is_empty() {
                return self.offer(&["refused", "overlap", page, owner], world);
            }
        }
        self.open(Open { tag, pages, ..NONE }, world);
    }

    /// Takes in what a write of pages that no other transaction has may leave of a device.
    fn open(&mut self, open: Open<'a>, world: World<'a>) {
        let count = open.len();
        let free = 3usize.saturating_sub(world.pending().1);
        if count > free {
            self.offer(&["refused", "full", digit(free)], world);
        } else {
            let (tag, count): (&'a str, &'a str) = (open.tag, digit(count));
            self.offer(&["open", tag, count], world.changed("", open));
        }
    }

    /// Takes in what a step, a finish or an abort may leave of a device. It finds what a fault left, where it knows the
    /// transaction.
    fn go_on(&mut self, verb: &str, tag: &'a str, world: World<'a>) {
        match world.settled().find(tag) {
            Some(open) => self.move_on(verb, open, world.settled()),
            None => self.offer(&["unknown", tag], world),
        }
    }

    /// Takes in what it may leave where the transaction is open.
    fn move_on(&mut self, verb: &str, open: Open<'a>, world: World<'a>) {
        let tag = open.tag;
        let gone = world.changed(tag, NONE);
        let is_whole = matches!(open.mark, Mark::Whole);
        match verb {
            "abort" if is_whole => self.offer(&["late", tag], gone),
            "abort" => self.offer(&["aborted", tag], gone),
            _ if is_whole => self.offer(&["done", tag], gone),
            _ => {
                self.write_on(verb, open, world);
                self.break_off(verb, open, world);
            }
        }
    }

    /// Takes in what a step or a finish that nothing breaks leaves of a device.
    fn write_on(&mut self, verb: &str, open: Open<'a>, world: World<'a>) {
        let tag = open.tag;
        let count = open.len();
        let written = open.written.saturating_add(1);
        if written < count && verb == "step" {
            let (now, all): (&'a str, &'a str) = (digit(written), digit(count));
            let next = world.changed(tag, open.with(written, Mark::Plain));
            self.offer(&["wrote", tag, now, all], next);
        } else {
            self.offer(&["done", tag], world.changed(tag, NONE).put(open.pages));
        }
    }

    /// Takes in what a step that breaks may leave of a device, or a finish, which goes the whole way, where one of its
    /// operations breaks. The last page may be there only where that operation was done all the same.
    fn break_off(&mut self, verb: &str, open: Open<'a>, world: World<'a>) {
        let count = open.len();
        for written in open.written..count {
            if verb == "finish" || written == open.written {
                self.break_in(world.changed(open.tag, open.with(written, Mark::Plain)));
                if written.saturating_add(1) == count && self.arm.ends_with(" all") {
                    self.break_in(world.changed(open.tag, open.with(written, Mark::Unseen)));
                }
            }
        }
    }
}

/// What is known of a device: the answers of its commands so far leave one of these.
#[derive(Drop)]
pub struct Known<'a> {
    alloc: Global,
    arm: &'a str,
    worlds: Vec<World<'a>>,
}

impl<'a> Known<'a> {
    /// A blank device, where there is memory for it.
    pub fn new(alloc: Global) -> Option<Known<'a>> {
        match vec![in alloc; BLANK] {
            Ok(worlds) => Some(Known {
                alloc,
                arm: "",
                worlds,
            }),
            Err(_) => None,
        }
    }

    /// The device is opened anew, without an arm.
    pub fn reopen(&mut self) {
        self.arm = "";
        for world in &mut self.worlds {
            *world = world.reopened();
        }
    }

    /// Takes the line of a command and its reply in. Returns whether the reply is possible.
    pub fn take(&mut self, line: &'a str, reply: &str) -> bool {
        let verb = halves(line, " ").0;
        if verb == "cut" || verb == "fault" || verb == "badread" {
            self.arm = line;
        }
        let mut fitting = Fitting {
            reply,
            arm: self.arm,
            worlds: Vec::new(self.alloc),
            is_short: false,
        };
        answer_all(line, &self.worlds, &mut fitting);
        let is_possible = !fitting.is_short && !fitting.worlds.is_empty();
        self.worlds = fitting.worlds;
        is_possible
    }
}

/// Takes in what a command may leave of each of these devices.
fn answer_all<'a>(line: &'a str, worlds: &[World<'a>], fitting: &mut Fitting<'a, '_>) {
    for world in worlds {
        fitting.answer(line, *world);
    }
}

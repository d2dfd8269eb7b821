//! What a device may be, as far as its replies tell: a small array of pages in which a transaction changes all its
//! pages at once.
use crate::words::{halves, number_of};

/// What the device knows of the last page of a transaction.
#[derive(Clone, Copy)]
pub enum Mark {
    /// It is not written.
    Plain,
    /// It is written, and the device has not found that yet.
    Unseen,
    /// It is written, and so all pages have changed.
    Whole,
}

/// A transaction that is open: its tag, which is empty where there is none, its entries as `0=11 1=12`, a page and two
/// digits each, how many of its pages were written, and what is known of the last.
#[derive(Clone, Copy)]
pub struct Open<'a> {
    pub tag: &'a str,
    pub pages: &'a str,
    pub written: usize,
    pub mark: Mark,
}

/// No transaction.
pub const NONE: Open = Open {
    tag: "",
    pages: "",
    written: 0,
    mark: Mark::Plain,
};

impl<'a> Open<'a> {
    /// How many pages it has.
    pub fn len(&self) -> usize {
        self.pages.split(' ').count()
    }

    /// This transaction, with this many of its pages written.
    pub fn with(self, written: usize, mark: Mark) -> Open<'a> {
        Open {
            tag: self.tag,
            pages: self.pages,
            written,
            mark,
        }
    }

    /// Whether it has a page.
    fn has(&self, page: &str) -> bool {
        for entry in self.pages.split(' ') {
            if halves(entry, "=").0 == page {
                return true;
            }
        }
        false
    }
}

/// A device of four pages, of which three may be pending: of each page the two digits of its first byte, none where
/// it is blank, and the transactions that are open.
#[derive(Clone, Copy)]
pub struct World<'a> {
    array: [&'a str; 4],
    open: [Open<'a>; 3],
}

/// A blank device.
pub const BLANK: World = World {
    array: [""; 4],
    open: [NONE; 3],
};

impl<'a> World<'a> {
    /// The open transaction with this tag.
    pub fn find(&self, tag: &str) -> Option<Open<'a>> {
        for open in &self.open {
            if open.tag == tag {
                return Some(*open);
            }
        }
        None
    }

    /// The tag of the open transaction that a page belongs to.
    pub fn owner(&self, page: &str) -> &'a str {
        for open in &self.open {
            if open.has(page) {
                return open.tag;
            }
        }
        ""
    }

    /// How many transactions are open, and how many pages they have.
    pub fn pending(&self) -> (usize, usize) {
        let mut tags: usize = 0;
        let mut pages: usize = 0;
        for open in &self.open {
            if !open.tag.is_empty() {
                tags = tags.saturating_add(1);
                pages = pages.saturating_add(open.len());
            }
        }
        (tags, pages)
    }

    /// How many pages are written.
    pub fn written(&self) -> usize {
        let mut written: usize = 0;
        for digits in &self.array {
            if !digits.is_empty() {
                written = written.saturating_add(1);
            }
        }
        written
    }

    /// The digits of a page.
    pub fn digits(&self, page: &str) -> &'a str {
        match self.array.get(number_of(page)) {
            Some(digits) => *digits,
            None => "",
        }
    }

    /// The device with another in the place of the first transaction with this tag.
    pub fn changed(mut self, tag: &str, to: Open<'a>) -> World<'a> {
        for place in &mut self.open {
            if place.tag == tag {
                *place = to;
                break;
            }
        }
        self
    }

    /// The device after all pages of a transaction have changed.
    pub fn put(mut self, pages: &'a str) -> World<'a> {
        for entry in pages.split(' ') {
            let (page, digits) = halves(entry, "=");
            if let Some(place) = self.array.get_mut(number_of(page)) {
                *place = digits;
            }
        }
        self
    }

    /// The device after it has found what a fault left.
    pub fn settled(self) -> World<'a> {
        let mut next = self;
        for open in &self.open {
            if matches!(open.mark, Mark::Unseen) {
                let whole = open.with(open.written, Mark::Whole);
                next = next.put(open.pages).changed(open.tag, whole);
            }
        }
        next
    }

    /// The device that is opened anew from the same flash.
    pub fn reopened(self) -> World<'a> {
        let mut next = self.settled();
        next.open = [NONE; 3];
        next
    }
}

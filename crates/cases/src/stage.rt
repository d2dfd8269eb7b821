use crate::stop::Stop;
use desk_io::MemDesk;
use std::alloc::Global;

/// A desk in memory, and what the lines of a case refer to.
#[derive(Drop)]
pub struct Stage<'a> {
    pub alloc: Global,
    pub desk: MemDesk,
    /// What the case shows.
    pub title: &'a str,
    /// The file that a line of text is added to.
    pub file: &'a str,
    /// The status of the last call.
    pub status: u8,
    /// Where what the last call said begins in all that was said.
    pub begin: usize,
    /// How much of all that was said the lines of the case have told.
    pub heard: usize,
}

impl<'a> Stage<'a> {
    /// A desk without files, on which no call fails.
    pub fn new(alloc: Global) -> Stage<'a> {
        Stage {
            alloc,
            desk: MemDesk::new(alloc, Vec::new(alloc)),
            title: "",
            file: "",
            status: 0,
            begin: 0,
            heard: 0,
        }
    }

    /// Takes another desk, on which nothing was said.
    pub fn take_desk(&mut self, desk: MemDesk) {
        self.desk = desk;
        self.begin = 0;
        self.heard = 0;
    }

    /// What was said that no line has told yet.
    pub fn unheard(&self) -> &[u8] {
        self.desk.said().get(self.heard..).unwrap_or(b"")
    }

    /// What the last call said.
    pub fn answer(&self) -> &[u8] {
        self.desk.said().get(self.begin..).unwrap_or(b"")
    }

    /// Takes it that this many bytes more of what was said are told.
    pub fn hear(&mut self, count: usize) {
        self.heard = self.heard.saturating_add(count);
    }

    /// The bytes of a file, which must be there.
    pub fn bytes(&self, name: &str) -> Result<&[u8], Stop> {
        self.desk.file(name).ok_or(Stop::BadLine)
    }

    /// A copy of them.
    pub fn copy(&self, name: &str) -> Result<Vec<u8>, Stop> {
        Ok(self.bytes(name)?.to_vec(self.alloc)?)
    }

    /// Puts a file there, in place of one of its name.
    pub fn put(&mut self, name: &str, bytes: &[u8]) -> Result<(), Stop> {
        Ok(self.desk.put_file(name, bytes)?)
    }
}

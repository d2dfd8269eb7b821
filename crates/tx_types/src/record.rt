ghost use Rattle.std.specs.Prelude.{◌≡◌};
ghost use Rattle.tx_types.specs.Names.{name_of, has_name};

/// The greatest version that a page may have: 2 to the 62nd.
pub const MAX_VERSION: u64 = 4611686018427387904;

/// The name of a record: a logical page at a version.
#[derive(Clone, Copy, PartialEq, Eq)]
pub struct Link {
    /// The logical page, numbered from 0.
    pub page: u32,
    /// From 1 to `MAX_VERSION`.
    pub version: u64,
}

/// What the spare area of a programmed slot says: which page its contents are, at which version, and
/// which record comes next in the cycle of its transaction.
#[derive(Clone, Copy, PartialEq, Eq)]
pub struct Rec {
    /// The logical page of the contents, numbered from 0.
    pub page: u32,
    /// From 1 to `MAX_VERSION`.
    pub version: u64,
    /// The record that comes next. The last one of a transaction has the name of the first.
    pub next: Link,
    /// Under Back Pointer Cyclic Commit the version that was current when the record was written, 0 for
    /// none; under Simple Cyclic Commit 0.
    pub back: u64,
    /// How many records the transaction has, 0 where its records do not say. It tells in which format a record is
    /// stored, and a copy is stored in that of its source, since two records with one name must be equal.
    pub count: u32,
    /// Whether the page was discarded: it then has no contents.
    pub discard: bool,
}

impl Rec {
    /// The record's own name.
    #[inline(always)]
    pub fn name(&self) -> Link
        ensures { result ≡ name_of self.now }
    {
        Link {
            page: self.page,
            version: self.version,
        }
    }

    /// Whether the record has this name.
    #[inline(always)]
    pub fn has_name(&self, name: Link) -> bool
        ensures { result ≡ has_name name self.now }
    {
        self.page == name.page && self.version == name.version
    }
}

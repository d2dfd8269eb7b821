//! What is told of open files.

/// What was told of a file that is open.
#[derive(Clone, Copy)]
pub enum Glance {
    /// It holds its lock.
    Held(u64),
    /// A name leads to it.
    Named(u64),
    /// How many bytes it has, and when it was last written.
    Seen(u64),
}

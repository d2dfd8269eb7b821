use crate::Orbit;

/// What comes after the last node of a path.
#[derive(Clone, Copy, PartialEq, Eq)]
pub enum PathEnd {
    /// Nothing.
    Stops,
    /// A node whose orbit is known.
    Reaches(Orbit),
    /// The node at this place of the path.
    Closes(u32),
}

use crate::Orbit;

/// What is known of a node while the orbits are looked for.
#[derive(Clone, Copy, PartialEq, Eq)]
pub enum Seen {
    /// Nothing.
    New,
    /// It is on the path that is followed now, at this place.
    OnPath(u32),
    /// Its orbit.
    Known(Orbit),
}

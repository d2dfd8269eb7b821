/// Where following the next nodes leads, from a node of a graph in which each node has at most one.
#[derive(Clone, Copy, PartialEq, Eq)]
pub enum Orbit {
    /// After this many steps it is at a node that has no next one.
    Ends { after: u32, at: u32 },
    /// It comes back to the node, for the first time after this many steps.
    Round { length: u32 },
    /// It goes on for ever, and never comes back.
    Aside,
}

//! What is known of the nodes of a graph before any is followed.
ghost use Rattle.std.specs.Prelude.{◌≡◌, ◌+◌, ◌<◌, ◌≤◌, ◌^◌, ◌++◌, ◌∷◌, [], length, vec_len, vec_capacity, IfOk};
ghost use Rattle.sorted_records.specs.Seen.{lone_of, with_new};

use crate::Orbit;
use crate::seen::Seen;
use std::alloc::{AllocError, Global};

/// What is known of the first nodes of a graph before any is followed, and which of them are new.
#[derive(Drop)]
pub struct LoneNodes {
    pub seen: Vec<Seen>,
    pub others: Vec<u32>,
}

impl LoneNodes {
    /// Room for this many nodes.
    pub fn with_capacity(alloc: Global, count: usize) -> Result<LoneNodes, AllocError>
        ensures seen { IfOk result (λ l. l.seen.items ≡ []) }
        ensures others { IfOk result (λ l. l.others.items ≡ []) }
        ensures seen_room { IfOk result (λ l. count ≤ vec_capacity l.seen) }
        ensures others_room { IfOk result (λ l. count ≤ vec_capacity l.others) }
    {
        Ok(LoneNodes {
            seen: Vec::with_capacity(alloc, count)?,
            others: Vec::with_capacity(alloc, count)?,
        })
    }

    /// Notes what is known of the node at this place, which comes next, by the one that follows it. There is room.
    #[inline(always)]
    pub fn note(&mut self, node: u32, next: Option<u32>)
        requires seen { vec_len self.old.seen < vec_capacity self.old.seen }
        requires others { vec_len self.old.others < vec_capacity self.old.others }
        ensures seen { self.new.seen.items ≡ self.old.seen.items ++ lone_of next node ∷ [] }
        ensures others { self.new.others.items ≡ with_new (lone_of next node) node self.old.others.items }
        ensures seen_room { vec_capacity self.new.seen ≡ vec_capacity self.old.seen }
        ensures others_room { vec_capacity self.new.others ≡ vec_capacity self.old.others }
        ensures seen_len { vec_len self.new.seen ≡ vec_len self.old.seen + 1 }
        ensures others_len { vec_len self.new.others ≤ vec_len self.old.others + 1 }
    {
        let first = lone(node, next);
        self.seen.push_reserved(first);
        match first {
            Seen::New => self.others.push_reserved(node),
            Seen::OnPath(_) | Seen::Known(_) => {}
        }
    }
}

/// What is known of a node by the one that follows it: its orbit, where none does, or it follows itself.
#[inline(always)]
fn lone(node: u32, next: Option<u32>) -> Seen
    ensures { result ≡ lone_of next node }
{
    match next {
        None => Seen::Known(Orbit::Ends { after: 0, at: node }),
        Some(next) => {
            if next == node {
                Seen::Known(Orbit::Round { length: 1 })
            } else {
                Seen::New
            }
        }
    }
}

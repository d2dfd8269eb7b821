ghost use Rattle.std.specs.Prelude.{◌≡◌, ◌≢◌, ℕ, ◌<◌, ◌^◌, [], IfOk, OnOk, length, slice_index_or};
ghost use Rattle.sorted_records.specs.Orbits.{IsGraph, AreOrbits};
ghost use Rattle.sorted_records.specs.Seen.{seen_at, AreLone, IsFollowed};
ghost use Rattle.sorted_records.specs.declared.orbit.Orbit.TheVariants.{Aside};
ghost use Rattle.sorted_records.specs.declared.seen.Seen.TheVariants.{New};

use crate::Orbit;
use crate::follow::find;
use crate::lone_nodes::LoneNodes;
use crate::seen::Seen;
use std::alloc::{AllocError, Global};
use std::marker::Model;

/// The orbits of all nodes of a graph in which each node has at most one next node.
#[derive(Drop)]
pub struct Orbits {
    seen: Vec<Seen>,
}

impl Model for Orbits {
    ghost use Rattle.std.specs.Prelude.{List, map};
    ghost use Rattle.sorted_records.specs.declared.orbit.Orbit.{Orbit};
    ghost use Rattle.sorted_records.specs.Seen.{orbit_in};

    ghost Value = { List Orbit };

    ghost view = { λ o. map orbit_in o.seen.items };
}

impl Orbits {
    /// Follows the next node of each, once.
    pub fn new(alloc: Global, graph: &[Option<u32>]) -> Result<Orbits, AllocError>
        requires graph { IsGraph graph.now }
        requires size { length graph.now < 2 ^ 32 }
        ensures { IfOk result (AreOrbits graph.now) }
    {
        let lone = lone_nodes(alloc, graph)?;
        Orbits::from_lone_nodes(alloc, graph, lone)
    }

    /// Follows the next node of each that is new, once, where the others are known.
    pub(crate) fn from_lone_nodes(
        alloc: Global,
        graph: &[Option<u32>],
        lone: LoneNodes,
    ) -> Result<Orbits, AllocError>
        requires graph { IsGraph graph.now }
        requires size { length graph.now < 2 ^ 32 }
        requires lone { AreLone graph.now (length graph.now) lone.seen.items lone.others.items }
        ensures { IfOk result (AreOrbits graph.now) }
    {
        let LoneNodes { mut seen, others } = lone;
        follow_each(alloc, graph, &others, &mut seen)?;
        Ok(Orbits { seen })
    }

    /// The orbit of a node.
    #[inline]
    pub fn orbit(&self, node: u32) -> Orbit
        requires { node < length self.now }
        ensures { result ≡ slice_index_or self.now node Aside }
    {
        match self.seen[node as usize] {
            Seen::Known(orbit) => orbit,
            Seen::New | Seen::OnPath(_) => Orbit::Aside,
        }
    }
}

/// What is known of the nodes of a graph before any is followed.
fn lone_nodes(alloc: Global, graph: &[Option<u32>]) -> Result<LoneNodes, AllocError>
    requires size { length graph.now < 2 ^ 32 }
    ensures { IfOk result (λ lone.
        AreLone graph.now (length graph.now) lone.seen.items lone.others.items) }
{
    let mut lone = LoneNodes::with_capacity(alloc, graph.len())?;
    for node in 0..graph.len() {
        lone.note(node as u32, graph[node]);
    }
    Ok(lone)
}

/// Finds the orbits of these nodes. They are all that are new.
fn follow_each(
    alloc: Global,
    graph: &[Option<u32>],
    nodes: &[u32],
    seen: &mut [Seen],
) -> Result<(), AllocError>
    requires graph { IsGraph graph.now }
    requires size { length graph.now < 2 ^ 32 }
    requires lone { AreLone graph.now (length graph.now) seen.old nodes.now }
    ensures followed { OnOk result (IsFollowed graph.now seen.new []) }
    ensures known { OnOk result ((i : ℕ) → i < length graph.now → seen_at seen.new i ≢ New) }
{
    let mut path = Vec::new(alloc);
    for node in nodes {
        find(graph, *node, seen, &mut path)?;
    }
    Ok(())
}

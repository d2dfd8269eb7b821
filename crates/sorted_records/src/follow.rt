ghost use Rattle.std.specs.Prelude.{◌≡◌, ◌≢◌, ℕ, ◌-◌, ◌<◌, ◌^◌, [], ◌∷◌, ◌++◌, All, IfOk, IfSome, OnOk, length, take, drop, slice_set};
ghost use Rattle.sorted_records.specs.Orbits.{IsGraph, IsOrbit};
ghost use Rattle.sorted_records.specs.Seen.{seen_at, noted, orbit_before, MayGrow, IsFollowed, EndsBy, StaysSeen, LeadsNoFurther};
ghost use Rattle.sorted_records.specs.declared.orbit.Orbit.TheVariants.{Round};
ghost use Rattle.sorted_records.specs.declared.seen.Seen.TheVariants.{New, OnPath};

use crate::Orbit;
use crate::path_end::PathEnd;
use crate::seen::Seen;
use std::alloc::AllocError;

/// Finds the orbits of a node, and of each new one to which it leads, if it is new. The path, which is
/// empty, is room to work in, and is empty again.
#[inline(always)]
pub fn find(
    graph: &[Option<u32>],
    start: u32,
    seen: &mut [Seen],
    path: &mut Vec<u32>,
) -> Result<(), AllocError>
    requires graph { IsGraph graph.now }
    requires size { length graph.now < 2 ^ 32 }
    requires start { start < length graph.now }
    requires path { path.old.items ≡ [] }
    requires followed { IsFollowed graph.now seen.old [] }
    ensures path { OnOk result (path.new.items ≡ []) }
    ensures followed { OnOk result (IsFollowed graph.now seen.new []) }
    ensures seen { OnOk result (StaysSeen seen.old seen.new) }
    ensures start { OnOk result (seen_at seen.new start ≢ New) }
{
    match seen[start as usize] {
        Seen::New => find_new(graph, start, seen, path),
        Seen::OnPath(_) | Seen::Known(_) => Ok(()),
    }
}

/// Finds the orbits of a node that is new, and of each new one to which it leads.
#[inline(always)]
fn find_new(
    graph: &[Option<u32>],
    start: u32,
    seen: &mut [Seen],
    path: &mut Vec<u32>,
) -> Result<(), AllocError>
    requires graph { IsGraph graph.now }
    requires size { length graph.now < 2 ^ 32 }
    requires start { start < length graph.now }
    requires new { seen_at seen.old start ≡ New }
    requires path { path.old.items ≡ [] }
    requires followed { IsFollowed graph.now seen.old [] }
    ensures path { OnOk result (path.new.items ≡ []) }
    ensures followed { OnOk result (IsFollowed graph.now seen.new []) }
    ensures seen { OnOk result (StaysSeen seen.old seen.new) }
    ensures start { OnOk result (seen_at seen.new start ≢ New) }
{
    match orbit_at_once(graph, start, seen) {
        Some(orbit) => {
            seen[start as usize] = Seen::Known(orbit);
            Ok(())
        }
        None => find_along(graph, start, seen, path),
    }
}

/// The orbit of a node that is new, where that of its next one is known; nothing for any other.
#[inline(always)]
fn orbit_at_once(graph: &[Option<u32>], node: u32, seen: &[Seen]) -> Option<Orbit>
    requires graph { IsGraph graph.now }
    requires size { length graph.now < 2 ^ 32 }
    requires node { node < length graph.now }
    requires new { seen_at seen.now node ≡ New }
    requires followed { IsFollowed graph.now seen.now [] }
    ensures orbit { IfSome result (IsOrbit graph.now node) }
    ensures leads { IfSome result (λ _. LeadsNoFurther graph.now seen.now node) }
{
    let next = graph[node as usize]?;
    match seen[next as usize] {
        Seen::Known(orbit) => Some(orbit_before(node, Some(orbit))),
        Seen::New | Seen::OnPath(_) => None,
    }
}

/// Finds the orbit of a new node, and of each node on the path that it leads along. The path is empty before and after.
#[inline(never)]
fn find_along(
    graph: &[Option<u32>],
    start: u32,
    seen: &mut [Seen],
    path: &mut Vec<u32>,
) -> Result<(), AllocError>
    requires graph { IsGraph graph.now }
    requires size { length graph.now < 2 ^ 32 }
    requires start { start < length graph.now }
    requires new { seen_at seen.old start ≡ New }
    requires path { path.old.items ≡ [] }
    requires followed { IsFollowed graph.now seen.old [] }
    ensures path { OnOk result (path.new.items ≡ []) }
    ensures followed { OnOk result (IsFollowed graph.now seen.new []) }
    ensures seen { OnOk result (StaysSeen seen.old seen.new) }
    ensures start { OnOk result (seen_at seen.new start ≢ New) }
{
    // the orbit of the node that comes after the last of the path
    let mut behind = match follow(graph, start, seen, path)? {
        PathEnd::Stops => None,
        PathEnd::Reaches(orbit) => Some(orbit),
        PathEnd::Closes(place) => Some(close(seen, path, place)),
    };
    while let Some(at) = path.pop() {
        let orbit = orbit_before(at, behind);
        seen[at as usize] = Seen::Known(orbit);
        behind = Some(orbit);
    }
    Ok(())
}

/// Follows the next nodes from one that is new, to the first that has none or leads to one that was
/// seen.
fn follow(
    graph: &[Option<u32>],
    start: u32,
    seen: &mut [Seen],
    path: &mut Vec<u32>,
) -> Result<PathEnd, AllocError>
    requires graph { IsGraph graph.now }
    requires size { length graph.now < 2 ^ 32 }
    requires start { start < length graph.now }
    requires new { seen_at seen.old start ≡ New }
    requires path { path.old.items ≡ [] }
    requires followed { IsFollowed graph.now seen.old [] }
    ensures followed { OnOk result (IsFollowed graph.now seen.new path.new.items) }
    ensures end { IfOk result (EndsBy graph.now seen.new path.new.items) }
    ensures seen { OnOk result (StaysSeen seen.old seen.new) }
    ensures start { OnOk result (seen_at seen.new start ≢ New) }
{
    let mut at = start;
    loop {
        take(seen, path, at)?;
        let Some(next) = graph[at as usize] else {
            return Ok(PathEnd::Stops);
        };
        match seen[next as usize] {
            Seen::New => at = next,
            Seen::OnPath(place) => return Ok(PathEnd::Closes(place)),
            Seen::Known(orbit) => return Ok(PathEnd::Reaches(orbit)),
        }
    }
}

/// Takes a node to the end of the path, and notes its place.
fn take(seen: &mut [Seen], path: &mut Vec<u32>, at: u32) -> Result<(), AllocError>
    requires within { at < length seen.old }
    requires few { length path.old.items < 2 ^ 32 }
    ensures seen { OnOk result (seen.new ≡ slice_set seen.old at (OnPath (length path.old.items))) }
    ensures path { OnOk result (path.new.items ≡ path.old.items ++ at ∷ []) }
{
    let place = path.len() as u32;
    path.push(at)?;
    seen[at as usize] = Seen::OnPath(place);
    Ok(())
}

/// Notes the orbit of the nodes of the path from this place on, which are a ring, and takes them off it.
fn close(seen: &mut [Seen], path: &mut Vec<u32>, place: u32) -> Orbit
    requires place { place < length path.old.items }
    requires few { length path.old.items < 2 ^ 32 }
    requires within { All (λ i. i < length seen.old) (drop place path.old.items) }
    ensures orbit { result ≡ Round (length path.old.items - place) }
    ensures seen { seen.new ≡ noted result (drop place path.old.items) seen.old }
    ensures path { path.new.items ≡ take place path.old.items }
{
    let length = path.len() as u32 - place;
    let orbit = Orbit::Round { length };
    note(seen, &path[place as usize..], orbit);
    path.truncate(place as usize);
    orbit
}

/// Notes the orbit of all these nodes.
fn note(seen: &mut [Seen], nodes: &[u32], orbit: Orbit)
    requires { All (λ i. i < length seen.old) nodes.now }
    ensures { seen.new ≡ noted orbit nodes.now seen.old }
{
    for node in nodes {
        seen[*node as usize] = Seen::Known(orbit);
    }
}

/// The orbit of a node that is in no ring, by the orbit of the one that comes after it, if one does.
fn orbit_before(at: u32, behind: Option<Orbit>) -> Orbit
    requires { MayGrow behind }
    ensures { result ≡ orbit_before at behind }
{
    match behind {
        None => Orbit::Ends { after: 0, at },
        Some(Orbit::Ends { after, at }) => Orbit::Ends {
            after: after + 1,
            at,
        },
        Some(Orbit::Round { .. } | Orbit::Aside) => Orbit::Aside,
    }
}

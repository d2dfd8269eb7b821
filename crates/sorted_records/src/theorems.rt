//! What holds of orbits and of sorted records. The functions do nothing: each is there for what it
//! ensures.
ghost use Rattle.std.specs.Prelude.{◌≡◌, ◌<◌, ℕ, Option, List, length};
ghost use Rattle.tx_types.specs.declared.config.Protocol.{Protocol};
ghost use Rattle.tx_types.specs.declared.record.Link.{Link};
ghost use Rattle.record_list.specs.Current.{cur, responsible};
ghost use Rattle.record_list.specs.Records.{newest, next_older, is_present};
ghost use Rattle.record_list.specs.Verdict.{link_of, back_of, straddling, why};
ghost use Rattle.record_list.specs.declared.found.Found.{Found};
ghost use Rattle.sorted_records.specs.Orbits.{IsGraph, IsOrbit};
ghost use Rattle.sorted_records.specs.SortedRecords.{Sorts};
ghost use Rattle.sorted_records.specs.declared.orbit.Orbit.{Orbit};

/// Each node of a graph has one orbit, and no more.
pub fn one_orbit()
    ensures some { (graph : List (Option ℕ)) (i : ℕ) → IsGraph graph → i < length graph →
        (orbit : Orbit) × IsOrbit graph i orbit }
    ensures one { (graph : List (Option ℕ)) (i : ℕ) (orbit other : Orbit) →
        IsOrbit graph i orbit → IsOrbit graph i other → orbit ≡ other }
{}

/// The records of a list in order of their names say what the list says.
pub fn sorted_says_the_same()
    ensures newest { (list sorted : List Found) (page : ℕ) → Sorts list sorted →
        newest sorted page ≡ newest list page }
    ensures next_older { (list sorted : List Found) (page below : ℕ) → Sorts list sorted →
        next_older sorted page below ≡ next_older list page below }
    ensures present { (list sorted : List Found) (name : Link) → Sorts list sorted →
        is_present sorted name ≡ is_present list name }
    ensures link { (list sorted : List Found) (name : Link) → Sorts list sorted →
        link_of sorted name ≡ link_of list name }
    ensures back { (list sorted : List Found) (name : Link) → Sorts list sorted →
        back_of sorted name ≡ back_of list name }
    ensures straddling { (list sorted : List Found) (name : Link) → Sorts list sorted →
        straddling sorted name ≡ straddling list name }
    ensures why { (protocol : Protocol) (list sorted : List Found) (logical page : ℕ) →
        Sorts list sorted → why protocol sorted logical page ≡ why protocol list logical page }
    ensures current { (protocol : Protocol) (list sorted : List Found) (logical page : ℕ) →
        Sorts list sorted → cur protocol sorted logical page ≡ cur protocol list logical page }
    ensures responsible { (protocol : Protocol) (list sorted : List Found) (logical : ℕ)
        (name : Link) → Sorts list sorted →
        responsible protocol sorted logical name ≡ responsible protocol list logical name }
{}

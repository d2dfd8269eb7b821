ghost use Rattle.std.specs.Prelude.{◌≡◌, ◌<◌, ◌≤◌, ◌↔◌, true, false, length, slice_set, IfSome, IsNone};
ghost use Rattle.std.specs.List.{All};
ghost use Rattle.dense_tables.specs.Greatest.{IsFirstGreatest};

use dense_tables::MaxTree;
use std::marker::Model;

/// The ranks of the blocks of a die. That of the block which comes first may be kept beside the others, as it mostly is
/// while slots of the block are taken: they need no search then. It is seen as the list of the ranks.
#[derive(Drop)]
pub struct DieRanks {
    /// The rank of each block. What it has of the one that is kept beside them means nothing.
    others: MaxTree,
    /// The place of the rank that is kept beside the others: the first one of the greatest rank.
    first: usize,
    /// That rank, and 0 where none is kept beside the others.
    greatest: u32,
}

impl Model for DieRanks {
    ghost use Rattle.std.specs.Prelude.{ℕ, List};

    ghost Value = { List ℕ };

    ghost use Rattle.die_alloc.specs.DieRanks.{ranks_of, DieRanksInvariant};

    ghost view = { ranks_of };

    ghost invariant = { DieRanksInvariant };
}

impl DieRanks {
    /// These ranks.
    pub fn new(ranks: MaxTree) -> DieRanks
        ensures { result ≡ ranks }
    {
        DieRanks {
            others: ranks,
            first: 0,
            greatest: 0,
        }
    }

    /// The first place of the greatest rank. Where all are 0 there is none.
    #[inline(always)]
    pub fn first_greatest(&self) -> Option<usize>
        ensures none { IsNone result ↔ All (λ x. x ≡ 0) self.now }
        ensures first { IfSome result (IsFirstGreatest self.now) }
    {
        if self.greatest == 0 {
            self.others.first_greatest()
        } else {
            Some(self.first)
        }
    }

    /// Puts another rank at a place. Where none is kept beside the others and it is greater than all of them, it is
    /// kept there, until it falls or another one comes before it.
    pub fn set(&mut self, place: usize, rank: u32)
        requires { place < length self.old }
        ensures { self.new ≡ slice_set self.old place rank }
    {
        if self.greatest == 0 {
            if is_above(&self.others, rank) {
                self.first = place;
                self.greatest = rank;
            } else {
                self.others.set(place, rank);
            }
        } else if place == self.first {
            if rank >= self.greatest {
                self.greatest = rank;
            } else {
                self.others.set(place, rank);
                self.greatest = 0;
            }
        } else if comes_before(place, rank, self.first, self.greatest) {
            self.others.set(self.first, self.greatest);
            self.others.set(place, rank);
            self.greatest = 0;
        } else {
            self.others.set(place, rank);
        }
    }
}

/// Whether a rank at a place comes before another one: it is greater, or as great and at a lower place. Nothing but
/// speed rests on it where it says so.
fn comes_before(place: usize, rank: u32, other_place: usize, other: u32) -> bool
    ensures most { result ≡ false → rank ≤ other }
    ensures less { result ≡ false → place < other_place → rank < other }
{
    if rank == other {
        place < other_place
    } else {
        rank > other
    }
}

/// Whether a rank is greater than each of these. For a rank of 0 none is looked at. Nothing but speed rests on it where
/// it says no.
fn is_above(ranks: &MaxTree, rank: u32) -> bool
    ensures { result ≡ true → All (λ x. x < rank) ranks.now }
{
    if rank == 0 {
        return false;
    }
    match ranks.first_greatest() {
        None => true,
        Some(at) => ranks.get(at) < rank,
    }
}

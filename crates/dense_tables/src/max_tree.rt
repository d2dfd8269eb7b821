ghost use Rattle.std.specs.Prelude.{◌≡◌, true, ℕ, ◌+◌, ◌-◌, ◌*◌, ◌/◌, ◌<◌, ◌≤◌, ◌^◌, ◌↔◌, ◌==◌, length, replicate, slice_index, slice_set, IfOk, IfSome, IsNone};
ghost use Rattle.std.specs.List.{All, position};
ghost use Rattle.dense_tables.specs.Greatest.{greatest, group_of, IsFirstGreatest};
ghost use Rattle.dense_tables.specs.Levels.{under, IsTop};

use std::alloc::{AllocError, Global};
use std::marker::Model;
use std::simd::prelude::*;

/// Numbers of which the greatest is known.
///
/// Above the numbers there are levels of cells, each the greatest of sixteen cells of the level below it,
/// up to a single cell. No call but those that make the levels takes memory.
#[derive(Drop)]
pub struct MaxTree {
    /// The levels one after another from the single cell on, and behind them the numbers. Under the cell
    /// at `i` are those from `16 * i + 1` on. Zeros at the end make the last sixteen numbers whole.
    cells: Vec<u32>,
    /// How many levels there are above the numbers.
    levels: usize,
    /// Where the numbers begin.
    start: usize,
    /// How many numbers there are.
    count: usize,
    /// The cell over the first `top` ones is not kept: 16 where the single cell is found when it is asked for, and else
    /// 0.
    top: usize,
}

impl Model for MaxTree {
    ghost use Rattle.std.specs.Prelude.{ℕ, List};

    ghost Value = { List ℕ };

    ghost use Rattle.dense_tables.specs.Levels.{numbers_of, MaxTreeInvariant};

    ghost view = { numbers_of };

    ghost invariant = { MaxTreeInvariant };
}

impl MaxTree {
    /// All numbers are 0. This takes all the memory: four bytes a number, at most some five more for the
    /// cells above, and at most sixty for the zeros at the end.
    pub fn new(alloc: Global, count: usize) -> Result<MaxTree, AllocError>
        requires { count < 2 ^ 32 }
        ensures { IfOk result (λ p. p ≡ replicate count 0) }
    {
        MaxTree::with_top(alloc, count, 0)
    }

    /// All numbers are 0. This suits numbers that change more often than the greatest is asked for. The one cell above
    /// all is not kept: the greatest is found among at most sixteen cells.
    pub fn for_changes(alloc: Global, count: usize) -> Result<MaxTree, AllocError>
        requires { count < 2 ^ 32 }
        ensures { IfOk result (λ p. p ≡ replicate count 0) }
    {
        MaxTree::with_top(alloc, count, 16)
    }

    /// All numbers are 0, and the cell over the first `top` ones is not kept.
    fn with_top(alloc: Global, count: usize, top: usize) -> Result<MaxTree, AllocError>
        requires count { count < 2 ^ 32 }
        requires top { IsTop top }
        ensures { IfOk result (λ p. p ≡ replicate count 0) }
    {
        let mut levels = 1;
        let mut start = 1;
        while 15 * start + 1 < count {
            levels += 1;
            start = 16 * start + 1;
        }
        let whole = (count + 15) / 16 * 16;
        Ok(MaxTree {
            cells: vec![in alloc; 0; start + whole]?,
            levels,
            start,
            count,
            top,
        })
    }

    /// The number at a place.
    pub fn get(&self, at: usize) -> u32
        requires { at < length self.now }
        ensures { result ≡ slice_index self.now at }
    {
        self.cells[self.start + at]
    }

    /// Puts another number at a place. This takes a step for each level, of which there are log16 of the
    /// count: it stops at the first level where nothing changes, and looks at sixteen cells only where the
    /// greatest of them falls.
    pub fn set(&mut self, at: usize, to: u32)
        requires { at < length self.old }
        ensures { self.new ≡ slice_set self.old at to }
    {
        let mut cell = self.start + at;
        let mut was = self.cells[cell];
        self.cells[cell] = to;
        while cell > self.top {
            let above = (cell - 1) / 16;
            let peak = self.cells[above];
            let next = peak_over(&self.cells, cell, was);
            if next == peak {
                return;
            }
            self.cells[above] = next;
            cell = above;
            was = peak;
        }
    }

    /// The first place of the greatest number. Where all are 0 there is none. This looks at sixteen cells
    /// of each level.
    pub fn first_greatest(&self) -> Option<usize>
        ensures none { IsNone result ↔ All (λ x. x ≡ 0) self.now }
        ensures first { IfSome result (IsFirstGreatest self.now) }
    {
        let peak = peak_at(&self.cells, self.top, 0);
        if peak == 0 {
            return None;
        }
        let mut start = 0;
        let mut place = 0;
        for _level in 0..self.levels {
            place = 16 * place + place_of(under(&self.cells, start + place), peak).unwrap();
            start = 16 * start + 1;
        }
        Some(place)
    }

    /// The greatest of a sixteen of the numbers: those from 16 times its number on, at most 16.
    #[inline(never)]
    pub fn greatest_of(&self, sixteen: usize) -> u32
        requires { 16 * sixteen < length self.now }
        ensures { result ≡ greatest (group_of 16 self.now sixteen) }
    {
        peak_at(&self.cells, self.top, (self.start - 1) / 16 + sixteen)
    }

    /// The greatest of 256 of the numbers that follow one another: those from 256 times `group` on, at most 256.
    pub fn greatest_of_256(&self, group: usize) -> u32
        requires { 256 * group < length self.now }
        ensures { result ≡ greatest (group_of 256 self.now group) }
    {
        peak_at(&self.cells, self.top, (self.start - 1) / 256 + group)
    }
}

/// The greatest of the cells under a cell: what the cell has, where it is kept.
fn peak_at(cells: &[u32], top: usize, cell: usize) -> u32
    requires within { cell < length cells.now }
    requires small { cell < 2 ^ 40 }
    requires peak { top ≤ 16 * cell → slice_index cells.now cell ≡ greatest (under cells.now cell) }
    ensures { result ≡ greatest (under cells.now cell) }
{
    if top <= 16 * cell {
        cells[cell]
    } else {
        greatest_under(cells, cell)
    }
}

/// The greatest of the cells under the one over `cell`, which has what it was while `cell` had `was`.
fn peak_over(cells: &[u32], cell: usize, was: u32) -> u32
    requires first { 0 < cell }
    requires within { cell < length cells.now }
    requires small { length cells.now < 2 ^ 40 }
    requires peak { slice_index cells.now ((cell - 1) / 16) ≡
        greatest (under (slice_set cells.now cell was) ((cell - 1) / 16)) }
    ensures { result ≡ greatest (under cells.now ((cell - 1) / 16)) }
{
    let above = (cell - 1) / 16;
    let peak = cells[above];
    let now = cells[cell];
    if now >= peak {
        now
    } else if was < peak {
        peak
    } else {
        greatest_under(cells, above)
    }
}

/// The greatest of the cells under a cell. A whole sixteen of them is looked at with no test for its end.
fn greatest_under(cells: &[u32], cell: usize) -> u32
    requires { cell < 2 ^ 40 }
    ensures { result ≡ greatest (under cells.now cell) }
{
    let from = 16 * cell + 1;
    if from + 16 <= cells.len() {
        greatest_of_sixteen(&cells[from..from + 16])
    } else {
        greatest(under(cells, cell))
    }
}

/// The greatest of sixteen numbers. Most are 0 where few numbers are not, which is seen at once.
#[inline(always)]
fn greatest_of_sixteen(numbers: &[u32]) -> u32
    requires { length numbers.now ≡ 16 }
    ensures { result ≡ greatest numbers.now }
{
    if are_zero(numbers) {
        0
    } else {
        greatest(numbers)
    }
}

/// Whether each of sixteen numbers is 0. They are looked at at once.
#[inline(always)]
fn are_zero(numbers: &[u32]) -> bool
    requires { length numbers.now ≡ 16 }
    ensures { result ≡ true → greatest numbers.now ≡ 0 }
{
    let some = u32x16::from_slice(numbers)
        .simd_gt(u32x16::splat(0))
        .to_bitmask();
    some == 0
}

/// The cells under a cell.
fn under(cells: &[u32], cell: usize) -> &[u32]
    requires { cell < 2 ^ 40 }
    ensures { result.now ≡ under cells.now cell }
{
    let from = (16 * cell + 1).min(cells.len());
    let to = (from + 16).min(cells.len());
    &cells[from..to]
}

/// The greatest of some numbers.
#[inline(always)]
fn greatest(numbers: &[u32]) -> u32
    ensures { result ≡ greatest numbers.now }
{
    let mut most = 0;
    for number in numbers {
        most = most.max(*number);
    }
    most
}

/// The first place of a number. A whole sixteen of numbers is looked at at once.
fn place_of(numbers: &[u32], number: u32) -> Option<usize>
    ensures { result ≡ position (λ x. x == number) numbers.now }
{
    if numbers.len() == 16 {
        return place_of_sixteen(numbers, number);
    }
    numbers.iter().position(|x| *x == number)
}

/// The first place of a number among sixteen.
#[inline(always)]
fn place_of_sixteen(numbers: &[u32], number: u32) -> Option<usize>
    requires { length numbers.now ≡ 16 }
    ensures { result ≡ position (λ x. x == number) numbers.now }
{
    let found = u32x16::from_slice(numbers)
        .simd_eq(u32x16::splat(number))
        .to_bitmask();
    if found == 0 {
        None
    } else {
        Some(found.trailing_zeros() as usize)
    }
}

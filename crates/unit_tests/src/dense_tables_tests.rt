ghost use Rattle.std.specs.Prelude.{◌≡◌, ℕ, ◌<◌, ◌≤◌, length, vec_len, IfOk, IsTrue};
ghost use Rattle.std.specs.List.{Contains};
ghost use Rattle.dense_tables.specs.LinkedLists.{IsListed, list_of};

use crate::samples::{has_number, sides, three, word_count};
use dense_tables::{LinkedLists, MaxTree, Reciprocal};
use std::alloc::{AllocError, Global};

/// How many lists the tests have, and how many places.
const KEYS: u32 = 3;

const PLACES: u32 = 8;

/// The list of a key, gone through from its first place on.
fn listed(alloc: Global, chains: &LinkedLists, key: u32) -> Result<Vec<u32>, AllocError>
    requires { key < length chains.now.lists }
    ensures { IfOk result (λ v. v.items ≡ list_of chains.now key) }
{
    let mut list = Vec::new(alloc);
    let mut at = chains.first(key);
    while let Some(place) = at {
        list.push(place)?;
        at = chains.next(place);
    }
    Ok(list)
}

/// Whether a place is in the list of a key.
fn has(alloc: Global, chains: &LinkedLists, key: u32, at: u32) -> Result<bool, AllocError>
    requires { key < length chains.now.lists }
    ensures there { IfOk result (λ has. IsTrue has → Contains (list_of chains.now key) at) }
    ensures free { IfOk result (λ has. Contains (list_of chains.now key) at → IsTrue has) }
{
    let list = listed(alloc, chains, key)?;
    Ok(list.contains(&at))
}

/// Whether a place is in no list.
fn is_free(alloc: Global, chains: &LinkedLists, at: u32) -> Result<bool, AllocError>
    requires { length chains.now.lists ≡ KEYS }
    ensures { IfOk result (λ free. IsTrue free → IsListed chains.now at → ⊥) }
{
    for key in 0..KEYS {
        if has(alloc, chains, key, at)? {
            return Ok(false);
        }
    }
    Ok(true)
}

/// Where a number stands in a list; the length of the list where it is not there.
fn place_of(list: &[u32], number: u32) -> usize
    ensures { result ≤ length list.now }
{
    for at in 0..list.len() {
        if list[at] == number {
            return at;
        }
    }
    list.len()
}

/// Takes a number out of a list.
fn take_out(list: &mut Vec<u32>, number: u32) {
    let at = place_of(list, number);
    if at < list.len() {
        list.remove(at);
    }
}

/// Puts a number behind another one, or in front where that is not there. Returns whether there is memory.
fn put_behind(list: &mut Vec<u32>, prev: u32, number: u32) -> bool {
    let at = place_of(list, prev);
    let behind = if at < list.len() { at + 1 } else { 0 };
    list.insert(behind, number).is_ok()
}

/// Takes `at` out of the list of a key where it is there. Else, where it is in no list, puts it behind
/// `prev`, or in front where `prev` is not there.
fn step(
    alloc: Global,
    chains: &mut LinkedLists,
    key: u32,
    prev: u32,
    at: u32,
) -> Result<(), AllocError>
    requires keys { length chains.old.lists ≡ KEYS }
    requires places { chains.old.places ≡ PLACES }
    requires key { key < KEYS }
    requires place { at < PLACES }
    ensures keys { length chains.new.lists ≡ KEYS }
    ensures places { chains.new.places ≡ PLACES }
{
    if has(alloc, chains, key, at)? {
        chains.remove(key, at);
    } else if is_free(alloc, chains, at)? {
        if has(alloc, chains, key, prev)? {
            chains.insert_after(key, prev, at);
        } else {
            chains.push(key, at);
        }
    }
    Ok(())
}

/// Whether a number is in no list.
fn is_in_none(lists: &[Vec<u32>], number: u32) -> bool {
    for list in lists {
        if list.contains(&number) {
            return false;
        }
    }
    true
}

/// Does the same with plain lists. Returns whether there is memory.
fn plain_step(lists: &mut Vec<Vec<u32>>, key: u32, prev: u32, at: u32) -> bool
    requires lists { vec_len lists.old ≡ KEYS }
    requires key { key < KEYS }
    ensures { vec_len lists.new ≡ KEYS }
{
    let is_free = is_in_none(lists, at);
    let list = &mut lists[key as usize];
    if list.contains(&at) {
        take_out(list, at);
    } else if is_free {
        return put_behind(list, prev, at);
    }
    true
}

/// The key, the place that is looked for, the place that moves, and the list of the key after that.
const STEPS: &str = "\
    0 7 3 => 3\n\
    0 3 5 => 3 5\n\
    0 3 1 => 3 1 5\n\
    0 6 2 => 2 3 1 5\n\
    1 2 2 => - -- place 2 is in list 0\n\
    2 0 7 => 7\n\
    0 0 3 => 2 1 5 -- one in the middle, the first, the last and the only one go\n\
    0 0 2 => 1 5\n\
    0 0 5 => 1\n\
    0 0 1 => -\n\
    1 7 3 => 3\n\
    2 7 0 => 7 0";

/// Whether these are the numbers of a text, which is `-` where there are none.
fn are_numbers(list: &[u32], text: &str) -> bool {
    if list.is_empty() {
        return text == "-";
    }
    for at in 0..list.len() {
        if !has_number(text, at, list[at]) {
            return false;
        }
    }
    word_count(text) == list.len()
}

/// Whether the list of a key has the numbers of a text.
fn has_numbers(alloc: Global, chains: &LinkedLists, key: u32, text: &str) -> bool
    requires { key < length chains.now.lists }
{
    match listed(alloc, chains, key) {
        Ok(list) => are_numbers(&list, text),
        Err(_) => false,
    }
}

/// Takes the step of a line. Returns whether the list of its key is as the line says.
fn is_linked(alloc: Global, chains: &mut LinkedLists, line: &str) -> bool
    requires keys { length chains.old.lists ≡ KEYS }
    requires places { chains.old.places ≡ PLACES }
    ensures keys { length chains.new.lists ≡ KEYS }
    ensures places { chains.new.places ≡ PLACES }
{
    let (left, want) = sides(line);
    match three(left) {
        Some((key, prev, at)) => {
            key < KEYS
                && at < PLACES
                && step(alloc, chains, key, prev, at).is_ok()
                && has_numbers(alloc, chains, key, want)
        }
        None => false,
    }
}

/// Whether each step of the lines leaves the list that it should.
fn are_linked(alloc: Global, chains: &mut LinkedLists) -> bool
    requires keys { length chains.old.lists ≡ KEYS }
    requires places { chains.old.places ≡ PLACES }
{
    for line in STEPS.split('\n') {
        if !is_linked(alloc, chains, line) {
            return false;
        }
    }
    true
}

/// Lists with nothing in them.
fn no_lists(alloc: Global) -> Result<Vec<Vec<u32>>, AllocError>
    ensures { IfOk result (λ v. vec_len v ≡ KEYS) }
{
    Ok(vec![in alloc; vec![in alloc; 0; 0]?; KEYS as usize]?)
}

/// Whether the list of a key is this one.
fn is_list(alloc: Global, chains: &LinkedLists, key: u32, want: &[u32]) -> bool
    requires { key < length chains.now.lists }
{
    match listed(alloc, chains, key) {
        Ok(list) => list.as_slice() == want,
        Err(_) => false,
    }
}

/// Whether the lists of all keys are the plain ones.
fn are_same(alloc: Global, chains: &LinkedLists, lists: &Vec<Vec<u32>>) -> bool
    requires chains { length chains.now.lists ≡ KEYS }
    requires lists { vec_len lists.now ≡ KEYS }
{
    for key in 0..KEYS {
        if !is_list(alloc, chains, key, &lists[key as usize]) {
            return false;
        }
    }
    true
}

/// Whether a step leaves linked lists equal to the plain ones.
fn stay_same(
    alloc: Global,
    chains: &mut LinkedLists,
    lists: &mut Vec<Vec<u32>>,
    key: u32,
    prev: u32,
    at: u32,
) -> bool
    requires keys { length chains.old.lists ≡ KEYS }
    requires places { chains.old.places ≡ PLACES }
    requires lists { vec_len lists.old ≡ KEYS }
    requires key { key < KEYS }
    requires place { at < PLACES }
    ensures keys { length chains.new.lists ≡ KEYS }
    ensures places { chains.new.places ≡ PLACES }
    ensures lists { vec_len lists.new ≡ KEYS }
{
    step(alloc, chains, key, prev, at).is_ok()
        && plain_step(lists, key, prev, at)
        && are_same(alloc, chains, lists)
}

/// The next of some numbers that look like random ones.
fn next(random: u32) -> u32 {
    random.wrapping_mul(1664525).wrapping_add(1013904223)
}

/// Whether they stay the same in 2000 steps.
fn follow_lists(alloc: Global, chains: &mut LinkedLists, lists: &mut Vec<Vec<u32>>) -> bool
    requires keys { length chains.old.lists ≡ KEYS }
    requires places { chains.old.places ≡ PLACES }
    requires lists { vec_len lists.old ≡ KEYS }
{
    let mut random: u32 = 1;
    for _ in 0..2000 {
        random = next(random);
        let key = (random >> 8) % KEYS;
        let prev = (random >> 16) % PLACES;
        let at = (random >> 24) % PLACES;
        if !stay_same(alloc, chains, lists, key, prev, at) {
            return false;
        }
    }
    true
}

/// Whether they do so from empty lists on.
fn follow_new_lists(alloc: Global, chains: &mut LinkedLists) -> bool
    requires keys { length chains.old.lists ≡ KEYS }
    requires places { chains.old.places ≡ PLACES }
{
    match no_lists(alloc) {
        Ok(mut lists) => follow_lists(alloc, chains, &mut lists),
        Err(_) => false,
    }
}

/// Whether new lists do the steps of `STEPS`, or 2000 steps as plain ones do them.
fn are_lists_right(alloc: Global, kind: &str) -> bool {
    match LinkedLists::new(alloc, KEYS, PLACES) {
        Ok(mut chains) => {
            let is_so = if kind == "steps" {
                are_linked(alloc, &mut chains)
            } else {
                follow_new_lists(alloc, &mut chains)
            };
            drop(chains);
            is_so
        }
        Err(_) => false,
    }
}

/// How many numbers the test of `MaxTree` has: the single cell, two levels of cells, and some of the third.
const COUNT: usize = 300;

/// The first place where the greatest of some numbers stands, where it is not 0.
fn plain_greatest(numbers: &[u32]) -> Option<usize> {
    let mut best = None;
    let mut most = 0;
    for at in 0..numbers.len() {
        if numbers[at] > most {
            most = numbers[at];
            best = Some(at);
        }
    }
    best
}

/// The greatest of this many numbers from a place on.
fn plain_most(numbers: &[u32], from: usize, count: usize) -> u32 {
    let mut most = 0;
    for at in from..from.saturating_add(count).min(numbers.len()) {
        most = most.max(numbers[at]);
    }
    most
}

/// Sets a number. Returns whether the tree agrees with plain loops over the numbers.
fn is_peak(peaks: &mut MaxTree, numbers: &mut [u32], at: usize, to: u32) -> bool
    requires peaks { length peaks.old ≡ COUNT }
    requires numbers { length numbers.old ≡ COUNT }
    requires place { at < COUNT }
    ensures peaks { length peaks.new ≡ COUNT }
{
    peaks.set(at, to);
    numbers[at] = to;
    let (sixteen, group) = (at / 16, at / 256);
    peaks.get(at) == to
        && peaks.first_greatest() == plain_greatest(numbers)
        && peaks.greatest_of(sixteen) == plain_most(numbers, 16 * sixteen, 16)
        && peaks.greatest_of_256(group) == plain_most(numbers, 256 * group, 256)
}

/// Whether a tree of numbers that are 0 agrees with plain loops in 2000 changes.
fn follow(peaks: &mut MaxTree, numbers: &mut [u32]) -> bool
    requires peaks { length peaks.old ≡ COUNT }
    requires numbers { length numbers.old ≡ COUNT }
{
    if peaks.first_greatest().is_some() {
        return false;
    }
    let mut random: u32 = 7;
    for _ in 0..2000 {
        random = next(random);
        let (at, to) = ((random >> 8) as usize % COUNT, (random >> 24) % 5);
        if !is_peak(peaks, numbers, at, to) {
            return false;
        }
    }
    true
}

/// Whether a tree of zeros follows numbers that are 0.
fn follow_zeros(alloc: Global, peaks: &mut MaxTree) -> bool
    requires { length peaks.old ≡ COUNT }
{
    match vec![in alloc; 0; COUNT] {
        Ok(mut numbers) => follow(peaks, &mut numbers),
        Err(_) => false,
    }
}

/// Whether a tree that was made follows.
fn are_followed(alloc: Global, made: Result<MaxTree, AllocError>) -> bool
    requires { IfOk made (λ peaks. length peaks ≡ COUNT) }
{
    match made {
        Ok(mut peaks) => {
            let is_so = follow_zeros(alloc, &mut peaks);
            drop(peaks);
            is_so
        }
        Err(_) => false,
    }
}

/// Divisors, numbers below 65536, and how many times the one goes into the other; and histories of linked lists and of
/// trees of both kinds.
pub const DENSE: &str = "\
    quotient 1 65535 65535\n\
    quotient 3 65535 21845\n\
    quotient 7 48 6\n\
    quotient 7 49 7\n\
    quotient 255 65534 256\n\
    quotient 65536 65535 0\n\
    quotient 65537 65535 0\n\
    lists steps\n\
    lists history\n\
    tree new\n\
    tree changes";

/// Whether a divisor goes so many times into a number.
fn is_quotient(line: &str) -> bool {
    match three(line) {
        Some((by, of, want)) => { by > 0 && of < 65536 && Reciprocal::new(by).quotient(of) == want }
        None => false,
    }
}

/// Whether a line is right of dense tables.
pub fn is_dense_right(alloc: Global, kind: &str, line: &str) -> bool {
    match kind {
        "quotient" => is_quotient(line),
        "lists" => are_lists_right(alloc, line),
        _ => are_followed(
            alloc,
            if line == "new" {
                MaxTree::new(alloc, COUNT)
            } else {
                MaxTree::for_changes(alloc, COUNT)
            },
        ),
    }
}

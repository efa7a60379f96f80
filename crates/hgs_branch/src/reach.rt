//! Which branches the descendants of changesets are of.
ghost use Rattle.std.specs.Prelude.{◌≡◌, ◌≢◌, ◌⊎◌, ◌<◌, ◌≤◌, ◌+◌, ◌*◌, ◌/◌, ◌==◌, ℕ, false, true, length, slice_get, slice_set, if◌then◌else◌, Some, IfOk, IfSome, IfNone};
ghost use Rattle.hgs_branch.specs.Reached.{bit_of, left_at, wide_at, AreMarked, Falls, Hands, IsLeftWithin, Reached, Receives};
ghost use Rattle.hgs_branch.specs.declared.reach.Reach.{Reach};

use crate::bits::{has, join, last_below, no_bits, set};
use std::alloc::{AllocError, Global};
use std::mem::replace;

/// A changeset that was taken, and the number of its branch.
#[derive(Clone, Copy, Debug)]
pub(crate) struct Known {
    pub p1: Option<u32>,
    pub p2: Option<u32>,
    pub branch: usize,
}

/// The branches that a changeset and its descendants are of.
#[derive(Debug, Drop)]
pub(crate) struct Reach {
    /// A bit for each branch that there was when the changeset came, by its number.
    pub words: Vec<u64>,
    /// Whether its parents may lack some of these.
    pub left: bool,
}

/// What a changeset begins with: of so many branches its own one.
pub(crate) fn own(alloc: Global, branches: usize, branch: usize) -> Result<Reach, AllocError>
    requires { branch < branches }
    ensures own { IfOk result (λ reach. (number : ℕ) → bit_of reach.words.items number ≡ (number == branch)) }
    ensures wide { IfOk result (λ reach. length reach.words.items ≡ branches / 64 + 1) }
    ensures left { IfOk result (λ reach. reach.left ≡ true) }
{
    let mut words = no_bits(alloc, branches)?;
    set(&mut words, branch);
    Ok(Reach { words, left: true })
}

// Adds such bits to those of a changeset, and says whether its parents may lack one of them.
fn receive(reaches: &mut Vec<Reach>, place: usize, words: &[u64]) -> bool
    ensures { Receives reaches.old.items reaches.new.items place words.now result }
{
    let Some(reach) = reaches.get_mut(place) else {
        return false;
    };
    if !join(&mut reach.words, words) {
        return false;
    }
    reach.left = true;
    true
}

// Takes a head where it is one no more.
fn fall(heads: &mut Vec<bool>, place: usize, falls: bool)
    ensures { heads.new.items ≡ (if falls then slice_set heads.old.items place false else heads.old.items) }
{
    if falls && place < heads.len() {
        heads[place] = false;
    }
}

// A parent is no head where its branch is among the bits of a child.
fn fall_by(known: &[Known], heads: &mut Vec<bool>, words: &[u64], place: usize)
    ensures { Falls known.now heads.old.items heads.new.items words.now place }
{
    if let Some(there) = known.get(place) {
        fall(heads, place, has(words, there.branch));
    }
}

// Hands the bits of a changeset on to a parent before it. Gives the parent where it has something to hand on itself.
fn hand_on(
    known: &[Known],
    heads: &mut Vec<bool>,
    reaches: &mut Vec<Reach>,
    words: &[u64],
    rev: usize,
    parent: Option<u32>,
) -> Option<usize>
    ensures { Hands known.now heads.old.items heads.new.items reaches.old.items reaches.new.items words.now rev parent result }
{
    let Some(parent) = parent else {
        return None;
    };
    let place = parent as usize;
    if place >= rev {
        return None;
    }
    fall_by(known, heads, words, place);
    if receive(reaches, place, words) {
        Some(place)
    } else {
        None
    }
}

// Takes out the bits of a changeset, if something is left there.
fn take_left(alloc: Global, reaches: &mut Vec<Reach>, rev: usize) -> Option<Vec<u64>>
    ensures none { IfNone result ((left_at reaches.old.items rev ≡ false) × (reaches.new.items ≡ reaches.old.items)) }
    ensures some { IfSome result (λ words. (reach : Reach) × (slice_get reaches.old.items rev ≡ Some reach) × (words.items ≡ reach.words.items)) }
    ensures others { (c : ℕ) → c ≢ rev → slice_get reaches.new.items c ≡ slice_get reaches.old.items c }
    ensures count { length reaches.new.items ≡ length reaches.old.items }
{
    let Some(reach) = reaches.get_mut(rev) else {
        return None;
    };
    if reach.left {
        return Some(replace(&mut reach.words, Vec::new(alloc)));
    }
    None
}

// Puts them back, when nothing is left there.
fn put_back(reaches: &mut Vec<Reach>, rev: usize, words: Vec<u64>)
    ensures { reaches.new.items ≡ slice_set reaches.old.items rev (record { words = words; left = false }) }
{
    if let Some(reach) = reaches.get_mut(rev) {
        *reach = Reach { words, left: false };
    }
}

// Marks a changeset, if there is one.
fn mark(marks: &mut Vec<u64>, rev: Option<usize>)
    ensures wide { length marks.new.items ≡ length marks.old.items }
    ensures kept { (c : ℕ) → bit_of marks.old.items c ≡ true → bit_of marks.new.items c ≡ true }
    ensures marked { (c : ℕ) → rev ≡ Some c → c < 64 * length marks.old.items → bit_of marks.new.items c ≡ true }
    ensures from { (c : ℕ) → bit_of marks.new.items c ≡ true → (bit_of marks.old.items c ≡ true) ⊎ (rev ≡ Some c) }
{
    if let Some(rev) = rev {
        set(marks, rev);
    }
}

// Hands on what is left at a changeset, and marks the parents that have something to hand on themselves.
fn pass_on(
    alloc: Global,
    known: &[Known],
    heads: &mut Vec<bool>,
    reaches: &mut Vec<Reach>,
    marks: &mut Vec<u64>,
    rev: usize,
)
    ensures wide { (c : ℕ) → wide_at reaches.new.items c ≡ wide_at reaches.old.items c }
    ensures marks_wide { length marks.new.items ≡ length marks.old.items }
    ensures reached { (new : ℕ) → length known.now ≤ 64 * length marks.old.items → Reached known.now heads.old.items reaches.old.items → AreMarked reaches.old.items marks.old.items new (rev + 1) → Reached known.now heads.new.items reaches.new.items × AreMarked reaches.new.items marks.new.items new rev }
{
    let Some(changeset) = known.get(rev) else {
        return;
    };
    let Some(words) = take_left(alloc, reaches, rev) else {
        return;
    };
    let first = hand_on(known, heads, reaches, &words, rev, changeset.p1);
    let second = hand_on(known, heads, reaches, &words, rev, changeset.p2);
    put_back(reaches, rev, words);
    mark(marks, first);
    mark(marks, second);
}

// The changeset that is looked at next, the last before this one that is new or marked.
fn next_before(marks: &[u64], new: usize, rev: usize) -> Option<usize>
    ensures before { IfSome result (λ next. next < rev) }
    ensures passed { IfSome result (λ next. (c : ℕ) → next < c → c < rev → (c < new) × (bit_of marks.now c ≡ false)) }
    ensures none { IfNone result ((c : ℕ) → c < rev → (c < new) × (bit_of marks.now c ≡ false)) }
{
    if new < rev {
        return Some(rev - 1);
    }
    last_below(marks, rev)
}

/// Hands on all that is left, from the newest changeset on, where nothing is before the first new one. Others are looked at where
/// they are marked.
pub(crate) fn spread(
    alloc: Global,
    known: &[Known],
    heads: &mut Vec<bool>,
    reaches: &mut Vec<Reach>,
    marks: &mut Vec<u64>,
    new: usize,
)
    ensures wide { (c : ℕ) → wide_at reaches.new.items c ≡ wide_at reaches.old.items c }
    ensures reached { length known.now ≤ 64 * length marks.old.items → Reached known.now heads.old.items reaches.old.items → IsLeftWithin reaches.old.items new (length known.now) → Reached known.now heads.new.items reaches.new.items × IsLeftWithin reaches.new.items 0 0 }
{
    let mut rev = known.len();
    while let Some(next) = next_before(marks, new, rev) {
        rev = next;
        pass_on(alloc, known, heads, reaches, marks, rev);
    }
}

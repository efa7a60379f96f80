//! The sets on the stack of an evaluation.
ghost use Rattle.std.specs.Prelude.{◌≡◌, ℕ, Bool, List, length, if◌then◌else◌, IfOk};
ghost use Rattle.hgs_members.specs.Members.{marks_in, AreBoth, AreEither};
ghost use Rattle.hgs_members.specs.declared.operand.Operand.TheVariants.{Empty, Many, One};

use crate::members::Members;
use std::alloc::{AllocError, Global};

/// A set on the stack: no changeset or one, until a step needs a mark for each.
#[derive(Drop)]
pub(crate) enum Operand {
    Empty,
    One(u32),
    Many(Members),
}

impl Operand {
    /// A mark for each of so many changesets.
    pub(crate) fn into_members(self, alloc: Global, count: u32) -> Result<Members, AllocError>
        ensures { IfOk result (λ m. m ≡ marks_in count self) }
    {
        match self {
            Operand::Empty => Members::none(alloc, count),
            Operand::One(rev) => {
                let mut members = Members::none(alloc, count)?;
                members.add(rev);
                Ok(members)
            }
            Operand::Many(members) => Ok(members),
        }
    }
}

// The changeset where it is wanted, and else none.
fn one_when(wanted: bool, rev: u32) -> Operand
    ensures { result ≡ (if wanted then One rev else Empty) }
{
    if wanted {
        Operand::One(rev)
    } else {
        Operand::Empty
    }
}

// What a single changeset and another operand both have.
fn one_of(rev: u32, other: Operand) -> Operand
    ensures { (count : ℕ) → length (marks_in count (One rev)) ≡ length (marks_in count other) → AreBoth (marks_in count (One rev)) (marks_in count other) (marks_in count result) }
{
    match other {
        Operand::Empty => Operand::Empty,
        Operand::One(also) => one_when(rev == also, rev),
        Operand::Many(members) => one_when(members.has(rev), rev),
    }
}

// What marks and another operand both have.
fn some_of(mut members: Members, other: Operand) -> Operand
    requires same { (others : List Bool) → other ≡ Many others → length members ≡ length others }
    ensures { (count : ℕ) → length members ≡ length (marks_in count other) → AreBoth members (marks_in count other) (marks_in count result) }
{
    match other {
        Operand::Empty => Operand::Empty,
        Operand::One(rev) => one_when(members.has(rev), rev),
        Operand::Many(others) => {
            members.meet(&others);
            Operand::Many(members)
        }
    }
}

/// What both have. Where one of the two has one changeset at most, no marks are made.
pub(crate) fn both(left: Operand, right: Operand) -> Operand
    requires same { (count : ℕ) × (length (marks_in count left) ≡ length (marks_in count right)) }
    ensures { (count : ℕ) → length (marks_in count left) ≡ length (marks_in count right) → AreBoth (marks_in count left) (marks_in count right) (marks_in count result) }
{
    match left {
        Operand::Empty => Operand::Empty,
        Operand::One(rev) => one_of(rev, right),
        Operand::Many(members) => some_of(members, right),
    }
}

// A single changeset, and what another operand has.
fn one_and(alloc: Global, count: u32, rev: u32, other: Operand) -> Result<Operand, AllocError>
    requires same { length (marks_in count (One rev)) ≡ length (marks_in count other) }
    ensures { IfOk result (λ o. AreEither (marks_in count (One rev)) (marks_in count other) (marks_in count o)) }
{
    match other {
        Operand::Empty => Ok(Operand::One(rev)),
        Operand::One(also) => {
            let mut members = Members::none(alloc, count)?;
            members.add(rev);
            members.add(also);
            Ok(Operand::Many(members))
        }
        Operand::Many(mut members) => {
            members.add(rev);
            Ok(Operand::Many(members))
        }
    }
}

// What marks have, and what another operand has.
fn some_and(mut members: Members, other: Operand) -> Operand
    requires same { (others : List Bool) → other ≡ Many others → length members ≡ length others }
    ensures { (count : ℕ) → length members ≡ length (marks_in count other) → AreEither members (marks_in count other) (marks_in count result) }
{
    match other {
        Operand::Empty => Operand::Many(members),
        Operand::One(rev) => {
            members.add(rev);
            Operand::Many(members)
        }
        Operand::Many(others) => {
            members.join(&others);
            Operand::Many(members)
        }
    }
}

/// What one of the two has. A single changeset is added to the marks of the other.
pub(crate) fn either(
    alloc: Global,
    count: u32,
    left: Operand,
    right: Operand,
) -> Result<Operand, AllocError>
    requires same { length (marks_in count left) ≡ length (marks_in count right) }
    ensures { IfOk result (λ o. AreEither (marks_in count left) (marks_in count right) (marks_in count o)) }
{
    match left {
        Operand::Empty => Ok(right),
        Operand::One(rev) => one_and(alloc, count, rev, right),
        Operand::Many(members) => Ok(some_and(members, right)),
    }
}

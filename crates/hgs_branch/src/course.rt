//! What is kept of the changesets that were taken.
ghost use Rattle.std.specs.Prelude.{◌≡◌, ◌<◌, ◌≤◌, ◌+◌, ◌*◌, ◌^◌, ◌↔◌, ℕ, false, true, length, take, slice_get, Some, IfSome, IfNone, IfOk, OnOk};
ghost use Rattle.hgs_branch.specs.Kept.{Adds, AddsAll, Keeps};
ghost use Rattle.hgs_branch.specs.Reached.{bit_of};
ghost use Rattle.hgs_branch.specs.Tracked.{numbers_in, IsNumbered};

use crate::bits::no_bits;
use crate::changeset::OnBranch;
use crate::reach::{Known, Reach, own};
use hgs_bytes::bytes::Bytes;
use hgs_bytes::parts::equal;
use std::alloc::{AllocError, Global};
use std::collections::BTreeMap;

/// What is kept of the changesets that were taken.
#[derive(Debug, Drop)]
pub(crate) struct Course {
    pub known: Vec<Known>,
    /// The names of the branches, each once.
    pub names: Vec<Bytes>,
    /// The number of each name; of others any number.
    pub numbers: BTreeMap<Bytes, usize>,
    /// Whether a changeset is a head of its branch.
    pub heads: Vec<bool>,
    pub reaches: Vec<Reach>,
}

// The number of the branch of a parent.
fn parent_number(known: &[Known], parent: Option<u32>) -> usize
    ensures { (rev number : ℕ) → parent ≡ Some rev → slice_get (numbers_in known.now) rev ≡ Some number → result ≡ number }
{
    match parent {
        None => 0,
        Some(rev) => match known.get(rev as usize) {
            None => 0,
            Some(known) => known.branch,
        },
    }
}

fn is_name(names: &[Bytes], number: usize, name: &Bytes) -> bool
    ensures { result ≡ true ↔ slice_get names.now number ≡ Some name.now }
{
    match names.get(number) {
        None => false,
        Some(tried) => equal(tried.as_slice(), name.as_slice()),
    }
}

// The number of a name. One number is tried first.
fn number_of(course: &Course, likely: usize, name: &Bytes) -> Option<usize>
    ensures some { IfSome result (λ number. slice_get course.now.names.items number ≡ Some name.now) }
    ensures none { IfNone result (IsNumbered course.now.names.items course.now.numbers → (number : ℕ) → slice_get course.now.names.items number ≡ Some name.now → ⊥) }
{
    if is_name(&course.names, likely, name) {
        return Some(likely);
    }
    match course.numbers.get(name) {
        Some(number) if is_name(&course.names, *number, name) => Some(*number),
        _ => None,
    }
}

// The number of a changeset's branch, most often that of its first parent. It is made where the branch has none.
fn number_for(alloc: Global, course: &mut Course, change: &OnBranch) -> Result<usize, AllocError>
    ensures kept { Keeps course.old course.new }
    ensures same_known { course.new.known.items ≡ course.old.known.items }
    ensures same_heads { course.new.heads.items ≡ course.old.heads.items }
    ensures same_reaches { course.new.reaches.items ≡ course.old.reaches.items }
    ensures has { IfOk result (λ number. slice_get course.new.names.items number ≡ Some change.now.branch) }
{
    let likely = parent_number(&course.known, change.p1);
    if let Some(number) = number_of(course, likely, &change.branch) {
        return Ok(number);
    }
    let number = course.names.len();
    course.numbers.insert(change.branch.copy(alloc)?, number)?;
    course.names.push(change.branch.copy(alloc)?)?;
    Ok(number)
}

// Takes one more changeset, which has all to hand on.
fn add(alloc: Global, course: &mut Course, change: &OnBranch) -> Result<(), AllocError>
    ensures kept { Keeps course.old course.new }
    ensures ok { OnOk result (Adds course.old course.new change.now) }
{
    let branch = number_for(alloc, course, change)?;
    course.known.push(Known {
        p1: change.p1,
        p2: change.p2,
        branch,
    })?;
    course.heads.push(true)?;
    course
        .reaches
        .push(own(alloc, course.names.len(), branch)?)?;
    Ok(())
}

// Takes more changesets, one after another.
fn add_all(alloc: Global, course: &mut Course, changes: &[OnBranch]) -> Result<(), AllocError>
    ensures kept { Keeps course.old course.new }
    ensures ok { OnOk result (AddsAll course.old course.new changes.now) }
{
    for place in 0..changes.len() {
        add(alloc, course, &changes[place])?;
    }
    Ok(())
}

/// Takes more changesets, and gives words in which each that there is then has a bit.
pub(crate) fn add_and_mark(
    alloc: Global,
    course: &mut Course,
    changes: &[OnBranch],
) -> Result<Vec<u64>, AllocError>
    ensures kept { Keeps course.old course.new }
    ensures ok { IfOk result (λ marks. AddsAll course.old course.new changes.now × (length course.new.known.items ≤ 64 * length marks.items)) }
    ensures none { IfOk result (λ marks. (rev : ℕ) → bit_of marks.items rev ≡ false) }
{
    add_all(alloc, course, changes)?;
    no_bits(alloc, course.known.len())
}

/// Lets go of all changesets and branches but the first so many.
pub(crate) fn forget(course: &mut Course, count: usize, branches: usize)
    ensures known { course.new.known.items ≡ take count course.old.known.items }
    ensures names { course.new.names.items ≡ take branches course.old.names.items }
    ensures numbers { course.new.numbers ≡ course.old.numbers }
    ensures heads { course.new.heads.items ≡ take count course.old.heads.items }
    ensures reaches { course.new.reaches.items ≡ take count course.old.reaches.items }
{
    course.known.truncate(count);
    course.names.truncate(branches);
    course.heads.truncate(count);
    course.reaches.truncate(count);
}

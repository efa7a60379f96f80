//! Files that are read whole, in one read, and what their bytes give.
ghost use Rattle.std.specs.Prelude.{◌≡◌, ◌<◌};
ghost use Rattle.std.specs.Option.{option_copied};
ghost use Rattle.hgs_bytes.specs.Answer.{Gives};
ghost use Rattle.hgs_load.specs.Answer.{is_of_outside, NeverFaults};
ghost use Rattle.hgs_load.specs.Marks.{bookmarks_path, dirstate_path, roots_path, bookmarks_answer, dirstate_answer, roots_answer, nodes_of};
ghost use Rattle.hgs_load.specs.Open.{most_requires, most_bookmarks_text, most_dirstate, most_roots};
ghost use Rattle.hgs_load.specs.Requirements.{requires_answer};
ghost use Rattle.hgs_load.specs.Whole.{is_above, within};

use crate::answer::ReadAnswer;
use crate::marks::{WorkingNodes, bookmarks_of, phase_roots_of, working_nodes_of};
use crate::requirements::test_requirements;
use hgs_files::path::StorePath;
use hgs_index::kinds::Which;
use hgs_marks::bookmarks::Bookmarks;
use hgs_phases::roots::Roots;
use std::alloc::Global;

/// The numbers of bytes above which a file is refused.
pub(crate) const MOST_REQUIRES: u64 = 65_536;

pub(crate) const MOST_BOOKMARKS_TEXT: u64 = 16_777_216;

pub(crate) const MOST_DIRSTATE: u64 = 33_554_432;

pub(crate) const MOST_ROOTS: u64 = 67_108_864;

// Whether a file has more bytes than it may have.
pub(crate) fn is_above(part: Option<&[u8]>, most: u64) -> bool
    ensures { result ≡ is_above most (option_copied part.entry) }
{
    match part {
        Some(bytes) => bytes.len() as u64 > most,
        None => false,
    }
}

/// Tests what a repository requires.
pub fn take_requirements(alloc: Global, part: Option<&[u8]>) -> Result<(), ReadAnswer>
    ensures answer { Gives is_of_outside (λ x. x) result (within most_requires requires_answer (option_copied part.entry)) }
    ensures inner { NeverFaults result }
{
    if is_above(part, MOST_REQUIRES) {
        return Err(ReadAnswer::Limit(Which::Part));
    }
    test_requirements(alloc, part)
}

/// The bookmarks of the file with this path.
pub fn take_bookmarks(
    alloc: Global,
    path: &StorePath,
    part: Option<&[u8]>,
) -> Result<Bookmarks, ReadAnswer>
    requires { path.now ≡ bookmarks_path }
    ensures answer { Gives is_of_outside (λ marks. marks) result (within most_bookmarks_text bookmarks_answer (option_copied part.entry)) }
    ensures inner { NeverFaults result }
{
    if is_above(part, MOST_BOOKMARKS_TEXT) {
        return Err(ReadAnswer::Limit(Which::Part));
    }
    bookmarks_of(alloc, path, part)
}

/// The working parents' nodes in the file with this path.
pub fn take_nodes(
    alloc: Global,
    path: &StorePath,
    part: Option<&[u8]>,
) -> Result<WorkingNodes, ReadAnswer>
    requires { path.now ≡ dirstate_path }
    ensures answer { Gives is_of_outside nodes_of result (within most_dirstate dirstate_answer (option_copied part.entry)) }
    ensures inner { NeverFaults result }
{
    if is_above(part, MOST_DIRSTATE) {
        return Err(ReadAnswer::Limit(Which::Part));
    }
    working_nodes_of(alloc, path, part)
}

/// The phase roots of the file with this path.
pub fn take_roots(alloc: Global, path: &StorePath, part: Option<&[u8]>) -> Result<Roots, ReadAnswer>
    requires { path.now ≡ roots_path }
    ensures answer { Gives is_of_outside (λ roots. roots) result (within most_roots roots_answer (option_copied part.entry)) }
    ensures inner { NeverFaults result }
{
    if is_above(part, MOST_ROOTS) {
        return Err(ReadAnswer::Limit(Which::Part));
    }
    phase_roots_of(alloc, path, part)
}

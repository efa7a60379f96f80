//! Bookmarks, working parents and phase roots, as a load takes them from their files.
ghost use Rattle.std.specs.Prelude.{◌≡◌, ◌<◌, length, false, IfOk, IfSome};
ghost use Rattle.std.specs.Option.{option_copied};
ghost use Rattle.hgs_bytes.specs.Answer.{Gives};
ghost use Rattle.hgs_bytes.specs.Bytes.{same};
ghost use Rattle.hgs_index.specs.Node.{null_node};
ghost use Rattle.hgs_marks.specs.Bookmarks.{read_bookmarks};
ghost use Rattle.hgs_marks.specs.Dirstate.{read_dirstate};
ghost use Rattle.hgs_phases.specs.Roots.{read_roots};
ghost use Rattle.hgs_load.specs.Answer.{is_of_outside, is_fault, IsRefusal, NeverFaults};
ghost use Rattle.hgs_load.specs.Marks.{bookmarks_path, dirstate_path, roots_path, mark_refusal, marks_answer, bookmarks_answer, nodes_of, nodes_answer, dirstate_answer, working_of, parent_answer, working_answer, roots_refusal, roots_of, roots_answer};

use crate::answer::ReadAnswer;
use crate::pieces::piece_of;
use crate::refusal::damage;
use hgs_bytes::parts::equal;
use hgs_files::path::StorePath;
use hgs_index::kinds::Which;
use hgs_index::node::Node;
use hgs_marks::bookmarks::Bookmarks;
use hgs_marks::dirstate::Dirstate;
use hgs_marks::fault::MarkFault;
use hgs_phases::fault::RootsFault;
use hgs_phases::roots::Roots;
use hgs_plan::damage::Part;
use hgs_revlog::revlog::Revlog;
use std::alloc::Global;

/// A text with more bookmarks is refused.
const MOST_BOOKMARKS: usize = 10_000;

/// The nodes of the two working parents, the null node where there is none.
#[derive(Clone, Copy, Debug)]
pub struct WorkingNodes {
    pub p1: Node,
    pub p2: Node,
}

/// The changesets that are the working parents.
#[derive(Clone, Copy, Debug)]
pub struct WorkingParents {
    pub first: Option<u32>,
    pub second: Option<u32>,
}

/// What a fault of a text of bookmarks or of the working parents is.
pub fn of_marks(alloc: Global, path: &StorePath, part: Part, fault: MarkFault) -> ReadAnswer
    ensures refusal { IsRefusal result (mark_refusal path.now part fault) }
    ensures inner { is_fault result ≡ false }
{
    match fault {
        MarkFault::Line(line) => damage(alloc, path, part, 1, line),
        MarkFault::Name(line) => damage(alloc, path, part, 2, line),
        MarkFault::Short => damage(alloc, path, part, 3, 0),
        MarkFault::State(at) => damage(alloc, path, part, 4, at),
        MarkFault::Memory => ReadAnswer::Memory,
    }
}

// The bookmarks of a text.
fn marks_from(alloc: Global, path: &StorePath, text: &[u8]) -> Result<Bookmarks, ReadAnswer>
    requires { path.now ≡ bookmarks_path }
    ensures marks { Gives is_of_outside (λ marks. marks) result (marks_answer (read_bookmarks text.now)) }
    ensures inner { NeverFaults result }
{
    let bookmarks = match Bookmarks::read(alloc, text) {
        Ok(bookmarks) => bookmarks,
        Err(fault) => return Err(of_marks(alloc, path, Part::Bookmarks, fault)),
    };
    if bookmarks.len() > MOST_BOOKMARKS {
        return Err(ReadAnswer::Limit(Which::Bookmarks));
    }
    Ok(bookmarks)
}

/// The bookmarks of the file with this path.
pub fn bookmarks_of(
    alloc: Global,
    path: &StorePath,
    part: Option<&[u8]>,
) -> Result<Bookmarks, ReadAnswer>
    requires { path.now ≡ bookmarks_path }
    ensures marks { Gives is_of_outside (λ marks. marks) result (bookmarks_answer (option_copied part.entry)) }
    ensures inner { NeverFaults result }
{
    marks_from(alloc, path, piece_of(part))
}

// The working parents' nodes in a text.
fn nodes_from(alloc: Global, path: &StorePath, text: &[u8]) -> Result<WorkingNodes, ReadAnswer>
    requires { path.now ≡ dirstate_path }
    ensures nodes { Gives is_of_outside nodes_of result (nodes_answer (read_dirstate text.now)) }
    ensures inner { NeverFaults result }
{
    match Dirstate::read(alloc, text) {
        Ok(dirstate) => Ok(WorkingNodes {
            p1: dirstate.p1,
            p2: dirstate.p2,
        }),
        Err(fault) => Err(of_marks(alloc, path, Part::Dirstate, fault)),
    }
}

/// The working parents' nodes in the file with this path.
pub fn working_nodes_of(
    alloc: Global,
    path: &StorePath,
    part: Option<&[u8]>,
) -> Result<WorkingNodes, ReadAnswer>
    requires { path.now ≡ dirstate_path }
    ensures nodes { Gives is_of_outside nodes_of result (dirstate_answer (option_copied part.entry)) }
    ensures inner { NeverFaults result }
{
    nodes_from(alloc, path, piece_of(part))
}

/// Whether this node stands for no revision.
pub fn is_null(node: &Node) -> bool
    ensures { result ≡ same node.now.0 null_node }
{
    equal(&node.0, &[0; 20])
}

// The changeset with the node of a working parent.
fn parent_of(
    alloc: Global,
    path: &StorePath,
    log: &Revlog,
    node: &Node,
) -> Result<Option<u32>, ReadAnswer>
    requires { path.now ≡ dirstate_path }
    ensures parent { Gives is_of_outside (λ parent. parent) result (parent_answer log.now.entries node.now.0) }
    ensures below { IfOk result (λ parent. IfSome parent (λ rev. rev < length log.now.entries)) }
    ensures inner { NeverFaults result }
{
    if is_null(node) {
        return Ok(None);
    }
    match log.rev_of(node) {
        Some(rev) => Ok(Some(rev)),
        None => Err(damage(alloc, path, Part::Dirstate, 6, 0)),
    }
}

/// The working parents, which have to be in the history. The path is that of the file that names them.
pub fn working_parents_of(
    alloc: Global,
    path: &StorePath,
    log: &Revlog,
    nodes: &WorkingNodes,
) -> Result<WorkingParents, ReadAnswer>
    requires { path.now ≡ dirstate_path }
    ensures working { Gives is_of_outside working_of result (working_answer log.now.entries (nodes_of nodes.now)) }
    ensures first { IfOk result (λ working. IfSome working.first (λ rev. rev < length log.now.entries)) }
    ensures second { IfOk result (λ working. IfSome working.second (λ rev. rev < length log.now.entries)) }
    ensures inner { NeverFaults result }
{
    let first = match parent_of(alloc, path, log, &nodes.p1) {
        Ok(first) => first,
        Err(refusal) => return Err(refusal),
    };
    match parent_of(alloc, path, log, &nodes.p2) {
        Ok(second) => Ok(WorkingParents { first, second }),
        Err(refusal) => Err(refusal),
    }
}

// What a fault of a text of phase roots is.
fn of_roots(alloc: Global, path: &StorePath, fault: RootsFault) -> ReadAnswer
    requires { path.now ≡ roots_path }
    ensures refusal { IsRefusal result (roots_refusal fault) }
    ensures inner { is_fault result ≡ false }
{
    match fault {
        RootsFault::Line(line) => damage(alloc, path, Part::Roots, 1, line),
        RootsFault::Memory => ReadAnswer::Memory,
    }
}

// The phase roots of a text.
fn roots_from(alloc: Global, path: &StorePath, text: &[u8]) -> Result<Roots, ReadAnswer>
    requires { path.now ≡ roots_path }
    ensures roots { Gives is_of_outside (λ roots. roots) result (roots_of (read_roots text.now)) }
    ensures inner { NeverFaults result }
{
    match Roots::read(alloc, text) {
        Ok(roots) => Ok(roots),
        Err(fault) => Err(of_roots(alloc, path, fault)),
    }
}

/// The phase roots of the file with this path.
pub fn phase_roots_of(
    alloc: Global,
    path: &StorePath,
    part: Option<&[u8]>,
) -> Result<Roots, ReadAnswer>
    requires { path.now ≡ roots_path }
    ensures roots { Gives is_of_outside (λ roots. roots) result (roots_answer (option_copied part.entry)) }
    ensures inner { NeverFaults result }
{
    roots_from(alloc, path, piece_of(part))
}

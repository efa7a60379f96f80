//! The files that a command replaces, with their new texts and the bytes that stand.
ghost use Rattle.std.specs.Prelude.{◌≡◌, ◌<◌, ◌^◌, true, length, IfOk};
ghost use Rattle.std.specs.List.{All};
ghost use Rattle.hgs_bytes.specs.Answer.{Gives};
ghost use Rattle.hgs_index.specs.MarkName.{is_mark_name};
ghost use Rattle.hgs_steps.specs.Fault.{is_memory};
ghost use Rattle.hgs_steps.specs.Steps.{dirstate_replacing, marked, marks_replacing, phases_text, roots_replaced, roots_replacing, within};

use crate::fault::PlanFault;
use crate::loaded::Loaded;
use hgs_bytes::bytes::Bytes;
use hgs_bytes::names::Names;
use hgs_bytes::parts::equal;
use hgs_index::kinds::Which;
use hgs_index::node::Node;
use hgs_marks::bookmarks::Bookmarks;
use hgs_marks::dirstate::Dirstate;
use hgs_phases::phases::Phases;
use hgs_revlog::revlog::Revlog;
use hgs_transaction::parts::{ReplacedFile, Replacing};
use std::alloc::{AllocError, Global};

/// More bookmarks are refused.
const MOST_BOOKMARKS: usize = 10_000;

fn copy_of(alloc: Global, standing: &Option<Bytes>) -> Result<Option<Bytes>, AllocError>
    ensures { IfOk result (λ copy. copy ≡ standing.now) }
{
    match standing {
        Some(bytes) => Ok(Some(bytes.copy(alloc)?)),
        None => Ok(None),
    }
}

/// The text that is written of the phases of changesets.
fn phases_text(alloc: Global, phases: &Phases, changelog: &Revlog) -> Result<Vec<u8>, AllocError>
    requires { length phases.now ≡ length changelog.now.entries }
    ensures { IfOk result (λ text. text.items ≡ phases_text phases.now changelog.now.entries) }
{
    let mut text = Vec::new(alloc);
    phases.print(changelog, &mut text)?;
    Ok(text)
}

fn roots_from(alloc: Global, loaded: &Loaded, text: Vec<u8>) -> Result<Replacing, AllocError>
    ensures { IfOk result (λ x. x ≡ roots_replacing loaded.now text.items) }
{
    let standing = copy_of(alloc, &loaded.standing.roots)?;
    Ok(Replacing {
        file: ReplacedFile::PhaseRoots,
        text: Bytes::from_vec(text),
        standing,
    })
}

/// The phase roots with the text that is written of other phases of the changesets that were loaded.
pub fn moved_roots(alloc: Global, loaded: &Loaded, phases: &Phases) -> Result<Replacing, AllocError>
    requires { length phases.now ≡ length loaded.now.changelog.entries }
    ensures { IfOk result (λ x. x ≡ roots_replacing loaded.now (phases_text phases.now loaded.now.changelog.entries)) }
{
    let text = phases_text(alloc, phases, &loaded.changelog)?;
    roots_from(alloc, loaded, text)
}

/// The phase roots with the text that is written of these phases of the changesets of a later changelog. None where the
/// same text is written of what was loaded, whatever bytes stand.
pub fn replace_roots(
    alloc: Global,
    loaded: &Loaded,
    phases: &Phases,
    changelog: &Revlog,
) -> Result<Option<Replacing>, AllocError>
    requires { length phases.now ≡ length changelog.now.entries }
    ensures { IfOk result (λ x. x ≡ roots_replaced loaded.now (phases_text phases.now changelog.now.entries)) }
{
    let before = phases_text(alloc, &loaded.phases, &loaded.changelog)?;
    let after = phases_text(alloc, phases, changelog)?;
    if equal(&before, &after) {
        return Ok(None);
    }
    Ok(Some(roots_from(alloc, loaded, after)?))
}

/// That bookmarks were loaded, and that a command leaves them, within their limit.
pub fn test_counts(loaded: &Loaded, marks: &Bookmarks) -> Result<(), PlanFault>
    ensures { result ≡ within loaded.now marks.now tt }
{
    if loaded.bookmarks.len() > MOST_BOOKMARKS || marks.len() > MOST_BOOKMARKS {
        return Err(PlanFault::Limit(Which::Bookmarks));
    }
    Ok(())
}

/// The bookmarks with one of them set.
fn with_bookmark(loaded: &Loaded, name: &[u8], node: Node) -> Result<Bookmarks, AllocError>
    requires { is_mark_name name.now ≡ true }
    ensures { IfOk result (λ marks. marks ≡ marked loaded.now name.now node.0) }
{
    let mut marks = loaded.bookmarks.copy()?;
    match marks.set(name, node) {
        Ok(()) => Ok(marks),
        Err(_) => Err(AllocError),
    }
}

/// The file of the bookmarks with these.
pub fn replace_marks(
    alloc: Global,
    loaded: &Loaded,
    marks: &Bookmarks,
) -> Result<Replacing, PlanFault>
    ensures { Gives is_memory (λ x. x) result (within loaded.now marks.now (marks_replacing loaded.now marks.now)) }
{
    test_counts(loaded, marks)?;
    let mut text = Vec::new(alloc);
    marks.print(&mut text)?;
    let standing = copy_of(alloc, &loaded.standing.bookmarks)?;
    Ok(Replacing {
        file: ReplacedFile::Bookmarks,
        text: Bytes::from_vec(text),
        standing,
    })
}

/// The file of the bookmarks with one set to a node, whether it stood or not.
pub fn replace_bookmarks(
    alloc: Global,
    loaded: &Loaded,
    name: &[u8],
    node: Node,
) -> Result<Replacing, PlanFault>
    requires { is_mark_name name.now ≡ true }
    ensures { Gives is_memory (λ x. x) result (within loaded.now (marked loaded.now name.now node.0) (marks_replacing loaded.now (marked loaded.now name.now node.0))) }
{
    let marks = with_bookmark(loaded, name, node)?;
    replace_marks(alloc, loaded, &marks)
}

/// The dirstate with one working parent, and the tracked paths.
pub fn replace_dirstate(
    alloc: Global,
    loaded: &Loaded,
    node: Node,
    paths: Names,
) -> Result<Replacing, AllocError>
    requires { All (λ path. length path < 2 ^ 32) paths }
    ensures { IfOk result (λ x. x ≡ dirstate_replacing loaded.now node.0 paths) }
{
    let dirstate = Dirstate {
        p1: node,
        p2: Node([0; 20]),
        paths,
    };
    let mut text = Vec::new(alloc);
    dirstate.print(&mut text)?;
    let standing = copy_of(alloc, &loaded.standing.dirstate)?;
    Ok(Replacing {
        file: ReplacedFile::Dirstate,
        text: Bytes::from_vec(text),
        standing,
    })
}

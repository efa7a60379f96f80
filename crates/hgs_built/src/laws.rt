//! What the definitions of this crate imply. Each function is one law; none does anything but to call laws that it rests on.
ghost use Rattle.std.specs.Prelude.{◌≡◌, true, Bool, ℕ, List, None};
ghost use Rattle.std.specs.List.{AllByRecursion};
ghost use Rattle.hgs_files.specs.Tree.{Tree};
ghost use Rattle.hgs_index.specs.Entry.{Fits};
ghost use Rattle.hgs_index.specs.MarkName.{is_mark_name};
ghost use Rattle.hgs_index.specs.Revision.{ParentsBefore, Revision};
ghost use Rattle.hgs_index.specs.Revlog.{Holds, HoldsRevisions, Item, all_different, items};
ghost use Rattle.hgs_model.specs.History.{changeset_nodes, history, parents_in, uses};
ghost use Rattle.hgs_model.specs.IsRepo.{IsRepo};
ghost use Rattle.hgs_model.specs.Repo.{Bookmark, Repo};
ghost use Rattle.hgs_stands.specs.Stands.{HasBookmarks, HasDirstate, HasPhases, HoldsChangesets, IsClean, ListsFilelogs, Stands};
ghost use Rattle.hgs_built.specs.Built.{data_of, index_of, stored_whole, tree_of};
ghost use Rattle.hgs_built.specs.CanBeStored.{CanBeStored, HasRoom};
ghost use Rattle.hgs_built.specs.Limits.{IsWithinLimits};

use hgs_index::laws::{chunk_then_text, nodes_are_counted, nodes_have_places};
use hgs_marks::laws::{
    bookmark_lines_written_then_read, bookmarks_in_order, bookmarks_written_then_read,
    dirstate_written_then_read,
};
use hgs_model::history_laws::nodes_name_revisions;
use hgs_model::laws::{changelog_is_whole, parents_stand_before};
use hgs_path::laws::{added_lines_are_read, tracked_without_fault};
use hgs_phases::laws::written_then_read;
use hgs_stands::laws::{entries_of_changesets, filelogs_stand_apart, stands_for_one};

/// Revisions that have room are held by the index and the data bytes that are built of them, and what bytes hold has room,
/// in either form.
pub fn revlogs_are_held()
    ensures built { (revisions : List Revision) → HasRoom revisions → ParentsBefore 0 (parents_in revisions) → HoldsRevisions (index_of revisions) (data_of revisions) revisions }
    ensures room { (inline : Bool) (index data_bytes : List ℕ) (revisions : List Revision) → Holds inline index data_bytes revisions → HasRoom revisions }
{
    chunk_then_text();
    nodes_are_counted();
    nodes_have_places();
    nodes_name_revisions();
    changelog_is_whole();
    parents_stand_before();
    entries_of_changesets();
}

/// Each part of the tree that is built of a repository is what that part is to be.
pub fn parts_are_built()
    ensures revlogs { (r : Repo) → IsRepo r → CanBeStored r → HoldsChangesets (tree_of r) r.changesets }
    ensures list { (r : Repo) → IsRepo r → ListsFilelogs (tree_of r) r.changesets }
    ensures phases { (r : Repo) → IsRepo r → all_different (changeset_nodes r.changesets) ≡ true → HasPhases (tree_of r) r }
    ensures bookmarks { (r : Repo) → IsRepo r → AllByRecursion (λ (m : Bookmark). is_mark_name m.name ≡ true) r.bookmarks → HasBookmarks (tree_of r) r }
    ensures dirstate { (r : Repo) → IsRepo r → HasDirstate (tree_of r) r }
{
    chunk_then_text();
    nodes_are_counted();
    nodes_have_places();
    nodes_name_revisions();
    changelog_is_whole();
    parents_stand_before();
    entries_of_changesets();
    filelogs_stand_apart();
    tracked_without_fault();
    added_lines_are_read();
    bookmarks_written_then_read();
    bookmark_lines_written_then_read();
    bookmarks_in_order();
    dirstate_written_then_read();
    written_then_read();
}

/// A repository that can be stored has a tree that stands for it, without locks; and what a tree stands for can be stored.
pub fn repositories_have_trees()
    ensures built { (r : Repo) → IsRepo r → CanBeStored r → IsClean (tree_of r) r }
    ensures only { (t : Tree) (r : Repo) → Stands t r → CanBeStored r }
{
    chunk_then_text();
    nodes_are_counted();
    nodes_have_places();
    nodes_name_revisions();
    changelog_is_whole();
    parents_stand_before();
    entries_of_changesets();
    filelogs_stand_apart();
    tracked_without_fault();
    added_lines_are_read();
    bookmarks_written_then_read();
    bookmark_lines_written_then_read();
    bookmarks_in_order();
    dirstate_written_then_read();
    written_then_read();
}

/// In a repository within the limits of revlogs each number has room in its entry.
pub fn limits_leave_room()
    ensures changelog { (r : Repo) → IsRepo r → IsWithinLimits r → AllByRecursion (λ (i : Item). Fits i.entry None) (items (stored_whole (history r.changesets).changelog)) }
    ensures manifest { (r : Repo) → IsRepo r → IsWithinLimits r → AllByRecursion (λ (i : Item). Fits i.entry None) (items (stored_whole (history r.changesets).manifest)) }
    ensures filelogs { (r : Repo) → IsRepo r → IsWithinLimits r → (path : List ℕ) → uses r.changesets path ≡ true → AllByRecursion (λ (i : Item). Fits i.entry None) (items (stored_whole ((history r.changesets).filelog path))) }
{
    chunk_then_text();
    nodes_are_counted();
    nodes_have_places();
    nodes_name_revisions();
    changelog_is_whole();
    parents_stand_before();
    entries_of_changesets();
}

/// Repositories that can be stored and have one tree are one.
pub fn repositories_differ_where_trees_do()
    ensures { (r s : Repo) → IsRepo r → IsRepo s → CanBeStored r → CanBeStored s → ((path : List ℕ) → tree_of r path ≡ tree_of s path) → r ≡ s }
{
    chunk_then_text();
    nodes_are_counted();
    nodes_have_places();
    nodes_name_revisions();
    changelog_is_whole();
    parents_stand_before();
    entries_of_changesets();
    filelogs_stand_apart();
    tracked_without_fault();
    added_lines_are_read();
    bookmarks_written_then_read();
    bookmark_lines_written_then_read();
    bookmarks_in_order();
    dirstate_written_then_read();
    written_then_read();
    stands_for_one();
}

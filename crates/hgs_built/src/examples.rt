//! The definitions tried on small repositories. Each function is one example; none does anything but to call laws that it
//! rests on.
ghost use Rattle.std.specs.Prelude.{◌≡◌, false, ℕ, List};
ghost use Rattle.hgs_bytes.specs.Bytes.{same};
ghost use Rattle.hgs_model.specs.Repo.{empty_repo};
ghost use Rattle.hgs_stands.specs.Places.{dirstate_path};
ghost use Rattle.hgs_stands.specs.Samples.{two_drafts, two_drafts_files};
ghost use Rattle.hgs_stands.specs.Stands.{IsClean};
ghost use Rattle.hgs_built.specs.Built.{tree_of};
ghost use Rattle.hgs_built.specs.CanBeStored.{CanBeStored};
ghost use Rattle.hgs_built.specs.Samples.{merged, merged_files};

use crate::laws::repositories_have_trees;
use hgs_index::laws::{chunk_then_text, nodes_are_counted, nodes_have_places};
use hgs_marks::laws::{
    bookmark_lines_written_then_read, bookmarks_in_order, bookmarks_written_then_read,
    dirstate_written_then_read,
};
use hgs_model::history_laws::nodes_name_revisions;
use hgs_model::laws::{changelog_is_whole, parents_stand_before};
use hgs_phases::laws::{read_texts, written_then_read};
use hgs_stands::examples::two_drafts_stand;
use hgs_stands::laws::entries_of_changesets;

/// The repository of two drafts, of which Mercurial wrote the files, can be stored, and so can the empty one.
pub fn samples_can_be_stored()
    ensures two_drafts { CanBeStored two_drafts }
    ensures empty { CanBeStored empty_repo }
{
    repositories_have_trees();
    two_drafts_stand();
}

/// What is built of the two drafts are the files that Mercurial 6.3.2 wrote of them, byte by byte, the dirstate aside: there
/// Mercurial puts the modes, sizes and times of the files.
pub fn files_are_mercurials()
    ensures { (path : List ℕ) → same dirstate_path path ≡ false → tree_of two_drafts path ≡ two_drafts_files path }
{}

/// The files that Mercurial 6.3.2 wrote of a renamed file that is executable, one with a hashed name, and a merge stand for
/// these, and are clean; so that repository can be stored.
pub fn merged_stands()
    ensures files { IsClean merged_files merged }
    ensures stored { CanBeStored merged }
{
    chunk_then_text();
    nodes_are_counted();
    nodes_have_places();
    nodes_name_revisions();
    changelog_is_whole();
    parents_stand_before();
    entries_of_changesets();
    bookmarks_written_then_read();
    bookmark_lines_written_then_read();
    bookmarks_in_order();
    dirstate_written_then_read();
    written_then_read();
    read_texts();
    repositories_have_trees();
}

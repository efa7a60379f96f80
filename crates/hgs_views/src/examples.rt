//! The definitions tried on a small repository. Each function is one example; none does anything but name the laws that its
//! proof takes.
ghost use Rattle.std.specs.Prelude.{◌≡◌, [], ◌∷◌, ◌++◌, codes};
ghost use Rattle.hgs_files.specs.Tree.{Tree, bytes_at};
ghost use Rattle.hgs_files.specs.declared.op.Op.TheVariants.{Append};
ghost use Rattle.hgs_load.specs.View.{View};
ghost use Rattle.hgs_model.specs.Repo.{empty_repo};
ghost use Rattle.hgs_reader.specs.Heads.{heads_text};
ghost use Rattle.hgs_reader.specs.Shown.{marks_text, parents_text};
ghost use Rattle.hgs_shown.specs.Answers.{body_at, files_text_of};
ghost use Rattle.hgs_shown.specs.Shown.{IsViewOf};
ghost use Rattle.hgs_stands.specs.Places.{changelog_index};
ghost use Rattle.hgs_stands.specs.Samples.{two_drafts};
ghost use Rattle.hgs_views.specs.Course.{IsCourse};
ghost use Rattle.hgs_views.specs.Samples.{changed_back, committing, no_files, unmarked_files};

use crate::laws::{roots_of_later_repository, views_say_their_repository};
use hgs_index::laws::held_index_length;
use hgs_model::laws::{changelog_is_whole, empty_is_repository};
use hgs_stands::examples::two_drafts_stand;
use hgs_stands::laws::{filelogs_stand_apart, standing_trees_show};

/// From nothing to the two changesets that Mercurial 6.3.2 wrote: the history grows by one append.
pub fn history_grows()
    ensures { IsCourse (committing no_files unmarked_files empty_repo two_drafts) [] (Append changelog_index (bytes_at unmarked_files changelog_index) ∷ []) }
{
    filelogs_stand_apart();
    held_index_length();
    changelog_is_whole();
    roots_of_later_repository();
    standing_trees_show();
    empty_is_repository();
    two_drafts_stand();
}

/// A file that is changed and changed back has the same body again, and another node: that of its revision is told.
pub fn nodes_of_equal_bodies()
    ensures first { files_text_of changed_back 0 ≡ codes "b789fdd96dc2f3bd229c1dd8eedf0fc60e2b68e3 - a" ++ 10 ∷ [] }
    ensures last { files_text_of changed_back 2 ≡ codes "ee16cd077f01bdd1ce18d9a915a62100a7c40116 - a" ++ 10 ∷ [] }
    ensures body { body_at changed_back 2 (codes "a") ≡ body_at changed_back 0 (codes "a") }
{}

/// What a view says of the two changesets that Mercurial 6.3.2 wrote, over whatever tree.
pub fn view_of_two_drafts()
    ensures heads { (t : Tree) (view : View) → IsViewOf view t two_drafts → heads_text view ≡ codes "1 37bdf19219c0e69b87d6371fabfaf5c3a63794d9" ++ 10 ∷ [] }
    ensures bookmarks { (t : Tree) (view : View) → IsViewOf view t two_drafts → marks_text view ≡ codes "main" ++ 9 ∷ 48 ∷ 9 ∷ codes "cb9a9f314b8b07ba71012fcdbc544b5a4d82ff5b" ++ 10 ∷ [] }
    ensures parents { (t : Tree) (view : View) → IsViewOf view t two_drafts → parents_text view ≡ codes "1 37bdf19219c0e69b87d6371fabfaf5c3a63794d9" ++ 10 ∷ [] }
{
    views_say_their_repository();
    two_drafts_stand();
}

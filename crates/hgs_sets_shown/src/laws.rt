//! What the definitions of the crates below imply of sets. Each function is one law; none does anything but to call laws that it
//! rests on.
ghost use Rattle.std.specs.Prelude.{◌≡◌, ◌↔◌, ℕ, List, Ok};
ghost use Rattle.hgs_files.specs.Tree.{Tree};
ghost use Rattle.hgs_load.specs.Asks.{at_rest};
ghost use Rattle.hgs_load.specs.Open.{open_asks};
ghost use Rattle.hgs_load.specs.View.{View};
ghost use Rattle.hgs_members.specs.Story.{story_of};
ghost use Rattle.hgs_model.specs.IsRepo.{IsRepo};
ghost use Rattle.hgs_model.specs.Names.{named as model_named};
ghost use Rattle.hgs_model.specs.Repo.{Repo};
ghost use Rattle.hgs_reader.specs.Names.{named};
ghost use Rattle.hgs_revset.specs.Members.{story_of_repo, AreAlike, Has, Set};
ghost use Rattle.hgs_shown.specs.Answers.{IsReadable};
ghost use Rattle.hgs_shown.specs.Shown.{IsViewOf};

use hgs_index::laws::{nodes_are_counted, nodes_have_places};
use hgs_model::laws::changelog_is_whole;
use hgs_revlog::laws::{entries_of_revisions, places_of_nodes};
use hgs_revset::laws::members_of_alike;
use hgs_shown::laws::{load_shows_repository, names_name_the_same, parents_of_entries};

/// A set is told of a view what it is told of the repository that the view shows: so it is of one that is loaded of files at rest.
pub fn views_tell_repositories()
    ensures view { (t : Tree) (r : Repo) (view : View) → IsRepo r → IsViewOf view t r → ((name : List ℕ) → named view name ≡ model_named r name) → AreAlike (story_of view) (story_of_repo r) }
    ensures rest { (t : Tree) (r : Repo) (view : View) → IsReadable t r → at_rest t open_asks ≡ Ok view → AreAlike (story_of view) (story_of_repo r) }
    ensures members { (t : Tree) (r : Repo) (view : View) (a : Set) (rev : ℕ) → IsReadable t r → at_rest t open_asks ≡ Ok view → (Has (story_of view) a rev ↔ Has (story_of_repo r) a rev) }
{
    nodes_are_counted();
    nodes_have_places();
    changelog_is_whole();
    places_of_nodes();
    entries_of_revisions();
    members_of_alike();
    parents_of_entries();
    load_shows_repository();
    names_name_the_same();
}

//! What the definitions of the crates below imply of sets beside writers. Each function is one law; none does anything but to call
//! laws that it rests on.
ghost use Rattle.std.specs.Prelude.{◌≡◌, ◌↔◌, ℕ, List, Ok};
ghost use Rattle.hgs_bytes.specs.Bytes.{IsPrefixOf};
ghost use Rattle.hgs_files.specs.declared.op.Op.{Op};
ghost use Rattle.hgs_headline.specs.WritersLog.{WritersLog, course_of};
ghost use Rattle.hgs_index.specs.Revision.{ParentsBefore};
ghost use Rattle.hgs_load.specs.View.{View};
ghost use Rattle.hgs_members.specs.Story.{story_of};
ghost use Rattle.hgs_members.specs.Text.{Prints};
ghost use Rattle.hgs_revset.specs.Members.{story_of_repo, AreAlike, Has, Set};
ghost use Rattle.hgs_revset.specs.Text.{set_text};
ghost use Rattle.hgs_views.specs.Seen.{IsLoadedBetween, Numbers, seen};

use hgs_headline::laws::{views_beside_writers, writers_logs_are_courses};
use hgs_revset::laws::members_of_alike;
use hgs_sets_shown::laws::views_tell_repositories;
use hgs_shown::laws::older_parts_stay;

/// A set is told of a view that was loaded beside writers what it is told of the repository that this view shows: it has the same members,
/// and the text that is written of it is that of this repository.
pub fn sets_beside_writers()
    ensures alike { (h : WritersLog) (first last : List Op) (v : Numbers) (view : View) → IsPrefixOf last h.log → IsLoadedBetween (course_of h) first last v view → AreAlike (story_of view) (story_of_repo (seen (course_of h) v)) }
    ensures members { (h : WritersLog) (first last : List Op) (v : Numbers) (view : View) (a : Set) (rev : ℕ) → IsPrefixOf last h.log → IsLoadedBetween (course_of h) first last v view → (Has (story_of view) a rev ↔ Has (story_of_repo (seen (course_of h) v)) a rev) }
    ensures before { (h : WritersLog) (first last : List Op) (v : Numbers) (view : View) → IsPrefixOf last h.log → IsLoadedBetween (course_of h) first last v view → ParentsBefore 0 (story_of view).parents }
    ensures text { (h : WritersLog) (first last : List Op) (v : Numbers) (view : View) (a : Set) (text : List ℕ) → IsPrefixOf last h.log → IsLoadedBetween (course_of h) first last v view → Prints (story_of view) a (Ok text) → text ≡ set_text (story_of_repo (seen (course_of h) v)) a }
{
    writers_logs_are_courses();
    views_beside_writers();
    older_parts_stay();
    views_tell_repositories();
    members_of_alike();
}

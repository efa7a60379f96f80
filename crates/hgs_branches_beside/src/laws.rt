//! What the definitions of the crates below imply of heads of branches beside writers. Each function is one law; none does anything
//! but to call laws that it rests on.
ghost use Rattle.std.specs.Prelude.{◌≡◌, ◌≤◌, ◌+◌, ℕ, List, [], Some, length, take};
ghost use Rattle.hgs_branch.specs.Taken.{with_changes, Taken};
ghost use Rattle.hgs_branch.specs.Text.{branches_text};
ghost use Rattle.hgs_branch.specs.declared.changeset.OnBranch.{OnBranch};
ghost use Rattle.hgs_branches.specs.Read.{AreRead};
ghost use Rattle.hgs_branches_beside.specs.Committed.{first_branches, first_taken};
ghost use Rattle.hgs_bytes.specs.Bytes.{IsPrefixOf};
ghost use Rattle.hgs_files.specs.declared.op.Op.{Op};
ghost use Rattle.hgs_headline.specs.WritersLog.{WritersLog, course_of};
ghost use Rattle.hgs_index.specs.Revision.{ParentsBefore};
ghost use Rattle.hgs_legal.specs.Numbers.{repo_at};
ghost use Rattle.hgs_load.specs.View.{View};
ghost use Rattle.hgs_revlog.specs.Log.{nodes_of};
ghost use Rattle.hgs_views.specs.Course.{OpensAlong, ReadsAlong};
ghost use Rattle.hgs_views.specs.Seen.{IsLoadedBetween, NoneFell, Numbers};

use hgs_headline::laws::{views_beside_writers, writers_logs_are_courses};

/// Beside writers heads of branches that stand for the first changesets of the repository that a session shows do so after each
/// advance, for those that were taken then, and after each refresh, for the same; and their text is that of these changesets. So it is after
/// any advances with refreshes between them, from none on.
pub fn branches_beside_writers()
    ensures none { (h : WritersLog) (v : Numbers) → first_taken 0 (repo_at h.last v.read).changesets ≡ record { parents = []; names = [] } }
    ensures advanced { (h : WritersLog) (began ended first last : List Op) (v : Numbers) (view : View) (count : ℕ) (changes : List OnBranch) → IsPrefixOf last h.log → OpensAlong (course_of h) first last → ReadsAlong (course_of h) first last → IsLoadedBetween (course_of h) began ended v view → IsPrefixOf ended first → IsPrefixOf first last →
        AreRead (Some first) h.start (Some last) view count changes → with_changes (first_taken count (repo_at h.last v.read).changesets) changes ≡ first_taken (count + length changes) (repo_at h.last v.read).changesets }
    ensures refreshed { (h : WritersLog) (began ended first last : List Op) (v w : Numbers) (old new : View) (count : ℕ) → IsPrefixOf ended h.log → IsPrefixOf last h.log → IsLoadedBetween (course_of h) began ended v old → IsLoadedBetween (course_of h) first last w new → NoneFell v w → count ≤ length old.changelog.entries →
        first_taken count (repo_at h.last v.read).changesets ≡ first_taken count (repo_at h.last w.read).changesets }
    ensures told { (h : WritersLog) (first last : List Op) (v : Numbers) (view : View) (count : ℕ) (taken : Taken) → IsPrefixOf last h.log → IsLoadedBetween (course_of h) first last v view → taken ≡ first_taken count (repo_at h.last v.read).changesets →
        ParentsBefore 0 taken.parents × (branches_text taken.parents taken.names (nodes_of view.changelog.entries) ≡ first_branches count (repo_at h.last v.read).changesets) }
{
    writers_logs_are_courses();
    views_beside_writers();
}

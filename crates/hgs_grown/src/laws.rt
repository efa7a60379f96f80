//! What the definitions of this crate imply. Each function is one law; none does anything but to call laws that it rests on.
ghost use Rattle.std.specs.Prelude.{◌≡◌, ◌<◌, ◌≤◌, ◌^◌, ℕ, List, Option, Result, Some};
ghost use Rattle.hgs_files.specs.declared.op.Op.{Op};
ghost use Rattle.hgs_files.specs.Stop.{IsStopped};
ghost use Rattle.hgs_files.specs.Tree.{Tree, after_all};
ghost use Rattle.hgs_legal.specs.ListsPaths.{ListsPaths};
ghost use Rattle.hgs_model.specs.Repo.{Repo};
ghost use Rattle.hgs_stands.specs.Stands.{Stands};
ghost use Rattle.hgs_grown.specs.declared.commits.Stop.{Stop};
ghost use Rattle.hgs_grown.specs.declared.commits.Tip.{Tip};
ghost use Rattle.hgs_grown.specs.Grown.{AreCommitted, GrowsTo, IsGrownTo, grown};

use hgs_gen::laws::generated_changes_are_valid;
use hgs_writer::laws::calls_leave_what_they_answer;

/// From files that stand for a repository, and whose list of filelogs has only names of paths, the commits lead to files that stand for
/// what the repository becomes by these changesets, with such a list again.
pub fn grown_repositories_stand()
    ensures { (who : List ℕ) (seed count : ℕ) (t : Tree) (r : Repo) (last : Option Tip) (done : List Op) → seed < 2 ^ 64 → count ≤ 5000 → Stands t r → ListsPaths t r → AreCommitted who seed t count last done →
        (s : Repo) × (grown seed count r ≡ Some s) × Stands (after_all done t) s × ListsPaths (after_all done t) s }
{
    generated_changes_are_valid();
    calls_leave_what_they_answer();
}

/// However the commits end, and wherever they are stopped, the files stand for what the repository becomes by some of the changesets, or
/// can be taken back to that.
pub fn growing_may_stop_anywhere()
    ensures { (who : List ℕ) (seed count : ℕ) (t : Tree) (r : Repo) (result : Result Tip Stop) (done d : List Op) → seed < 2 ^ 64 → count ≤ 5000 → Stands t r → ListsPaths t r → GrowsTo who seed count result t done → IsStopped done d → IsGrownTo seed count r (after_all d t) }
{
    generated_changes_are_valid();
    calls_leave_what_they_answer();
}

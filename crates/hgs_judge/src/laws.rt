//! What the definitions of this crate imply. Each function is one law; none does anything but name the laws below that
//! its proof takes.
ghost use Rattle.std.specs.Prelude.{◌≡◌, ◌==◌, ℕ, List, Option, Bool, true, false, map, option_map};
ghost use Rattle.hgs_files.specs.Tree.{Tree};
ghost use Rattle.hgs_findings.specs.Findings.{IsFinding, is_finding};
ghost use Rattle.hgs_findings.specs.OnePath.{Word, lists_word_wrongly};
ghost use Rattle.hgs_findings.specs.Reading.{sight_of};
ghost use Rattle.hgs_findings.specs.Regular.{is_used};
ghost use Rattle.hgs_findings.specs.Sight.{Sight, seen_of, tracked_rows};
ghost use Rattle.hgs_index.specs.Revision.{Revision};
ghost use Rattle.std.specs.List.{AllByRecursion, list_any};
ghost use Rattle.hgs_judge.specs.Found.{IsFoundAt, IsFoundOf};
ghost use Rattle.hgs_judge.specs.declared.path.PathFindings.{PathFindings};
ghost use Rattle.hgs_judge.specs.Path.{IsJudged};
ghost use Rattle.hgs_judge.specs.Report.{of_path};
ghost use Rattle.hgs_judge.specs.Changesets.{changeset_as};
ghost use Rattle.hgs_judge.specs.Trees.{rows_in_tree, rows_read};
ghost use Rattle.hgs_judge.specs.Words.{HasNoRow};

use hgs_findings::laws::one_path;

/// What is found of a used path, by what was read of it alone, is a finding of the tree.
pub fn path_findings()
    ensures { (t : Tree) (path : List ℕ) → is_used (sight_of t) path ≡ true → (file : List ℕ) (rev : Option ℕ) (kind : ℕ) → IsFoundOf t path file rev kind → IsFinding t file rev kind }
{
    one_path();
}

/// What is added of a path that was judged is what is found of it, the lists of changed files aside.
pub fn added_findings()
    ensures are { (index_file data_file index data_bytes : List ℕ) (all : List Word) (f : PathFindings) → IsJudged index data_bytes all f → (file : List ℕ) (rev : Option ℕ) (kind : ℕ) → list_any (is_finding file rev kind) (of_path index_file data_file f) ≡ true → IsFoundAt index_file data_file index data_bytes all file rev kind }
    ensures all { (index_file data_file index data_bytes : List ℕ) (all : List Word) (f : PathFindings) → IsJudged index data_bytes all f → (file : List ℕ) (rev : Option ℕ) (kind : ℕ) → IsFoundAt index_file data_file index data_bytes all file rev kind → (kind == 9) ≡ false → list_any (is_finding file rev kind) (of_path index_file data_file f) ≡ true }
{}

/// Where no tree has a path, what is found of the lists of changed files doesn't hang on its filelog.
pub fn filelogs_of_no_use()
    ensures { (log other : List Revision) (all : List Word) (w : Word) (listed : Bool) → AllByRecursion HasNoRow all → HasNoRow w → lists_word_wrongly log all w listed ≡ lists_word_wrongly other all w listed }
{}

/// The rows that can be read of a changeset's tree are those of its manifest whose paths may be tracked.
pub fn tracked_trees()
    ensures { (s : Sight) (r : Revision) → (seen_of s r).rows ≡ option_map tracked_rows (rows_in_tree (map rows_read s.manifest) (changeset_as (seen_of s r)).tree) }
{}

//! What the definitions of this crate imply. Each function is one law; none does anything but name the laws below that
//! its proof takes.
ghost use Rattle.std.specs.Prelude.{◌≡◌, ◌==◌, ◌++◌, ℕ, List, Option, true, not, length, codes, flat_map, is_some};
ghost use Rattle.std.specs.List.{list_any};
ghost use Rattle.hgs_files.specs.Tree.{Tree, bytes_at};
ghost use Rattle.hgs_journal.specs.Names.{journal_path};
ghost use Rattle.hgs_findings.specs.Findings.{Finding, IsReport, is_finding, rise};
ghost use Rattle.hgs_findings.specs.Reading.{sight_of};
ghost use Rattle.hgs_findings.specs.Regular.{used_paths};
ghost use Rattle.hgs_report.specs.Adds.{Adds};
ghost use Rattle.hgs_report.specs.Lines.{file_if};
ghost use Rattle.hgs_report.specs.Names.{IsOfUnused, unused_in};
ghost use Rattle.hgs_report.specs.Parts.{AreParts, IsOfCalls};

use hgs_findings::laws::one_path;

/// The parts, one after another and then in order, are the report of the tree.
pub fn parts_make_report()
    ensures { (t : Tree) (all ordered : List Finding) → AreParts t all → rise ordered ≡ true → ((path : List ℕ) (rev : Option ℕ) (kind : ℕ) → list_any (is_finding path rev kind) ordered ≡ list_any (is_finding path rev kind) all) → IsReport t ordered (length (sight_of t).changelog) (length (used_paths (sight_of t))) }
{
    one_path();
}

/// The journal and the locks that stand, one after another, are what unfinished calls left.
pub fn calls_that_stand()
    ensures { (t : Tree) (a b c d : List Finding) → b ≡ a ++ file_if (is_some (t journal_path)) journal_path 1 → c ≡ b ++ file_if (is_some (t (codes "wlock"))) (codes "wlock") 2 → d ≡ c ++ file_if (is_some (t (codes "store/lock"))) (codes "store/lock") 2 → Adds t (IsOfCalls t) a d }
{}

/// Those of the files of unused names that have bytes are what is found of them.
pub fn unused_that_stand()
    ensures { (t : Tree) (old new : List Finding) → new ≡ old ++ flat_map (λ file. file_if (not (length (bytes_at t file) == 0)) file 12) (unused_in t) → Adds t (IsOfUnused t) old new }
{}

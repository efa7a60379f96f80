//! The laws tried on a first commit. Each function is one example; none does anything.
ghost use Rattle.std.specs.Prelude.{◌≡◌, ◌++◌, ◌∷◌, [], codes, List, None, Ok, Some, true, ℕ};
ghost use Rattle.hex.specs.Hex.{IsBytes};
ghost use Rattle.hgs_bytes.specs.Bytes.{among};
ghost use Rattle.hgs_files.specs.Tree.{bytes_at};
ghost use Rattle.hgs_model.specs.History.{uses};
ghost use Rattle.hgs_path.specs.declared.name.Ext.{Ext};
ghost use Rattle.hgs_path.specs.declared.name.Ext.TheVariants.{I};
ghost use Rattle.hgs_path.specs.Fncache.{lists};
ghost use Rattle.hgs_path.specs.ListedNames.{listed_file, names_of};
ghost use Rattle.hgs_path.specs.StoreName.{listed_name, store_name};
ghost use Rattle.hgs_stands.specs.Places.{fncache_path};
ghost use Rattle.hgs_ops.specs.Growth.{new_paths};
ghost use Rattle.hgs_model.specs.Repo.{empty_repo};
ghost use Rattle.hgs_ops.specs.Operations.{operations, removals};
ghost use Rattle.hgs_ops.specs.Samples.{after_first, bare, one_draft};
ghost use Rattle.hgs_legal.specs.LegalLog.{Idle, IsLegal, IsRun, IsTurn, State, lock_removals};
ghost use Rattle.hgs_legal.specs.ListsPaths.{ListsPaths};
ghost use Rattle.hgs_legal.specs.NothingClashes.{NothingClashes};
ghost use Rattle.hgs_legal.specs.Numbers.{acknowledged_of, b_of, n_of, w_of};
ghost use Rattle.hgs_legal.specs.Samples.{first_turn, import_turn};

use crate::list_laws::{
    listed_paths_need_no_test, new_repositories_list_paths, writers_keep_lists,
};
use hgs_ops::examples::{first_commit, first_import};
use hgs_stands::laws::{files_of_standing_trees, stands_for_one};

/// In a store with nothing in it a first commit is a turn. Its operations are a log in which one transaction is published, has
/// come to its working parents and its bookmarks, and is acknowledged. With the journal made and nothing else it may be
/// undone, or break off with its journal left: then none is published.
pub fn first_commit_as_a_log()
    ensures turn { (who : List ℕ) → IsTurn bare empty_repo (first_turn who) }
    ensures legal { (who : List ℕ) → IsLegal bare (operations (first_turn who).ops) }
    ensures whole { (who : List ℕ) → (s : State) × IsRun bare empty_repo (operations (first_turn who).ops) s × (n_of s ≡ 1) × (w_of s ≡ 1) × (b_of s ≡ 1) × (acknowledged_of s ≡ 1) }
    ensures undone { (who : List ℕ) → (s : State) × IsRun bare empty_repo ((first_turn who).ops.before ++ (((first_turn who).ops.journal ∷ []) ++ ((first_turn who).ops.undo ++ removals))) s × (n_of s ≡ 0) × (s.doing ≡ Idle None []) }
    ensures broken { (who : List ℕ) → (s : State) × IsRun bare empty_repo ((first_turn who).ops.before ++ (((first_turn who).ops.journal ∷ []) ++ lock_removals)) s × (n_of s ≡ 0) × (acknowledged_of s ≡ 0) × (s.doing ≡ Idle (Some []) []) }
{
    first_commit();
    stands_for_one();
}

/// So is an import of one record: one transaction is published by it, and with the journal made and nothing else it may be
/// undone, or break off with its journal left.
pub fn first_import_as_a_log()
    ensures turn { (who : List ℕ) → IsTurn bare empty_repo (import_turn who) }
    ensures legal { (who : List ℕ) → IsLegal bare (operations (import_turn who).ops) }
    ensures whole { (who : List ℕ) → (s : State) × IsRun bare empty_repo (operations (import_turn who).ops) s × (n_of s ≡ 1) × (w_of s ≡ 1) × (b_of s ≡ 1) × (acknowledged_of s ≡ 1) }
    ensures undone { (who : List ℕ) → (s : State) × IsRun bare empty_repo ((import_turn who).ops.before ++ (((import_turn who).ops.journal ∷ []) ++ ((import_turn who).ops.undo ++ removals))) s × (n_of s ≡ 0) × (s.doing ≡ Idle None []) }
    ensures broken { (who : List ℕ) → (s : State) × IsRun bare empty_repo ((import_turn who).ops.before ++ (((import_turn who).ops.journal ∷ []) ++ lock_removals)) s × (n_of s ≡ 0) × (acknowledged_of s ≡ 0) × (s.doing ≡ Idle (Some []) []) }
{
    first_commit();
    first_import();
    stands_for_one();
}

/// A store with nothing in it lists only paths, and a test for clashes finds nothing of a first commit there, so that this needs
/// no other test. The tree behind the commit lists its path, and only paths.
pub fn first_commit_keeps_its_list()
    ensures start { ListsPaths bare empty_repo }
    ensures free { NothingClashes bare empty_repo one_draft }
    ensures bytes { (path : List ℕ) → uses one_draft.changesets path ≡ true → IsBytes path }
    ensures listed { (names : List (List ℕ)) → names_of (bytes_at bare fncache_path) ≡ Ok names → (name path : List ℕ) (ext : Ext) → among name names ≡ true → among path (new_paths empty_repo one_draft) ≡ true → listed_file name ≡ store_name path ext → listed_name path ext ≡ name }
    ensures ends { (who : List ℕ) → ListsPaths (after_first who) one_draft }
    ensures there { (who : List ℕ) (names : List (List ℕ)) → names_of (bytes_at (after_first who) fncache_path) ≡ Ok names → lists names (codes "a") I ≡ true }
{
    first_commit();
    first_commit_as_a_log();
    files_of_standing_trees();
    new_repositories_list_paths();
    writers_keep_lists();
    listed_paths_need_no_test();
}

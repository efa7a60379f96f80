//! What writers keep of the list of filelogs. Each function is one law; none does anything but to call laws that it rests on.
ghost use Rattle.std.specs.Prelude.{◌≡◌, ◌⊎◌, [], List, Ok, true, ℕ};
ghost use Rattle.std.specs.List.{AllByRecursion};
ghost use Rattle.hex.specs.Hex.{IsBytes};
ghost use Rattle.hgs_bytes.specs.Bytes.{IsPrefixOf, among};
ghost use Rattle.hgs_files.specs.declared.op.Op.{Op};
ghost use Rattle.hgs_files.specs.Log.{IsDone};
ghost use Rattle.hgs_files.specs.Stop.{StopLeaves};
ghost use Rattle.hgs_files.specs.Tree.{Tree, after_all, bytes_at};
ghost use Rattle.hgs_journal.specs.declared.backups.BackupLine.{BackupLine};
ghost use Rattle.hgs_journal.specs.declared.journal.JournalLine.{JournalLine};
ghost use Rattle.hgs_journal.specs.Begun.{LeadsBack};
ghost use Rattle.hgs_journal.specs.Covers.{Covers, Restores, undo_ops};
ghost use Rattle.hgs_model.specs.declared.command.Command.TheVariants.{Commit};
ghost use Rattle.hgs_model.specs.declared.command.NewChange.{NewChange};
ghost use Rattle.hgs_model.specs.History.{uses};
ghost use Rattle.hgs_model.specs.Repo.{Repo, empty_repo};
ghost use Rattle.hgs_model.specs.Step.{Answer, step};
ghost use Rattle.hgs_model.specs.Valid.{IsNewChange, new_paths as paths_of_files};
ghost use Rattle.hgs_path.specs.declared.name.Ext.{Ext};
ghost use Rattle.hgs_path.specs.ListedNames.{listed_file, names_of};
ghost use Rattle.hgs_path.specs.StoreName.{listed_name, store_name};
ghost use Rattle.hgs_stands.specs.Open.{IsOpen};
ghost use Rattle.hgs_stands.specs.Places.{fncache_path, store_files};
ghost use Rattle.hgs_stands.specs.Stands.{Stands};
ghost use Rattle.hgs_ops.specs.Growth.{new_paths};
ghost use Rattle.hgs_ops.specs.Laid.{laid};
ghost use Rattle.hgs_ops.specs.Operations.{strays};
ghost use Rattle.hgs_ops.specs.Unhindered.{IsReady};
ghost use Rattle.hgs_legal.specs.LegalLog.{IsRun, State};
ghost use Rattle.hgs_legal.specs.Numbers.{repo_at};
ghost use Rattle.hgs_legal.specs.Pieces.{LeavesJournal, Piece};
ghost use Rattle.hgs_legal.specs.ListsPaths.{IsKeptName, ListsPaths};
ghost use Rattle.hgs_legal.specs.NothingClashes.{NothingClashes};

use crate::laws::{numbers_rise, repositories_go_on, stops_are_safe};
use hgs_journal::laws::undo_may_stop;
use hgs_ops::laws::{files_only_grow, records_laid_append_and_change_roots, strays_are_apart};
use hgs_stands::laws::{files_of_standing_trees, open_trees_lead_back, stands_for_one};

/// A list of filelogs with nothing in it has only names of paths: so it is in a repository that was just made.
pub fn new_repositories_list_paths()
    ensures empty { (t : Tree) (r : Repo) → bytes_at t fncache_path ≡ [] → ListsPaths t r }
    ensures new { (t : Tree) → AllByRecursion (λ path. bytes_at t path ≡ []) store_files → ListsPaths t empty_repo }
{}

/// Of a list that is read it says that each of its names is one, and the other way round.
pub fn names_of_listed_paths()
    ensures names { (t : Tree) (r : Repo) (names : List (List ℕ)) → names_of (bytes_at t fncache_path) ≡ Ok names → ListsPaths t r → AllByRecursion (IsKeptName r.changesets) names }
    ensures lists { (t : Tree) (r : Repo) (names : List (List ℕ)) → names_of (bytes_at t fncache_path) ≡ Ok names → AllByRecursion (IsKeptName r.changesets) names → ListsPaths t r }
{}

/// It holds of each tree whose list is a front of such a list, so of one with the same list; and of a repository with fewer
/// changesets.
pub fn fronts_list_paths()
    ensures front { (t u : Tree) (r : Repo) → IsPrefixOf (bytes_at u fncache_path) (bytes_at t fncache_path) → ListsPaths t r → ListsPaths u r }
    ensures same { (t u : Tree) (r : Repo) → bytes_at u fncache_path ≡ bytes_at t fncache_path → ListsPaths t r → ListsPaths u r }
    ensures earlier { (t : Tree) (r earlier : Repo) → IsPrefixOf earlier.changesets r.changesets → ListsPaths t r → ListsPaths t earlier }
{}

/// What writers do keeps it from a tree that stands: wherever their log ends or is stopped, also within a transaction or
/// while one is undone, it holds with each repository up to the last one, and so with the one for which the tree stands or is
/// open.
pub fn writers_keep_lists()
    ensures runs { (t : Tree) (r : Repo) (log : List Op) (s : State) (i : ℕ) → Stands t r → ListsPaths t r → IsRun t r log s → ListsPaths (after_all log t) (repo_at s i) }
    ensures ends { (t : Tree) (r next : Repo) (log : List Op) (s : State) → Stands t r → ListsPaths t r → IsRun t r log s → Stands (after_all log t) next ⊎ IsOpen strays (after_all log t) next → ListsPaths (after_all log t) next }
    ensures stops { (t : Tree) (r next : Repo) (log : List Op) (s : State) (u : Tree) → Stands t r → ListsPaths t r → IsRun t r log s → StopLeaves t log u → Stands u next ⊎ IsOpen strays u next → ListsPaths u next }
{
    stops_are_safe();
    numbers_rise();
    repositories_go_on();
    stands_for_one();
    files_of_standing_trees();
    open_trees_lead_back();
    strays_are_apart();
}

/// So does each piece of such a log by itself, with the repository to which it leads; and one that leaves its journal, with
/// the repository before.
pub fn pieces_keep_lists()
    ensures piece { (t : Tree) (r next : Repo) (log : List Op) → Stands t r → ListsPaths t r → Piece t r log next → ListsPaths (after_all log t) next }
    ensures left { (t : Tree) (r : Repo) (log : List Op) → Stands t r → ListsPaths t r → LeavesJournal t r log → ListsPaths (after_all log t) r }
{}

/// So does a commit that is laid into a tree at once, as each record of an import is into the tree into which those before it are.
pub fn laid_commits_keep_lists()
    ensures { (t : Tree) (r next : Repo) (n : NewChange) (answer : Answer) → Stands t r → ListsPaths t r → IsNewChange n → step r (Commit n) ≡ Ok (next, answer) → IsReady t r (Commit n) next → ListsPaths (after_all (laid t r n next) t) next }
{
    records_laid_append_and_change_roots();
}

/// Where it holds of a tree that is open, it holds of the one to which that leads back; and of each that recovering leaves,
/// in whatever parts its operations are done.
pub fn recoveries_keep_lists()
    ensures covered { (u q : Tree) (r : Repo) → Covers strays u q → ListsPaths u r → ListsPaths q r }
    ensures parts { (u q : Tree) (r : Repo) (journal : List JournalLine) (backups : List BackupLine) (done left : List Op) → LeadsBack strays journal backups u q → IsDone (undo_ops u journal backups) done left → ListsPaths u r → ListsPaths (after_all done u) r }
    ensures restored { (u q : Tree) (r : Repo) → Restores strays u q → ListsPaths q r → ListsPaths u r }
{
    files_only_grow();
    undo_may_stop();
    strays_are_apart();
}

/// What a commit needs of a tree that nothing tests is there, where its paths are bytes and a test for clashes found nothing:
/// each path that is used before or behind it is bytes, and a listed name of a file of a path of its tree is that path's.
pub fn listed_paths_need_no_test()
    ensures used { (t : Tree) (r : Repo) → Stands t r → ListsPaths t r → (path : List ℕ) → uses r.changesets path ≡ true → IsBytes path }
    ensures bytes { (t : Tree) (r next : Repo) (n : NewChange) (answer : Answer) → Stands t r → ListsPaths t r → step r (Commit n) ≡ Ok (next, answer) → AllByRecursion IsBytes (paths_of_files n.files) → (path : List ℕ) → uses next.changesets path ≡ true → IsBytes path }
    ensures listed { (t : Tree) (r next : Repo) → ListsPaths t r → NothingClashes t r next → (names : List (List ℕ)) → names_of (bytes_at t fncache_path) ≡ Ok names → (name path : List ℕ) (ext : Ext) → among name names ≡ true → among path (new_paths r next) ≡ true → listed_file name ≡ store_name path ext → listed_name path ext ≡ name }
{}

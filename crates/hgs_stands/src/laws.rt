//! What the definitions of this crate imply. Each function is one law; none does anything but to call laws that it rests on.
ghost use Rattle.std.specs.Prelude.{◌≡◌, true, false, ℕ, List, [], None, Ok, Some, map, slice_get, slice_index_or};
ghost use Rattle.std.specs.List.{AllByRecursion};
ghost use Rattle.hgs_bytes.specs.Bytes.{among, same};
ghost use Rattle.hgs_index.specs.Revlog.{all_different};
ghost use Rattle.hgs_files.specs.Tree.{Tree, after_all, bytes_at};
ghost use Rattle.hgs_index.specs.declared.entry.Entry.{Entry};
ghost use Rattle.hgs_index.specs.Node.{null_node};
ghost use Rattle.hgs_index.specs.Revision.{Revision, nodes};
ghost use Rattle.hgs_journal.specs.declared.backups.BackupLine.{BackupLine};
ghost use Rattle.hgs_journal.specs.declared.journal.JournalLine.{JournalLine};
ghost use Rattle.hgs_journal.specs.Covers.{HasOwnStrays, ReadsAs, Restores, is_loose, own_strays, undo_ops};
ghost use Rattle.hgs_journal.specs.Names.{journal_path, locks};
ghost use Rattle.hgs_model.specs.History.{EachChangeset, changeset_nodes, no_history, parents_in, uses};
ghost use Rattle.hgs_model.specs.IsRepo.{IsNextChangeset, IsRepo};
ghost use Rattle.hgs_model.specs.Phase.{phase_number};
ghost use Rattle.hgs_model.specs.Repo.{Repo, Changeset, all_parents, empty_repo};
ghost use Rattle.hgs_path.specs.declared.name.Ext.{Ext};
ghost use Rattle.hgs_path.specs.declared.name.Ext.TheVariants.{I, D};
ghost use Rattle.hgs_path.specs.Fncache.{lists};
ghost use Rattle.hgs_path.specs.ListedNames.{is_listed, names_of};
ghost use Rattle.hgs_path.specs.StoreName.{listed_name, store_name};
ghost use Rattle.hgs_phases.specs.declared.roots.Root.{Root};
ghost use Rattle.hgs_phases.specs.Phases.{history_of, phases_by};
ghost use Rattle.hgs_revlog.specs.Log.{nodes_of};
ghost use Rattle.hgs_stands.specs.Committed.{IsCommitted};
ghost use Rattle.hgs_stands.specs.Open.{IsOpen};
ghost use Rattle.hgs_stands.specs.Places.{fncache_path, own_files, requires_path, store_files};
ghost use Rattle.hgs_stands.specs.Requires.{IsInProfile};
ghost use Rattle.hgs_stands.specs.Same.{AreStrays, SameFiles, SameList, SameRevlogs, is_stray};
ghost use Rattle.hgs_stands.specs.Shows.{BeginsChangesets, Shows};
ghost use Rattle.hgs_stands.specs.Stands.{HasBookmarks, HasDirstate, HasPhases, HoldsChangesets, IsUsedName, ListsFilelogs, Stands, changeset_entries, entries_of, has_file, listed_file};

use hgs_index::laws::{either_form_holds, nodes_are_counted, nodes_have_places};
use hgs_index::texts::{change_prints_then_reads, manifest_prints_then_reads};
use hgs_model::history_laws::{
    changesets_are_held, nodes_name_revisions, revisions_stay, used_paths_have_revisions,
};
use hgs_model::laws::changelog_is_whole;
use hgs_path::laws::{filelogs_have_their_own_names, listed_names_name_files};
use hgs_phases::laws::phases_of_nodes_and_parents;

/// A tree stands for at most one repository.
pub fn stands_for_one()
    ensures { (t : Tree) (r s : Repo) → Stands t r → Stands t s → r ≡ s }
{
    either_form_holds();
    nodes_are_counted();
    nodes_have_places();
    change_prints_then_reads();
    manifest_prints_then_reads();
    changesets_are_held();
    revisions_stay();
    nodes_name_revisions();
    used_paths_have_revisions();
    changelog_is_whole();
}

/// Each part says one thing: the revlogs hold one list of changesets, and over the same changesets, whose nodes differ,
/// the small files have one list of phases, one of bookmarks, and one pair of working parents, where no node is null.
pub fn parts_say_one()
    ensures changesets { (t : Tree) (changesets others : List Changeset) → EachChangeset IsNextChangeset no_history changesets → EachChangeset IsNextChangeset no_history others → HoldsChangesets t changesets → HoldsChangesets t others → changesets ≡ others }
    ensures phases { (t : Tree) (r s : Repo) → r.changesets ≡ s.changesets → HasPhases t r → HasPhases t s → r.phases ≡ s.phases }
    ensures bookmarks { (t : Tree) (r s : Repo) → IsRepo r → IsRepo s → r.changesets ≡ s.changesets → all_different (changeset_nodes r.changesets) ≡ true → HasBookmarks t r → HasBookmarks t s → r.bookmarks ≡ s.bookmarks }
    ensures working { (t : Tree) (r s : Repo) → IsRepo r → IsRepo s → r.changesets ≡ s.changesets → all_different (changeset_nodes r.changesets) ≡ true → among null_node (changeset_nodes r.changesets) ≡ false → HasDirstate t r → HasDirstate t s → r.working ≡ s.working }
{
    either_form_holds();
    nodes_are_counted();
    nodes_have_places();
    change_prints_then_reads();
    manifest_prints_then_reads();
    changesets_are_held();
    revisions_stay();
    nodes_name_revisions();
    used_paths_have_revisions();
    changelog_is_whole();
}

/// Of each changeset the files have the text, the manifest that this names, and there each file with its committed bytes.
pub fn committed_bytes()
    ensures { (t : Tree) (r : Repo) (rev : ℕ) (c : Changeset) → Stands t r → slice_get r.changesets rev ≡ Some c → IsCommitted t rev (slice_index_or (changeset_nodes r.changesets) rev null_node) c }
{
    changesets_are_held();
    revisions_stay();
    nodes_name_revisions();
    used_paths_have_revisions();
    changelog_is_whole();
}

/// A tree that stands for a repository shows it.
pub fn standing_trees_show()
    ensures revlogs { (t : Tree) (changesets : List Changeset) → EachChangeset IsNextChangeset no_history changesets → HoldsChangesets t changesets → BeginsChangesets t changesets }
    ensures whole { (t : Tree) (r : Repo) → Stands t r → Shows t r r r }
{
    either_form_holds();
    nodes_are_counted();
    nodes_have_places();
    change_prints_then_reads();
    manifest_prints_then_reads();
    changesets_are_held();
    revisions_stay();
    nodes_name_revisions();
    used_paths_have_revisions();
    changelog_is_whole();
}

/// The phases are those that the roots give to any index entries that have the nodes and the parents of the changesets.
pub fn phases_of_entries()
    ensures { (t : Tree) (r : Repo) (entries : List Entry) (has : HasPhases t r) → IsRepo r → nodes_of entries ≡ changeset_nodes r.changesets → history_of entries ≡ all_parents r.changesets → map phase_number (phases_by has.roots entries) ≡ r.phases }
{
    changesets_are_held();
    revisions_stay();
    nodes_name_revisions();
    used_paths_have_revisions();
    changelog_is_whole();
    phases_of_nodes_and_parents();
}

/// Two used paths have no file of one name, no file has bytes that the list names and no used path has, and no tree that
/// stands is open.
pub fn files_of_standing_trees()
    ensures apart { (t : Tree) (r : Repo) (path other : List ℕ) (ext : Ext) → Stands t r → uses r.changesets path ≡ true → uses r.changesets other ≡ true → same path other ≡ false → same (store_name path ext) (store_name other ext) ≡ false }
    ensures used { (t : Tree) (r : Repo) (names : List (List ℕ)) (name : List ℕ) → Stands t r → names_of (bytes_at t fncache_path) ≡ Ok names → among name names ≡ true → IsUsedName t r.changesets name }
    ensures listed { (t : Tree) (r : Repo) (names : List (List ℕ)) (path : List ℕ) (ext : Ext) → Stands t r → names_of (bytes_at t fncache_path) ≡ Ok names → uses r.changesets path ≡ true → has_file t path ext ≡ true → lists names path ext ≡ true }
    ensures not_open { (strays : List (List ℕ)) (t : Tree) (r s : Repo) → Stands t r → IsOpen strays t s → ⊥ }
{}

/// The entries that are written of revisions have their nodes and parents; what roots give to those of the changesets they
/// give to any entries with the nodes and the parents of these.
pub fn entries_of_changesets()
    ensures nodes { (revisions : List Revision) → nodes_of (entries_of revisions) ≡ nodes revisions }
    ensures parents { (revisions : List Revision) → history_of (entries_of revisions) ≡ parents_in revisions }
    ensures phases { (r : Repo) (entries : List Entry) (roots : List Root) (phases : List ℕ) → IsRepo r → nodes_of entries ≡ changeset_nodes r.changesets → history_of entries ≡ all_parents r.changesets → map phase_number (phases_by roots (changeset_entries r.changesets)) ≡ phases → map phase_number (phases_by roots entries) ≡ phases }
{
    changesets_are_held();
    revisions_stay();
    nodes_name_revisions();
    used_paths_have_revisions();
    changelog_is_whole();
    phases_of_nodes_and_parents();
}

/// Where nothing but `requires` stands, the tree stands for the repository with nothing in it.
pub fn requires_alone()
    ensures { (t : Tree) → IsInProfile t → AllByRecursion (λ path. bytes_at t path ≡ []) store_files → t journal_path ≡ None → Stands t empty_repo }
{}

/// Locks, what a transaction left behind and all other files do not matter: what stands in a tree stands in each that
/// agrees in the files of the repository, and so does each part of it.
pub fn other_files_do_not_matter()
    ensures revlogs { (t u : Tree) (changesets : List Changeset) → SameRevlogs t u changesets → HoldsChangesets t changesets → HoldsChangesets u changesets }
    ensures list { (t u : Tree) (changesets : List Changeset) → SameRevlogs t u changesets → SameList t u → ListsFilelogs t changesets → ListsFilelogs u changesets }
    ensures whole { (t u : Tree) (r : Repo) → SameFiles t u r → Stands t r → Stands u r }
    ensures loose { (strays : List (List ℕ)) (t u : Tree) (r : Repo) → AreStrays strays → ((path : List ℕ) → is_loose strays path ≡ false → u path ≡ t path) → Stands t r → Stands u r }
{
    filelogs_have_their_own_names();
    listed_names_name_files();
}

/// No file that a repository stands on is a lock or a stray; so two trees that have the same bytes but in these, the same
/// `requires`, and in the second no journal, agree in all files of a repository.
pub fn files_are_not_loose()
    ensures own { (strays : List (List ℕ)) (path : List ℕ) → AreStrays strays → among path locks ≡ false → is_stray path ≡ false → is_loose strays path ≡ false }
    ensures filelogs { (strays : List (List ℕ)) (path : List ℕ) (ext : Ext) → AreStrays strays → is_loose strays (store_name path ext) ≡ false }
    ensures listed { (strays : List (List ℕ)) (name : List ℕ) → AreStrays strays → is_listed name ≡ true → is_loose strays (listed_file name) ≡ false }
    ensures agree { (strays : List (List ℕ)) (t u : Tree) (r : Repo) → AreStrays strays → u requires_path ≡ t requires_path → ((path : List ℕ) → is_loose strays path ≡ false → bytes_at u path ≡ bytes_at t path) → u journal_path ≡ None → SameFiles t u r }
{
    filelogs_have_their_own_names();
    listed_names_name_files();
}

/// No file of a filelog, and none of a name in the list, is another file of a repository; no index is the chunks of a
/// filelog; each path's listed name can stand in the list, and its file is the path's.
pub fn filelogs_stand_apart()
    ensures own { (path : List ℕ) (ext : Ext) → among (store_name path ext) own_files ≡ false }
    ensures listed { (name : List ℕ) → is_listed name ≡ true → among (listed_file name) own_files ≡ false }
    ensures kinds { (path other : List ℕ) → same (store_name path I) (store_name other D) ≡ false }
    ensures name { (path : List ℕ) (ext : Ext) → is_listed (listed_name path ext) ≡ true }
    ensures file { (path : List ℕ) (ext : Ext) → listed_file (listed_name path ext) ≡ store_name path ext }
{
    filelogs_have_their_own_names();
    listed_names_name_files();
}

/// A tree whose files are restored to those of one that stands, locks, what a transaction left behind and empty files
/// aside, stands too; so the operations that undo an open transaction lead to a tree that stands for the repository before
/// it, and a tree is open for at most one repository.
pub fn open_trees_lead_back()
    ensures restored { (strays : List (List ℕ)) (u q : Tree) (r : Repo) → AreStrays strays → Restores strays u q → Stands q r → Stands u r }
    ensures undone { (strays : List (List ℕ)) (t : Tree) (r : Repo) (journal : List JournalLine) (backups : List BackupLine) → HasOwnStrays strays → AreStrays strays → IsOpen strays t r → ReadsAs t journal backups → Stands (after_all (undo_ops t journal backups) t) r }
    ensures one { (strays : List (List ℕ)) (t : Tree) (r s : Repo) → HasOwnStrays strays → AreStrays strays → IsOpen strays t r → IsOpen strays t s → r ≡ s }
    ensures own { AreStrays own_strays }
{
    either_form_holds();
    nodes_are_counted();
    nodes_have_places();
    change_prints_then_reads();
    manifest_prints_then_reads();
    changesets_are_held();
    revisions_stay();
    nodes_name_revisions();
    used_paths_have_revisions();
    changelog_is_whole();
    filelogs_have_their_own_names();
    listed_names_name_files();
}

//! What the definitions of this crate imply. Each function is one law; none does anything.
ghost use Rattle.std.specs.Prelude.{◌≡◌, ◌⊎◌, ◌++◌, ◌∷◌, [], Bool, List, length, ℕ, Ok, Some, codes, false, flat_map, suc, true, if◌then◌else◌};
ghost use Rattle.hgs_bytes.specs.Bytes.{IsPrefixOf, among, same};
ghost use Rattle.hgs_files.specs.declared.op.Op.{Op};
ghost use Rattle.hgs_files.specs.Log.{IsDone};
ghost use Rattle.hgs_files.specs.Tree.{Tree, after_all, apply, bytes_at};
ghost use Rattle.hgs_journal.specs.Covers.{Covers, HasOwnStrays, Restores, is_loose, journal_paths, no_repeat};
ghost use Rattle.hgs_journal.specs.Names.{journal_path};
ghost use Rattle.hgs_model.specs.declared.command.Command.{Command};
ghost use Rattle.hgs_model.specs.History.{history, in_order};
ghost use Rattle.hgs_model.specs.IsRepo.{IsRepo};
ghost use Rattle.hgs_model.specs.Repo.{Repo};
ghost use Rattle.hgs_model.specs.Step.{Answer, sets_bookmark, step};
ghost use Rattle.hgs_model.specs.Valid.{IsNewChange, IsValid, new_paths as paths_of_files};
ghost use Rattle.hgs_model.specs.declared.command.Command.TheVariants.{Commit, Import, Mark, Move, Unmark};
ghost use Rattle.hgs_model.specs.declared.command.NewChange.{NewChange};
ghost use Rattle.hgs_model.specs.declared.phase.Phase.{Phase};
ghost use Rattle.hgs_path.specs.declared.name.Ext.{Ext};
ghost use Rattle.hgs_path.specs.StoreName.{store_name};
ghost use Rattle.hgs_stands.specs.Open.{IsOpen};
ghost use Rattle.hgs_stands.specs.Places.{bookmarks_path, changelog_index, dirstate_path, roots_path};
ghost use Rattle.hgs_stands.specs.Same.{AreStrays};
ghost use Rattle.hgs_stands.specs.Shows.{Shows};
ghost use Rattle.hgs_stands.specs.Stands.{IsClean, Stands};
ghost use Rattle.hgs_power.specs.Course.{AllWithin, IsCourse, IsOpenFor};
ghost use Rattle.hgs_power.specs.Disk.{Disk, Leaves, at_rest, tree_now};
ghost use Rattle.hgs_power.specs.Held.{IsOrderly, IsQuiet};
ghost use Rattle.hgs_power.specs.Transaction.{IsTransaction, ops_to_removal, parts_of};
ghost use Rattle.hgs_ops.specs.PowerCourses.{AreCalls, Call, parts_of_calls};
ghost use Rattle.hgs_ops.specs.PowerSteps.{power_locks, power_steps, resting_at};
ghost use Rattle.hgs_ops.specs.Growth.{IsRevlogFile, appended, growth, growth_of, new_changelog_entry, new_names_of, new_paths};
ghost use Rattle.hgs_ops.specs.Laid.{AreLaid, Record, appended_by, changes_of, changes_roots, laid, names_with, repo_behind, tree_behind};
ghost use Rattle.hgs_ops.specs.Operations.{appending, changes_before, journal_lines, journal_of, journalled, new_changelog_path, operations, publishing, removals, strays, transaction_of};
ghost use Rattle.hgs_ops.specs.Replaced.{new_bookmarks, new_dirstate, roots_change, roots_of};
ghost use Rattle.hgs_ops.specs.Shown.{lacks_bookmarks, lacks_dirstate};
ghost use Rattle.hgs_ops.specs.Stops.{IsBetween};
ghost use Rattle.hgs_ops.specs.Unhindered.{IsReady, IsUnhindered};

use hgs_journal::laws::{
    journals_begin, transactions_stay_covered, undo_leads_back as journal_undo_leads_back,
    undo_may_stop,
};
use hgs_model::answers::imports_are_commits;
use hgs_stands::laws::{open_trees_lead_back, other_files_do_not_matter};

/// What a transaction may leave behind is no file that a repository stands on, and all that undoing needs is of it. Nor does
/// it matter to what a tree shows.
pub fn strays_are_apart()
    ensures own { HasOwnStrays strays }
    ensures strays { AreStrays strays }
    ensures shown { (t u : Tree) (marked worked r : Repo) → ((path : List ℕ) → is_loose strays path ≡ false → u path ≡ t path) → Shows t marked worked r → Shows u marked worked r }
{}

/// An accepted command keeps the changesets that there are; a commit adds one behind them, an import one for each record.
pub fn steps_go_on()
    ensures { (r next : Repo) (command : Command) (answer : Answer) → IsRepo r → IsValid command → step r command ≡ Ok (next, answer) → IsPrefixOf r.changesets next.changesets }
{}

/// From a tree that stands for a repository, the operations of a bookmark command that is accepted lead to a tree that
/// stands for the next repository, without locks.
pub fn bookmark_commands_lead()
    ensures set { (t : Tree) (r next : Repo) (mark rev who : List ℕ) (answer : Answer) → Stands t r → IsValid (Mark mark rev) → step r (Mark mark rev) ≡ Ok (next, answer) → IsClean (after_all (operations (transaction_of t r (Mark mark rev) who next)) t) next }
    ensures deleted { (t : Tree) (r next : Repo) (mark who : List ℕ) (answer : Answer) → Stands t r → step r (Unmark mark) ≡ Ok (next, answer) → IsClean (after_all (operations (transaction_of t r (Unmark mark) who next)) t) next }
{}

/// So do those of a phase command.
pub fn phase_commands_lead()
    ensures { (t : Tree) (r next : Repo) (rev : List ℕ) (phase : Phase) (force : Bool) (who : List ℕ) (answer : Answer) → Stands t r → step r (Move rev phase force) ≡ Ok (next, answer) → IsClean (after_all (operations (transaction_of t r (Move rev phase force) who next)) t) next }
{}

/// So do those of a commit, with and without new filelogs, where nothing is in its way.
pub fn commits_lead()
    ensures { (t : Tree) (r next : Repo) (n : NewChange) (who : List ℕ) (answer : Answer) → Stands t r → IsNewChange n → step r (Commit n) ≡ Ok (next, answer) → IsUnhindered t r next → IsClean (after_all (operations (transaction_of t r (Commit n) who next)) t) next }
{}

/// So do those of an import, which publishes all its changesets at once.
pub fn imports_lead()
    ensures { (t : Tree) (r next : Repo) (changes : List NewChange) (who : List ℕ) (answer : Answer) → Stands t r → IsValid (Import changes) → step r (Import changes) ≡ Ok (next, answer) → IsUnhindered t r next → IsClean (after_all (operations (transaction_of t r (Import changes) who next)) t) next }
{}

/// From a tree that stands for a repository, the operations of any command that is accepted, where nothing is in its way,
/// lead to a tree that stands for the next repository, without locks.
pub fn transactions_lead()
    ensures { (t : Tree) (r next : Repo) (command : Command) (who : List ℕ) (answer : Answer) → Stands t r → IsValid command → step r command ≡ Ok (next, answer) → IsReady t r command next → IsClean (after_all (operations (transaction_of t r command who next)) t) next }
{}

/// The journal of a transaction names each file once.
pub fn journals_name_once()
    ensures { (t : Tree) (r next : Repo) (command : Command) → IsReady t r command next → no_repeat (journal_paths (journal_of t r command next)) ≡ true }
{}

/// Whatever part of the operations before the journal is done, the tree stands for the repository. Once the journal has its
/// name, through every part of the changes, the publishing operation and the renames, it is open for it. Behind the journal's
/// removal it stands for the next one.
pub fn transactions_stay_open()
    ensures before { (t : Tree) (r next : Repo) (command : Command) (who : List ℕ) → Stands t r → IsReady t r command next → (done left : List Op) → IsDone (transaction_of t r command who next).before done left → Stands (after_all done t) r }
    ensures kept { (t : Tree) (r next : Repo) (command : Command) (who : List ℕ) → Stands t r → IsReady t r command next → (done left : List Op) → IsDone ((transaction_of t r command who next).changes ++ (transaction_of t r command who next).publish ∷ (transaction_of t r command who next).renames) done left → IsOpen strays (after_all done (apply (transaction_of t r command who next).journal (after_all (transaction_of t r command who next).before t))) r }
    ensures removed { (t : Tree) (r next : Repo) (command : Command) (who : List ℕ) (answer : Answer) → Stands t r → IsValid command → step r command ≡ Ok (next, answer) → IsReady t r command next → (done left : List Op) → IsDone removals done left → Stands (after_all done (apply (Op.Remove journal_path) (after_all ((transaction_of t r command who next).changes ++ (transaction_of t r command who next).publish ∷ (transaction_of t r command who next).renames) (apply (transaction_of t r command who next).journal (after_all (transaction_of t r command who next).before t))))) next }
{
    journals_begin();
    transactions_stay_covered();
    journal_undo_leads_back();
    undo_may_stop();
    other_files_do_not_matter();
    open_trees_lead_back();
}

/// So wherever a transaction is stopped, and in whatever parts its operations are done, the tree stands for the repository
/// before or is open for it, or it stands for the next one.
pub fn transactions_may_stop()
    ensures { (t : Tree) (r next : Repo) (command : Command) (who : List ℕ) (answer : Answer) → Stands t r → IsValid command → step r command ≡ Ok (next, answer) → IsReady t r command next → (done left : List Op) → IsDone (operations (transaction_of t r command who next)) done left → IsBetween (after_all done t) r next }
{
    journals_begin();
    transactions_stay_covered();
    journal_undo_leads_back();
    undo_may_stop();
    other_files_do_not_matter();
    open_trees_lead_back();
}

/// And from wherever a writer breaks off, behind any part of the changes, its own list of undoing and the removals lead back
/// to a tree that stands for the repository before, without locks. Wherever that list is stopped the tree is still open for
/// it, or all of it is done and the tree stands for it.
pub fn undo_leads_back()
    ensures leads { (t : Tree) (r next : Repo) (command : Command) (who : List ℕ) → Stands t r → IsReady t r command next → (done left : List Op) → IsDone ((transaction_of t r command who next).changes ++ (transaction_of t r command who next).publish ∷ (transaction_of t r command who next).renames) done left → IsClean (after_all ((transaction_of t r command who next).undo ++ removals) (after_all done (apply (transaction_of t r command who next).journal (after_all (transaction_of t r command who next).before t)))) r }
    ensures stops { (t : Tree) (r next : Repo) (command : Command) (who : List ℕ) → Stands t r → IsReady t r command next → (done left : List Op) → IsDone ((transaction_of t r command who next).changes ++ (transaction_of t r command who next).publish ∷ (transaction_of t r command who next).renames) done left → (undone rest : List Op) → IsDone (transaction_of t r command who next).undo undone rest → IsOpen strays (after_all undone (after_all done (apply (transaction_of t r command who next).journal (after_all (transaction_of t r command who next).before t)))) r ⊎ ((rest ≡ []) × Stands (after_all undone (after_all done (apply (transaction_of t r command who next).journal (after_all (transaction_of t r command who next).before t)))) r) }
{
    journals_begin();
    transactions_stay_covered();
    journal_undo_leads_back();
    undo_may_stop();
    other_files_do_not_matter();
    open_trees_lead_back();
}

/// What readers see of a transaction: as long as something is left to do up to the publishing operation, and that with its
/// last byte, the tree shows the repository before, in whatever parts the operations are done. So it does while it is undone.
/// From the publishing operation to the journal's removal it shows the next one, but for the bookmarks and the working
/// parents whose renames are still to do: these are of the one before.
pub fn transactions_show()
    ensures working { (t : Tree) (r next : Repo) (command : Command) (who : List ℕ) (answer : Answer) → Stands t r → IsValid command → step r command ≡ Ok (next, answer) → IsReady t r command next → (done : List Op) (op : Op) (left : List Op) → IsDone ((transaction_of t r command who next).changes ++ (transaction_of t r command who next).publish ∷ []) done (op ∷ left) → Shows (after_all done (apply (transaction_of t r command who next).journal (after_all (transaction_of t r command who next).before t))) r r r }
    ensures undone { (t : Tree) (r next : Repo) (command : Command) (who : List ℕ) (answer : Answer) → Stands t r → IsValid command → step r command ≡ Ok (next, answer) → IsReady t r command next → (done : List Op) (op : Op) (left : List Op) → IsDone ((transaction_of t r command who next).changes ++ (transaction_of t r command who next).publish ∷ []) done (op ∷ left) → (undone rest : List Op) → IsDone (transaction_of t r command who next).undo undone rest → Shows (after_all undone (after_all done (apply (transaction_of t r command who next).journal (after_all (transaction_of t r command who next).before t)))) r r r }
    ensures settled { (t : Tree) (r next : Repo) (command : Command) (who : List ℕ) (answer : Answer) → Stands t r → IsValid command → step r command ≡ Ok (next, answer) → IsReady t r command next → (done : List Op) (op : Op) (left : List Op) → IsDone ((transaction_of t r command who next).renames ++ Op.Remove journal_path ∷ []) done (op ∷ left) → Shows (after_all done (after_all ((transaction_of t r command who next).changes ++ (transaction_of t r command who next).publish ∷ []) (apply (transaction_of t r command who next).journal (after_all (transaction_of t r command who next).before t)))) (if lacks_bookmarks (op ∷ left) then r else next) (if lacks_dirstate (op ∷ left) then r else next) next }
{
    journals_begin();
    transactions_stay_covered();
    journal_undo_leads_back();
    undo_may_stop();
    other_files_do_not_matter();
    open_trees_lead_back();
}

/// A commit is published by the last of 64 bytes: those of the changelog's new entry.
pub fn published_by_the_last_byte()
    ensures { (t : Tree) (r next : Repo) (n : NewChange) (answer : Answer) → Stands t r → IsNewChange n → step r (Commit n) ≡ Ok (next, answer) → IsReady t r (Commit n) next → length (new_changelog_entry t r next) ≡ 64 }
{}

/// An import is published by one rename, of a file that holds the changelog's index and all new entries, and that its
/// operations made; it has the journal of a commit that leads to the same repository, with a line for the index that the
/// rename takes the place of.
pub fn imports_are_published_by_a_rename()
    ensures publish { (t : Tree) (r next : Repo) (changes : List NewChange) (who : List ℕ) → (transaction_of t r (Import changes) who next).publish ≡ Op.Rename new_changelog_path changelog_index }
    ensures made { (t : Tree) (r next : Repo) (changes : List NewChange) (who : List ℕ) (u : Tree) → after_all (transaction_of t r (Import changes) who next).changes u new_changelog_path ≡ Some (bytes_at t changelog_index ++ new_changelog_entry t r next) }
    ensures journal { (t : Tree) (r next : Repo) (changes : List NewChange) (n : NewChange) → journal_of t r (Import changes) next ≡ journal_of t r (Commit n) next }
    ensures line { (t : Tree) (r next : Repo) (changes : List NewChange) → journal_of t r (Import changes) next ≡ journal_lines t (changes_before t r (Import changes) next) ++ record { name = codes "00changelog.i"; offset = length (bytes_at t changelog_index) } ∷ [] }
{}

/// An import of one record writes to each revlog what its commit writes; one of more writes what the commit of its first one
/// and then the import of the others write, and is not hindered, and ready, where these are. So the plans of its commits, each
/// in the tree that the one before leaves, are together its plan: it appends to each file of a revlog what they append,
/// joined, in the order of the paths. The order of new names in the list of filelogs alone may be another.
pub fn imports_write_what_commits_do()
    ensures unhindered { (t : Tree) (r mid next : Repo) (n : NewChange) (changes : List NewChange) (who : List ℕ) (one last : Answer) → Stands t r → IsNewChange n → IsValid (Import changes) → step r (Commit n) ≡ Ok (mid, one) → step mid (Import changes) ≡ Ok (next, last) → IsUnhindered t r mid → IsUnhindered (after_all (operations (transaction_of t r (Commit n) who mid)) t) mid next → IsUnhindered t r next }
    ensures ready { (t : Tree) (r mid next : Repo) (n : NewChange) (changes : List NewChange) (who : List ℕ) (one last : Answer) → Stands t r → IsNewChange n → IsValid (Import changes) → step r (Commit n) ≡ Ok (mid, one) → step mid (Import changes) ≡ Ok (next, last) → IsReady t r (Commit n) mid → IsReady (after_all (operations (transaction_of t r (Commit n) who mid)) t) mid (Import changes) next → IsReady t r (Import (n ∷ changes)) next }
    ensures bytes { (t : Tree) (r mid next : Repo) (n : NewChange) (changes : List NewChange) (who : List ℕ) (one last : Answer) → Stands t r → IsNewChange n → IsValid (Import changes) → step r (Commit n) ≡ Ok (mid, one) → step mid (Import changes) ≡ Ok (next, last) → IsUnhindered t r mid → IsUnhindered (after_all (operations (transaction_of t r (Commit n) who mid)) t) mid next → (path : List ℕ) → IsRevlogFile next path → bytes_at (after_all (operations (transaction_of t r (Import (n ∷ changes)) who next)) t) path ≡ bytes_at (after_all (operations (transaction_of (after_all (operations (transaction_of t r (Commit n) who mid)) t) mid (Import changes) who next)) (after_all (operations (transaction_of t r (Commit n) who mid)) t)) path }
    ensures one { (t : Tree) (r next : Repo) (n : NewChange) (who : List ℕ) (path : List ℕ) → IsRevlogFile next path → bytes_at (after_all (operations (transaction_of t r (Import (n ∷ [])) who next)) t) path ≡ bytes_at (after_all (operations (transaction_of t r (Commit n) who next)) t) path }
    ensures growth { (t : Tree) (r mid next : Repo) (n : NewChange) (changes : List NewChange) (who : List ℕ) (one last : Answer) → Stands t r → IsNewChange n → IsValid (Import changes) → step r (Commit n) ≡ Ok (mid, one) → step mid (Import changes) ≡ Ok (next, last) → IsUnhindered t r mid → IsUnhindered (after_all (operations (transaction_of t r (Commit n) who mid)) t) mid next → growth t r next ≡ growth_of (λ path. appended path (growth t r mid) ++ appended path (growth (after_all (operations (transaction_of t r (Commit n) who mid)) t) mid next)) r next }
    ensures entries { (t : Tree) (r mid next : Repo) (n : NewChange) (changes : List NewChange) (who : List ℕ) (one last : Answer) → Stands t r → IsNewChange n → IsValid (Import changes) → step r (Commit n) ≡ Ok (mid, one) → step mid (Import changes) ≡ Ok (next, last) → IsUnhindered t r mid → IsUnhindered (after_all (operations (transaction_of t r (Commit n) who mid)) t) mid next → new_changelog_entry t r next ≡ new_changelog_entry t r mid ++ new_changelog_entry (after_all (operations (transaction_of t r (Commit n) who mid)) t) mid next }
{}

/// While its journal stands a transaction's tree leads back to the very tree from which it began, and undoing
/// leads there, locks, strays and empty files aside.
pub fn transactions_cover_their_start()
    ensures kept { (t : Tree) (r next : Repo) (command : Command) (who : List ℕ) → Stands t r → IsReady t r command next → (done left : List Op) → IsDone ((transaction_of t r command who next).changes ++ (transaction_of t r command who next).publish ∷ (transaction_of t r command who next).renames) done left → Covers strays (after_all done (apply (transaction_of t r command who next).journal (after_all (transaction_of t r command who next).before t))) t }
    ensures undone { (t : Tree) (r next : Repo) (command : Command) (who : List ℕ) → Stands t r → IsReady t r command next → (done left : List Op) → IsDone ((transaction_of t r command who next).changes ++ (transaction_of t r command who next).publish ∷ (transaction_of t r command who next).renames) done left → (undone rest : List Op) → IsDone (transaction_of t r command who next).undo undone rest → Covers strays (after_all undone (after_all done (apply (transaction_of t r command who next).journal (after_all (transaction_of t r command who next).before t)))) t ⊎ ((rest ≡ []) × Restores strays (after_all undone (after_all done (apply (transaction_of t r command who next).journal (after_all (transaction_of t r command who next).before t)))) t) }
{
    journals_begin();
    transactions_stay_covered();
    journal_undo_leads_back();
    undo_may_stop();
    other_files_do_not_matter();
    open_trees_lead_back();
}

/// Files that a transaction does not replace only grow. A tree that leads back to another has at the front of each of them
/// what that one has there. Before the journal nothing but locks and strays is written, and behind the publishing operation
/// nothing but these, the journal and the files that are replaced.
pub fn files_only_grow()
    ensures covered { (u q : Tree) (path : List ℕ) → Covers strays u q → is_loose strays path ≡ false → same path journal_path ≡ false → among path (roots_path ∷ dirstate_path ∷ bookmarks_path ∷ []) ≡ false → IsPrefixOf (bytes_at q path) (bytes_at u path) }
    ensures before { (t u : Tree) (r next : Repo) (command : Command) (who : List ℕ) (done left : List Op) (path : List ℕ) → IsDone (transaction_of t r command who next).before done left → is_loose strays path ≡ false → after_all done u path ≡ u path }
    ensures behind { (t u : Tree) (r next : Repo) (command : Command) (who : List ℕ) (done left : List Op) (path : List ℕ) → IsDone ((transaction_of t r command who next).renames ++ Op.Remove journal_path ∷ []) done left → is_loose strays path ≡ false → same path journal_path ≡ false → among path (roots_path ∷ dirstate_path ∷ bookmarks_path ∷ []) ≡ false → after_all done u path ≡ u path }
{}

/// What a commit leaves, locks and strays aside, is what its appends and its replaced files leave that are laid into the tree at once, also where
/// that tree has other locks and strays.
pub fn commits_leave_what_they_lay()
    ensures { (t u : Tree) (r next : Repo) (n : NewChange) (who : List ℕ) (answer : Answer) → Stands t r → IsNewChange n → step r (Commit n) ≡ Ok (next, answer) → IsReady t r (Commit n) next → ((path : List ℕ) → is_loose strays path ≡ false → u path ≡ t path) → (path : List ℕ) → is_loose strays path ≡ false → after_all (laid u r n next) u path ≡ after_all (operations (transaction_of t r (Commit n) who next)) t path }
{}

/// Records each of which is accepted, and hindered by nothing, where what those before it leave is laid into the tree, are an
/// import that is accepted and hindered by nothing in the first tree: it appends to each file of a revlog what they append,
/// joined, enters their changesets in the changelog, and replaces the files that they replace, by the texts behind the last one.
pub fn records_laid_are_an_import()
    ensures accepted { (t : Tree) (r : Repo) (x : Record) (records : List Record) → Stands t r → IsValid (Import (changes_of (x ∷ records))) → AreLaid t r (x ∷ records) → (answer : Answer) × (step r (Import (changes_of (x ∷ records))) ≡ Ok (repo_behind r (x ∷ records), answer)) }
    ensures ready { (t : Tree) (r : Repo) (x : Record) (records : List Record) → Stands t r → IsValid (Import (changes_of (x ∷ records))) → AreLaid t r (x ∷ records) → IsReady t r (Import (changes_of (x ∷ records))) (repo_behind r (x ∷ records)) }
    ensures growth { (t : Tree) (r : Repo) (x : Record) (records : List Record) → Stands t r → IsValid (Import (changes_of (x ∷ records))) → AreLaid t r (x ∷ records) → growth t r (repo_behind r (x ∷ records)) ≡ growth_of (λ path. appended_by path t r (x ∷ records)) r (repo_behind r (x ∷ records)) }
    ensures entries { (t : Tree) (r : Repo) (x : Record) (records : List Record) → Stands t r → IsValid (Import (changes_of (x ∷ records))) → AreLaid t r (x ∷ records) → new_changelog_entry t r (repo_behind r (x ∷ records)) ≡ appended_by changelog_index t r (x ∷ records) }
    ensures roots { (t : Tree) (r : Repo) (x : Record) (records : List Record) → Stands t r → IsValid (Import (changes_of (x ∷ records))) → AreLaid t r (x ∷ records) → tree_behind t r (x ∷ records) roots_path ≡ (if roots_change r (repo_behind r (x ∷ records)) then Some (roots_of (repo_behind r (x ∷ records))) else t roots_path) }
    ensures dirstate { (t : Tree) (r : Repo) (x : Record) (records : List Record) → Stands t r → IsValid (Import (changes_of (x ∷ records))) → AreLaid t r (x ∷ records) → tree_behind t r (x ∷ records) dirstate_path ≡ Some (new_dirstate (repo_behind r (x ∷ records))).text }
    ensures bookmarks { (t : Tree) (r : Repo) (x : Record) (records : List Record) → Stands t r → IsValid (Import (changes_of (x ∷ records))) → AreLaid t r (x ∷ records) → tree_behind t r (x ∷ records) bookmarks_path ≡ (if sets_bookmark (changes_of (x ∷ records)) then Some (new_bookmarks (repo_behind r (x ∷ records))).text else t bookmarks_path) }
    ensures stands { (t : Tree) (r : Repo) (x : Record) (records : List Record) → Stands t r → IsValid (Import (changes_of (x ∷ records))) → AreLaid t r (x ∷ records) → Stands (tree_behind t r (x ∷ records)) (repo_behind r (x ∷ records)) }
{
    other_files_do_not_matter();
    imports_are_commits();
}

/// Records that are laid append to each file that none replaces what their commits append, joined; of the files of revlogs that is what the
/// import of them appends. Behind them the phase roots are others than before where one of them changes them.
pub fn records_laid_append_and_change_roots()
    ensures laid { (t : Tree) (r next : Repo) (n : NewChange) (path : List ℕ) → appended path (laid t r n next) ≡ appended path (appending t r next) }
    ensures bytes { (t : Tree) (r : Repo) (records : List Record) (path : List ℕ) → among path (roots_path ∷ dirstate_path ∷ bookmarks_path ∷ []) ≡ false → bytes_at (tree_behind t r records) path ≡ bytes_at t path ++ appended_by path t r records }
    ensures appends { (t : Tree) (r : Repo) (x : Record) (records : List Record) (path : List ℕ) → Stands t r → IsValid (Import (changes_of (x ∷ records))) → AreLaid t r (x ∷ records) → IsRevlogFile (repo_behind r (x ∷ records)) path → appended path (appending t r (repo_behind r (x ∷ records))) ≡ appended_by path t r (x ∷ records) }
    ensures roots { (t : Tree) (r : Repo) (records : List Record) → Stands t r → AreLaid t r records → roots_change r (repo_behind r records) ≡ changes_roots r records }
{
    other_files_do_not_matter();
    imports_are_commits();
}

/// The new changesets of records that are laid have the paths of their files, and a filelog of these is listed, by the names of the files that it
/// then has, where its index had no bytes.
pub fn records_laid_name_new_filelogs()
    ensures paths { (t : Tree) (r : Repo) (records : List Record) → IsRepo r → AreLaid t r records → new_paths r (repo_behind r records) ≡ in_order (flat_map (λ (n : NewChange). paths_of_files n.files) (changes_of records)) }
    ensures names { (t : Tree) (r : Repo) (x : Record) (records : List Record) (path : List ℕ) → Stands t r → IsValid (Import (changes_of (x ∷ records))) → AreLaid t r (x ∷ records) → among path (new_paths r (repo_behind r (x ∷ records))) ≡ true →
        new_names_of path ((history r.changesets).filelog path) ((history (repo_behind r (x ∷ records)).changesets).filelog path) ≡ names_with path (bytes_at t (store_name path Ext.I)) (appended_by (store_name path Ext.I) t r (x ∷ records)) (appended_by (store_name path Ext.D) t r (x ∷ records)) }
{
    other_files_do_not_matter();
    imports_are_commits();
}

/// What stands in locks and strays keeps no command from being done, and changes none of the operations on other files, nor what a commit that is laid
/// leaves of these.
pub fn strays_hinder_nothing()
    ensures ready { (t u : Tree) (r next : Repo) (command : Command) → ((path : List ℕ) → is_loose strays path ≡ false → u path ≡ t path) → IsReady t r command next → IsReady u r command next }
    ensures changes { (t u : Tree) (r next : Repo) (command : Command) → ((path : List ℕ) → is_loose strays path ≡ false → u path ≡ t path) → changes_before u r command next ≡ changes_before t r command next }
    ensures publishing { (t u : Tree) (r next : Repo) (command : Command) → ((path : List ℕ) → is_loose strays path ≡ false → u path ≡ t path) → publishing u r command next ≡ publishing t r command next }
    ensures journalled { (t u : Tree) (r next : Repo) (command : Command) → ((path : List ℕ) → is_loose strays path ≡ false → u path ≡ t path) → journalled u r command next ≡ journalled t r command next }
    ensures laid { (t u : Tree) (r next : Repo) (n : NewChange) → ((path : List ℕ) → is_loose strays path ≡ false → u path ≡ t path) → (path : List ℕ) → is_loose strays path ≡ false → after_all (laid u r n next) u path ≡ after_all (laid t r n next) t path }
{}

/// The transactions of commands, with their syncs and settles, bear a loss of power: over the tree with the writer's locks their
/// operations keep to their journal and their list, up to the removal of the journal they lead to the next repository, and from
/// any disk at rest whose losses of power all leave trees of the repository before, each is a course. So from a tree that stands
/// for a repository any number of commands may be done, each whole, or taken back by its writer before it is published, or by
/// recovery after that: wherever the power fails, a tree is left that stands for a repository, or
/// leads back to one, no older than the transactions acknowledged and no newer than those published.
pub fn transactions_bear_a_loss_of_power()
    ensures transactions { (t : Tree) (r next : Repo) (command : Command) (who : List ℕ) → IsReady t r command next → IsTransaction strays (power_steps t r command who next) t }
    ensures leads { (t : Tree) (r next : Repo) (command : Command) (who : List ℕ) (answer : Answer) → Stands (after_all (power_locks who) t) r → IsValid command → step r command ≡ Ok (next, answer) → IsReady (after_all (power_locks who) t) r command next → Stands (after_all (ops_to_removal (power_steps (after_all (power_locks who) t) r command who next)) t) next }
    ensures courses { (repos : ℕ → Repo) (d : Disk) (a : ℕ) (command : Command) (who : List ℕ) (answer : Answer) → IsOrderly strays d → IsQuiet strays d → ((t : Tree) → Leaves d t → IsOpenFor strays (λ m t. Stands t (repos m)) a t) → IsValid command → step (repos a) command ≡ Ok (repos (suc a), answer) → IsReady (after_all (power_locks who) (tree_now d)) (repos a) command (repos (suc a)) → IsCourse strays (λ m t. Stands t (repos m)) (parts_of (power_steps (after_all (power_locks who) (tree_now d)) (repos a) command who (repos (suc a)))) d (resting_at a) }
    ensures calls { (repos : ℕ → Repo) (start : Tree) (calls : List Call) → Stands start (repos 0) → AreCalls repos 0 (at_rest start) calls → AllWithin strays (λ m t. Stands t (repos m)) (parts_of_calls repos 0 (at_rest start) calls) (at_rest start) (resting_at 0) }
{
    journals_begin();
    transactions_stay_covered();
    journal_undo_leads_back();
    undo_may_stop();
    other_files_do_not_matter();
    open_trees_lead_back();
}

//! What the definitions of this crate imply. Each function is one law; none does anything but to call laws that it rests on.
ghost use Rattle.std.specs.Prelude.{◌≡◌, ◌<◌, ◌++◌, ◌∷◌, [], true, false, ℕ, List, length, Option, Some, None, IfSome, Ok, Err};
ghost use Rattle.hgs_bytes.specs.Text.{ascends};
ghost use Rattle.hgs_files.specs.Tree.{Tree};
ghost use Rattle.hgs_index.specs.Revision.{Parents, Revision, parent_node, standing, with_revision};
ghost use Rattle.hgs_loading.specs.Logs.{text_in_form};
ghost use Rattle.hgs_loading.specs.Parent.{Files};
ghost use Rattle.hgs_manifest.specs.Held.{found_in};
ghost use Rattle.hgs_model.specs.History.{History, changeset_revision, file_parents, history, kept, node_at, text_at};
ghost use Rattle.hgs_model.specs.Repo.{Repo};
ghost use Rattle.hgs_model.specs.Step.{as_parents, copies_hold, named_all, new_changeset, refused_where, step, unchanged_from};
ghost use Rattle.hgs_model.specs.declared.command.Command.TheVariants.{Commit};
ghost use Rattle.hgs_model.specs.declared.command.Refusal.{Refusal};
ghost use Rattle.hgs_model.specs.declared.command.Refusal.TheVariants.{NothingChanged};
ghost use Rattle.hgs_steps.specs.declared.fault.PlanFault.TheVariants.{Refused as refused_for};
ghost use Rattle.hgs_commit.specs.declared.fault.CommitFault.TheVariants.{Refused};
ghost use Rattle.hgs_model.specs.Valid.{IsNewChange, new_paths};
ghost use Rattle.hgs_model.specs.declared.command.NewChange.{NewChange};
ghost use Rattle.hgs_ops.specs.Growth.{append_some, grown};
ghost use Rattle.hgs_ops.specs.Unhindered.{IsReady};
ghost use Rattle.hgs_path.specs.Fncache.{listing};
ghost use Rattle.hgs_revlog.specs.Log.{nodes_of, place_of};
ghost use Rattle.hgs_stands.specs.Places.{fncache_path};
ghost use Rattle.hgs_stands.specs.Stands.{Stands};
ghost use Rattle.hgs_steps.specs.Loaded.{has_inline};
ghost use Rattle.hgs_steps.specs.Planned.{IsLoadedOf};
ghost use Rattle.hgs_steps.specs.Steps.{as_fault};
ghost use Rattle.hgs_steps.specs.declared.loaded.Loaded.{Loaded};
ghost use Rattle.hgs_commit.specs.Appended.{append_some as append_to};
ghost use Rattle.hgs_commit.specs.Changeset.{of_changelog, of_manifest};
ghost use Rattle.hgs_commit.specs.Commit.{ClashOn, OfTexts, commit_in, grown_in, long_list, parent_files, planned, refusal_with, step_on, tested, texts_in, trees_in};
ghost use Rattle.hgs_commit.specs.Files.{filelog_in, kept_in, parents_by};
ghost use Rattle.hgs_commit.specs.Obstacles.{Met, Obstacle, noted, nothing_met};
ghost use Rattle.hgs_commit.specs.Texts.{OfLog, OfText, changes_of, new_text_in};
ghost use Rattle.hgs_commit.specs.Trees.{OfGrown};
ghost use Rattle.hgs_writer.specs.CommitsBelow.{Below};
ghost use Rattle.hgs_legal.specs.ListsPaths.{ListsPaths};
ghost use Rattle.hgs_writer.specs.BytePaths.{HasBytePaths};
ghost use Rattle.hgs_writer.specs.Commits.{AnswersAs};
ghost use Rattle.hgs_writer.specs.StepsBelow.{StepsBelow};
ghost use Rattle.hgs_writer.specs.Files.{files_at, told_at};
ghost use Rattle.hgs_writer.specs.Growth.{AreAppends, AreGrownFilesOf, IsWhole};
ghost use Rattle.hgs_writer.specs.Logs.{IsLogOf};
ghost use Rattle.hgs_writer.specs.NewTexts.{IsTextOf, growth_by};
ghost use Rattle.hgs_writer.specs.Trees.{AreBelow, AreTextsOf, IsTreeOf};

use hgs_commit::laws::empty_entries;
use hgs_index::laws::held_index_length;
use hgs_legal::list_laws::listed_paths_need_no_test;
use hgs_loading::laws::indexes_are_read_whole;
use hgs_model::history_laws::used_paths_have_revisions;
use hgs_model::laws::step_keeps_repositories;
use hgs_path::laws::{filelogs_have_their_own_names, listed_names_differ, listed_names_name_files};
use hgs_revlog::laws::{
    either_form, entries_of_revisions, inline_index, loaded_entries, new_revision, whole_index,
};
use hgs_steps::laws::{
    files_of_commits_agree, loaded_entries_are_held, loaded_holds_repository, names_agree,
};

/// Over a tree that stands for a repository, the revlogs that were loaded are the lists of its revisions, and the filelog that
/// is loaded of a path is the list of that path's, used or not.
pub fn loaded_logs_are_the_repositorys()
    ensures changelog { (t : Tree) (r : Repo) (l : Loaded) → Stands t r → IsLoadedOf t l → IsLogOf t (of_changelog l.changelog) (history r.changesets).changelog }
    ensures manifest { (t : Tree) (r : Repo) (l : Loaded) → Stands t r → IsLoadedOf t l → IsLogOf t (of_manifest l.manifest) (history r.changesets).manifest }
    ensures filelogs { (t : Tree) (r : Repo) (l : Loaded) (path : List ℕ) (f : OfLog) → Stands t r → IsLoadedOf t l → filelog_in (listing l.fncache) path t ≡ Ok f → IsLogOf t f ((history r.changesets).filelog path) }
{
    laws_below();
}

/// In such a revlog a revision is found by its node, has this node, and its text is read.
pub fn logs_tell_revisions()
    ensures place { (t : Tree) (f : OfLog) (revisions : List Revision) (rev : ℕ) → IsLogOf t f revisions → rev < length revisions → place_of f.log.entries (node_at revisions rev) ≡ Some rev }
    ensures node { (t : Tree) (f : OfLog) (revisions : List Revision) (rev : ℕ) → IsLogOf t f revisions → parent_node (nodes_of f.log.entries) (Some rev) ≡ node_at revisions rev }
    ensures text { (t : Tree) (f : OfLog) (revisions : List Revision) (rev : ℕ) → IsLogOf t f revisions → rev < length revisions → text_in_form f.index f.chunks f.log rev t ≡ Ok (text_at revisions rev) }
{}

/// What is read of a parent is the manifest of that changeset in the repository, by its number, and its rows: of each file the
/// node of its revision.
pub fn files_of_parents_are_the_repositorys()
    ensures { (t : Tree) (r : Repo) (l : Loaded) (o : Option ℕ) (files : Files) → Stands t r → IsLoadedOf t l → IfSome o (λ rev. rev < length r.changesets) → parent_files l o t ≡ Ok files → files ≡ files_at (history r.changesets) o }
{
    loaded_logs_are_the_repositorys();
}

/// The row of a path in a parent's manifest tells of the file that the repository's changeset has there. So the parents of a
/// file's revision have the numbers that they have in the repository, and the same revision is kept, or none.
pub fn file_parents_are_the_repositorys()
    ensures rows { (h : History) (o : Option ℕ) (path : List ℕ) → found_in path (files_at h o).1 ≡ told_at h o path }
    ensures parents { (t : Tree) (r : Repo) (f : OfLog) (parents : Parents) (path : List ℕ) → Stands t r → IsLogOf t f ((history r.changesets).filelog path) → parents_by f (told_at (history r.changesets) parents.0 path) (told_at (history r.changesets) parents.1 path) ≡ Ok (file_parents (history r.changesets) parents path) }
    ensures kept { (t : Tree) (r : Repo) (f : OfLog) (parents : Parents) (path body : List ℕ) → Stands t r → IsLogOf t f ((history r.changesets).filelog path) →
        kept_in f (file_parents (history r.changesets) parents path).0 (file_parents (history r.changesets) parents path).1 body t ≡ Ok (kept (history r.changesets) parents path body) }
{}

/// A text in such a revlog has the node of the revision that the list with it has, is the revision that the list has of it
/// already, if it has one, and else is appended as a new one, unless it is told what keeps it from being written. It always
/// becomes one of these: no fault of the files is met.
pub fn texts_are_the_repositorys()
    ensures { (t : Tree) (f : OfLog) (revisions : List Revision) (r : Revision) → IsLogOf t f revisions → (x : OfText × List Obstacle) × (new_text_in f r t ≡ Ok x) × IsTextOf f revisions r x }
{}

/// The rows of a commit's tree, its changed paths and the parents of its manifest are those of the changeset that the repository
/// would add.
pub fn trees_are_the_repositorys()
    ensures { (t : Tree) (r : Repo) (l : Loaded) (n : NewChange) (parents : Parents) (y : (OfGrown × Parents) × List Obstacle) → Stands t r → IsLoadedOf t l → ascends (new_paths n.files) ≡ true → IfSome parents.0 (λ rev. rev < length r.changesets) → IfSome parents.1 (λ rev. rev < length r.changesets) →
        grown_in l n parents t ≡ Ok y → IsTreeOf (history r.changesets) (new_changeset (history r.changesets) parents n) y.0 }
{
    laws_below();
    loaded_logs_are_the_repositorys();
}

/// So are its manifest and its changeset: the changeset has the node that it has in the repository with it, it stands already
/// where an equal one does there, and else, with nothing that keeps it from being written, the revisions are appended that are
/// new there.
pub fn texts_of_commits_are_the_repositorys()
    ensures { (t : Tree) (r : Repo) (l : Loaded) (n : NewChange) (parents : Parents) (x : OfGrown) (manifests : Parents) (y : OfTexts × List Obstacle) → Stands t r → IsLoadedOf t l → IsTreeOf (history r.changesets) (new_changeset (history r.changesets) parents n) (x, manifests) →
        texts_in l n parents x manifests t ≡ Ok y → AreTextsOf l (history r.changesets) (new_changeset (history r.changesets) parents n) y }
{
    loaded_logs_are_the_repositorys();
}

/// A commit that names an unknown parent is refused as in the repository; else it is worked out on the parents of the
/// repository's changeset, which are changesets that there are.
pub fn parents_of_commits_are_the_repositorys()
    ensures unknown { (t : Tree) (r : Repo) (l : Loaded) (n : NewChange) (clash : Option (List ℕ)) (e : Refusal) → Stands t r → IsLoadedOf t l → named_all r n.parents ≡ Err e → (commit_in clash l n t ≡ Err (Refused (refused_for e))) × (step r (Commit n) ≡ Err e) }
    ensures known { (t : Tree) (r : Repo) (l : Loaded) (n : NewChange) (clash : Option (List ℕ)) (revs : List ℕ) → Stands t r → IsLoadedOf t l → named_all r n.parents ≡ Ok revs → (commit_in clash l n t ≡ step_on clash l n (as_parents revs) t) × AreBelow (length r.changesets) (as_parents revs) }
{
    names_agree();
}

/// A commit whose tree is that of its one parent, or the empty one without a parent, is refused as in the repository; another is
/// not refused for its tree.
pub fn unchanged_trees_are_refused()
    ensures { (t : Tree) (r : Repo) (l : Loaded) (n : NewChange) (parents : Parents) (y : (OfGrown × Parents) × List Obstacle) → Stands t r → IsLoadedOf t l → ascends (new_paths n.files) ≡ true → AreBelow (length r.changesets) parents → grown_in l n parents t ≡ Ok y →
        tested parents y.0.0 ≡ as_fault (refused_where (unchanged_from r.changesets parents.0 parents.1 (new_changeset (history r.changesets) parents n).tree)) }
{
    trees_are_the_repositorys();
}

/// A changeset that the repository has already is refused, and the answer names the one that the repository has.
pub fn equal_changesets_are_refused()
    ensures { (l : Loaded) (h : History) (n : NewChange) (parents : Parents) (y : OfTexts × List Obstacle) (m : Met) (clash : Option (List ℕ)) (rev : ℕ) → AreTextsOf l h (new_changeset h parents n) y → standing h.changelog (changeset_revision h (new_changeset h parents n)).text parents ≡ Some rev →
        planned l n parents y.0 m clash ≡ Err (refused_for (NothingChanged rev)) }
{}

/// What is appended of a revision to a revlog whose files are as long as its entries say is what the list of its revisions
/// grows by, behind what stands in the tree: nothing where it is a revision already. Changelog and manifest are as long.
pub fn revisions_are_appended()
    ensures grows { (t : Tree) (f : OfLog) (old : List Revision) (r : Revision) → IsLogOf t f old → IsWhole t f → AreAppends t (grown f.log.inline t f.index f.chunks old (with_revision old r)) (changes_of (growth_by f r (standing old r.text r.parents))) }
    ensures changelog { (t : Tree) (r : Repo) (l : Loaded) → Stands t r → IsLoadedOf t l → IsWhole t (of_changelog l.changelog) }
    ensures manifest { (t : Tree) (r : Repo) (l : Loaded) → Stands t r → IsLoadedOf t l → IsWhole t (of_manifest l.manifest) }
{
    laws_below();
}

/// Where nothing keeps the files of a commit from being written, what it appends to the filelogs is what those of its paths grow
/// by in the repository with its changeset, and the lines are the names of the filelogs that are new there, which are appended
/// to their list.
pub fn filelogs_of_commits_grow()
    ensures files { (t : Tree) (r next : Repo) (l : Loaded) (n : NewChange) (parents : Parents) (x : OfGrown × Parents) → Stands t r → IsLoadedOf t l → ascends (new_paths n.files) ≡ true → AreBelow (length r.changesets) parents → next.changesets ≡ r.changesets ++ new_changeset (history r.changesets) parents n ∷ [] →
        grown_in l n parents t ≡ Ok (x, []) → AreGrownFilesOf t r next x.0 }
    ensures list { (t : Tree) (l : Loaded) (lines : List ℕ) → IsLoadedOf t l → AreAppends t (append_some fncache_path lines) (append_to fncache_path l.fncache_length lines) }
{
    laws_below();
    loaded_logs_are_the_repositorys();
}

/// A commit of paths that are bytes, and that nothing keeps from being written, neither an inline log nor a long list, is ready where the
/// list of filelogs has only names of paths: by its tests, and by what was loaded.
pub fn free_commits_are_ready()
    ensures { (t : Tree) (r next : Repo) (l : Loaded) (n : NewChange) (parents : Parents) (x : OfGrown × Parents) (y : OfTexts) → Stands t r → IsLoadedOf t l → ascends (new_paths n.files) ≡ true → AreBelow (length r.changesets) parents → next.changesets ≡ r.changesets ++ new_changeset (history r.changesets) parents n ∷ [] → copies_hold (history r.changesets) parents n.files ≡ Ok tt →
        has_inline l ≡ false → grown_in l n parents t ≡ Ok (x, []) → texts_in l n parents x.0 x.1 t ≡ Ok (y, []) → ClashOn l n (trees_in l n parents t) None None → standing (history r.changesets).changelog (changeset_revision (history r.changesets) (new_changeset (history r.changesets) parents n)).text parents ≡ None → long_list l (length y.lines) ≡ [] → ListsPaths t r → HasBytePaths n → IsReady t r (Commit n) next }
{
    laws_below();
    laws_of_steps();
    loaded_logs_are_the_repositorys();
    trees_are_the_repositorys();
    texts_of_commits_are_the_repositorys();
    listed_paths_need_no_test();
}

/// Where a commit is refused for nothing that was met, nothing was met, and no clash was told.
pub fn met_obstacles_refuse()
    ensures { (a b c d e : List Obstacle) (clash : Option (List ℕ)) → refusal_with (noted (noted (noted (noted (noted nothing_met a) b) c) d) e) clash ≡ Ok tt → (a ≡ []) × (b ≡ []) × (c ≡ []) × (d ≡ []) × (e ≡ []) × (clash ≡ None) }
{}

/// A commit is answered over such a tree as the repository answers it: with the same refusal, or where it is accepted with the
/// step to the next repository, for which the tree then is ready, unless something was met that keeps it from being written. What
/// is read for it is refused only for a limit, where one is passed.
pub fn commits_agree()
    ensures { (t : Tree) (r : Repo) (l : Loaded) (n : NewChange) (clash : Option (List ℕ)) → Stands t r → IsLoadedOf t l → IsNewChange n → AnswersAs t r l n clash (commit_in clash l n t) (step r (Commit n)) }
{
    laws_below();
    laws_of_steps();
    loaded_logs_are_the_repositorys();
    revisions_are_appended();
    filelogs_of_commits_grow();
    free_commits_are_ready();
    names_agree();
    parents_of_commits_are_the_repositorys();
}

/// What the laws of the crates below say of steps and of reading.
pub(crate) fn laws_of_steps()
    ensures { StepsBelow }
{
    loaded_holds_repository();
    files_of_commits_agree();
    step_keeps_repositories();
    new_revision();
    indexes_are_read_whole();
}

/// What the laws of the crates below say.
pub(crate) fn laws_below()
    ensures { Below }
{
    loaded_entries_are_held();
    loaded_entries();
    whole_index();
    either_form();
    inline_index();
    indexes_are_read_whole();
    entries_of_revisions();
    held_index_length();
    empty_entries();
    used_paths_have_revisions();
    listed_names_differ();
    listed_names_name_files();
    filelogs_have_their_own_names();
}
